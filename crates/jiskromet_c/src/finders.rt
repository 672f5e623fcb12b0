// The finders: the item that covers an offset.
ghost use Rattle.std.specs.Prelude.{◌≡◌};
ghost use Rattle.forms.specs.Forms.{fss_utf, utf_ebcdic, utf16, ucs4};
ghost use Rattle.forms.specs.Finder.{item_covering};
ghost use Rattle.c_answers.specs.Answer.{found_answer};

use c_answers::JkItem;

#[unsafe(no_mangle)]
pub extern "C" fn jk_fss_utf_item_covering(text: &[u8], offset: usize) -> JkItem
    ensures { result ≡ found_answer (item_covering fss_utf text.now offset) }
{
    jiskromet::finders::jk_fss_utf_item_covering(text, offset)
}

#[unsafe(no_mangle)]
pub extern "C" fn jk_utf_ebcdic_item_covering(text: &[u8], offset: usize) -> JkItem
    ensures { result ≡ found_answer (item_covering utf_ebcdic text.now offset) }
{
    jiskromet::finders::jk_utf_ebcdic_item_covering(text, offset)
}

#[unsafe(no_mangle)]
pub extern "C" fn jk_utf16_item_covering(text: &[u16], offset: usize) -> JkItem
    ensures { result ≡ found_answer (item_covering utf16 text.now offset) }
{
    jiskromet::finders::jk_utf16_item_covering(text, offset)
}

#[unsafe(no_mangle)]
pub extern "C" fn jk_ucs4_item_covering(text: &[u32], offset: usize) -> JkItem
    ensures { result ≡ found_answer (item_covering ucs4 text.now offset) }
{
    jiskromet::finders::jk_ucs4_item_covering(text, offset)
}
