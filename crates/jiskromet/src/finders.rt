// The finders: the item that covers an offset, by a function for each form, since C, which calls them, has no type parameters.
ghost use Rattle.std.specs.Prelude.{◌≡◌};
ghost use Rattle.forms.specs.Forms.{fss_utf, utf_ebcdic, utf16, ucs4};
ghost use Rattle.forms.specs.Finder.{item_covering};
ghost use Rattle.c_answers.specs.Answer.{found_answer};

use c_answers::JkItem;
use types::{FssUtf, Ucs4, Utf16, UtfEbcdic};

pub fn jk_fss_utf_item_covering(text: &[u8], offset: usize) -> JkItem
    ensures { result ≡ found_answer (item_covering fss_utf text.now offset) }
{
    JkItem::from(finder::item_covering::<FssUtf>(text, offset))
}

pub fn jk_utf_ebcdic_item_covering(text: &[u8], offset: usize) -> JkItem
    ensures { result ≡ found_answer (item_covering utf_ebcdic text.now offset) }
{
    JkItem::from(finder::item_covering::<UtfEbcdic>(text, offset))
}

pub fn jk_utf16_item_covering(text: &[u16], offset: usize) -> JkItem
    ensures { result ≡ found_answer (item_covering utf16 text.now offset) }
{
    JkItem::from(finder::item_covering::<Utf16>(text, offset))
}

pub fn jk_ucs4_item_covering(text: &[u32], offset: usize) -> JkItem
    ensures { result ≡ found_answer (item_covering ucs4 text.now offset) }
{
    JkItem::from(finder::item_covering::<Ucs4>(text, offset))
}
