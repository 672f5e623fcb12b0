// What a gateway links: the exports for C, under the names that `include/jiskromet.h` declares. Each calls the function of `jiskromet` of
// its name, and promises what that one promises. Here: the item at an offset; `conversions`, `decodings` and `finders` have the others.
// There is one for each form and pair of forms: C has no type parameters.
#![tactic(auto)]

pub mod conversions;
pub mod decodings;
pub mod finders;

ghost use Rattle.std.specs.Prelude.{◌≡◌};
ghost use Rattle.forms.specs.Forms.{fss_utf, utf_ebcdic, utf16, ucs4};
ghost use Rattle.reader.specs.Step.{cursor, step_at};
ghost use Rattle.c_answers.specs.Answer.{item_answer};

use c_answers::JkItem;

#[unsafe(no_mangle)]
pub extern "C" fn jk_fss_utf_item_at(text: &[u8], offset: usize) -> JkItem
    ensures { result ≡ item_answer (step_at fss_utf text.now (cursor offset)) }
{
    jiskromet::jk_fss_utf_item_at(text, offset)
}

#[unsafe(no_mangle)]
pub extern "C" fn jk_utf_ebcdic_item_at(text: &[u8], offset: usize) -> JkItem
    ensures { result ≡ item_answer (step_at utf_ebcdic text.now (cursor offset)) }
{
    jiskromet::jk_utf_ebcdic_item_at(text, offset)
}

#[unsafe(no_mangle)]
pub extern "C" fn jk_utf16_item_at(text: &[u16], offset: usize) -> JkItem
    ensures { result ≡ item_answer (step_at utf16 text.now (cursor offset)) }
{
    jiskromet::jk_utf16_item_at(text, offset)
}

#[unsafe(no_mangle)]
pub extern "C" fn jk_ucs4_item_at(text: &[u32], offset: usize) -> JkItem
    ensures { result ≡ item_answer (step_at ucs4 text.now (cursor offset)) }
{
    jiskromet::jk_ucs4_item_at(text, offset)
}
