// What a gateway calls: the calls of the library under their C names, as `include/jiskromet.h` declares them. Here: the item at an offset,
// by a function for each form, since C, which calls them, has no type parameters; `conversions`, `decodings` and `finders` have the others.
//
// Each answer is a struct of numbers: `c_answers` has them, in `specs/Answer` which number stands for which case, and in `specs/Promises`
// what converters, measures and lossy decodings promise. `jiskromet_c` exports them to C.
#![tactic(auto)]

pub mod conversions;
pub mod decodings;
pub mod finders;

ghost use Rattle.std.specs.Prelude.{◌≡◌};
ghost use Rattle.forms.specs.Forms.{fss_utf, utf_ebcdic, utf16, ucs4};
ghost use Rattle.reader.specs.Step.{cursor, step_at};
ghost use Rattle.c_answers.specs.Answer.{item_answer};

use c_answers::JkItem;
use reader::{Cursor, FssUtf, Ucs4, Utf16, UtfEbcdic};

pub fn jk_fss_utf_item_at(text: &[u8], offset: usize) -> JkItem
    ensures { result ≡ item_answer (step_at fss_utf text.now (cursor offset)) }
{
    let at = Cursor { offset };
    JkItem::from(at.step::<FssUtf>(text))
}

pub fn jk_utf_ebcdic_item_at(text: &[u8], offset: usize) -> JkItem
    ensures { result ≡ item_answer (step_at utf_ebcdic text.now (cursor offset)) }
{
    let at = Cursor { offset };
    JkItem::from(at.step::<UtfEbcdic>(text))
}

pub fn jk_utf16_item_at(text: &[u16], offset: usize) -> JkItem
    ensures { result ≡ item_answer (step_at utf16 text.now (cursor offset)) }
{
    let at = Cursor { offset };
    JkItem::from(at.step::<Utf16>(text))
}

pub fn jk_ucs4_item_at(text: &[u32], offset: usize) -> JkItem
    ensures { result ≡ item_answer (step_at ucs4 text.now (cursor offset)) }
{
    let at = Cursor { offset };
    JkItem::from(at.step::<Ucs4>(text))
}
