// The finder of the four forms, `item_covering`: a public call, which asks nothing of its caller. `FindsStart` is what it needs of a form.
//
// It gives the item, in the reading of the whole text, that covers the asked offset: `FindsItem` in `specs/Finder` of `forms`. It looks
// for the start at the asked code unit and at those before it that the longest item reaches, and reads the item there: its cost does not grow
// with the text. `bytes`, `utf16` and `ucs4` say how far back the start lies.
#![tactic(auto)]

mod bytes;
mod start;
mod ucs4;
mod utf16;

ghost use Rattle.forms.specs.Finder.{FindsItem};

use start::FindsStart;
use types::{Item, Refusal};

pub fn item_covering<F: FindsStart>(text: &[F::Unit], offset: usize) -> Result<Item, Refusal>
    ensures { FindsItem F.form (F.units text.now) offset result }
{
    if 65536 < text.len() {
        return Err(answers::source_too_long());
    }
    if text.len() <= offset {
        return Err(answers::offset_out_of_range(offset));
    }
    let start = offset - F::distance_back(text, offset);
    Ok(F::item_at(text, start))
}
