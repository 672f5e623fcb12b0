// Lossy decoding of the four forms, document 01's mended reading: public calls, which ask nothing of their caller.
//
// A text's items go into two lent buffers: the value of each (FFFFFFFF for a mark) and its start. `specs/Lossy` of `forms` says what each
// call gives, and `specs/Demand3` of `demand3` what its caller has for every text of characters, any code units, and characters.
//
// A decoding tests the room first, and writes only then; what its loop keeps is `Filling` of `lossy_runs`.
#![tactic(auto)]

ghost use Rattle.std.specs.Prelude.{◌≡◌, ◌&&◌, leb, ◌≤◌, length};
ghost use Rattle.forms.specs.Form.{items};
ghost use Rattle.demand3.specs.Demand3.{DecodesLossy};

use items::SourceForm;
use lossy_runs::LossyRuns;
pub use types::{FssUtf, Ucs4, Utf16, UtfEbcdic};
use types::{Counts, Refusal};

// How many items a text has.
fn count<F: SourceForm>(text: &[F::Unit]) -> usize
    requires { length text.now ≤ 65536 }
    ensures { result ≡ length (items F.form (F.units text.now)) }
{
    let mut at: usize = 0;
    let mut count: usize = 0;
    // No `for`: a turn steps by an item, and only finds out how long that is.
    while at < text.len() {
        let span = answers::span(F::item_at(text, at));
        count += 1;
        at += span.length;
    }
    count
}

// Whether there is room for all items: for as many as there are code units there is no need to count.
fn has_room<F: SourceForm>(text: &[F::Unit], values: usize, starts: usize) -> bool
    requires { length text.now ≤ 65536 }
    ensures { result ≡ (leb (length (items F.form (F.units text.now))) values && leb (length (items F.form (F.units text.now))) starts) }
{
    if text.len() <= values.min(starts) {
        return true;
    }
    let needed = count::<F>(text);
    (needed <= values) & (needed <= starts)
}

// Values and starts go into two buffers, as C lends them.
pub fn decode_lossy<F: LossyRuns>(
    text: &[F::Unit],
    values: &mut [u32],
    starts: &mut [u32],
) -> Result<Counts, Refusal>
    ensures { DecodesLossy F.form (F.units text.now) values.old starts.old result values.new starts.new }
{
    if 65536 < text.len() {
        return Err(answers::source_too_long());
    }
    if !has_room::<F>(text, values.len(), starts.len()) {
        return Err(answers::buffer_too_short());
    }
    let mut at: usize = 0;
    let mut items: usize = 0;
    let mut marks: usize = 0;
    // No `for`: a turn steps by a run or an item, and only finds out how long that is.
    while at < text.len() {
        let run = F::read_on(text, at, values, starts, items);
        if run.at != at {
            at = run.at;
            items = run.items;
            continue;
        }
        let item = F::item_at(text, at);
        values[items] = answers::value(item);
        starts[items] = at as u32;
        items += 1;
        marks += answers::mark_count(item);
        at += answers::span(item).length;
    }
    Ok(Counts { items, marks })
}
