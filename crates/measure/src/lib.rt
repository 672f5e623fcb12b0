// The measure of a text: how many code units it has in another form, or the refusal. `conversion_length` has the public call. The rules are
// `specs/Conversion` of `forms`, and what the loop keeps is `Measuring` of `laws`.
#![tactic(auto)]

mod runs;

ghost use Rattle.encoder.specs.Target.{target_form};
ghost use Rattle.forms.specs.Conversion.{Measures};

use encoder::Target;
pub use runs::MeasureRuns;
use types::{Item, Refusal};

pub fn measure<F: MeasureRuns>(target: Target, src: &[F::Unit]) -> Result<usize, Refusal>
    ensures { Measures F.form (target_form target) (F.units src.now) result }
{
    if 65536 < src.len() {
        return Err(answers::source_too_long());
    }
    let mut at: usize = 0;
    let mut units: usize = 0;
    // No `for`: a turn steps by a run or an item, and only finds out how long that is.
    while at < src.len() {
        let run = F::count_run(target, src, at);
        let taken = run.length;
        if taken != 0 {
            at += taken;
            units += run.units;
            continue;
        }
        let item = F::item_at(src, at);
        let Item::Character(value, span) = item else {
            return Err(answers::refusal(item));
        };
        let length = encoder::encoded_length(target, value);
        // The length of an empty encoding: the target does not hold the value.
        if length == 0 {
            return Err(answers::refusal(item));
        }
        units += length;
        at += span.length;
    }
    Ok(units)
}
