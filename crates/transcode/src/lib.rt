// Strict conversion of a text into a lent buffer: measured, then the room tested, and written only then. `conversion` has the public call.
// The rules are `specs/Conversion` of `forms`, and what the loop keeps is `Writing` of `laws`.
#![tactic(auto)]

mod runs;

ghost use Rattle.forms.specs.Conversion.{Converts};

use encoder::form::TargetForm;
pub use runs::WriteRuns;
use types::{Item, Refusal};

pub fn convert<F: WriteRuns<G>, G: TargetForm>(
    src: &[F::Unit],
    dst: &mut [G::Unit],
) -> Result<usize, Refusal>
    ensures { Converts F.form G.form (F.units src.now) (G.units dst.old) result (G.units dst.new) }
{
    let units = measure::measure::<F>(G::TARGET, src)?;
    if dst.len() < units {
        return Err(answers::buffer_too_short());
    }
    let mut at: usize = 0;
    let mut written: usize = 0;
    // No `for`: a turn steps by a run or an item, and only finds out how long that is.
    while at < src.len() {
        let run = F::write_run(src, at, dst, written);
        let taken = run.length;
        if taken != 0 {
            at += taken;
            written += run.units;
            continue;
        }
        let item = F::item_at(src, at);
        let Item::Character(value, span) = item else {
            return Err(answers::refusal(item));
        };
        written = G::write(value, dst, written);
        at += span.length;
    }
    Ok(written)
}
