// The length of each conversion between two of the four forms, document 01's measure: the public call, which asks nothing of its caller.
//
// `length::<F, G>` gives how many code units a text of the form F has in the form G, or the refusal. `specs/Conversion` of `forms` says
// what it gives.
#![tactic(auto)]

ghost use Rattle.forms.specs.Conversion.{Measures};

use encoder::form::TargetForm;
use measure::MeasureRuns;
use types::Refusal;

pub fn length<F: MeasureRuns, G: TargetForm>(src: &[F::Unit]) -> Result<usize, Refusal>
    ensures { Measures F.form G.form (F.units src.now) result }
{
    measure::measure::<F>(G::TARGET, src)
}
