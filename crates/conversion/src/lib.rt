// Strict conversion between each two of the four forms: the public call, which asks nothing of its caller.
//
// `convert::<F, G>` converts a text of the form F into a lent buffer in the form G: the code units stand at its front and its rest is
// untouched, or it is refused and the buffer is as it was. `specs/Conversion` of `forms` says what it gives; `conversion_length` has the
// length.
#![tactic(auto)]

ghost use Rattle.forms.specs.Conversion.{Converts};

use encoder::form::TargetForm;
use transcode::WriteRuns;
use types::Refusal;

pub fn convert<F: WriteRuns<G>, G: TargetForm>(
    src: &[F::Unit],
    dst: &mut [G::Unit],
) -> Result<usize, Refusal>
    ensures { Converts F.form G.form (F.units src.now) (G.units dst.old) result (G.units dst.new) }
{
    transcode::convert::<F, G>(src, dst)
}
