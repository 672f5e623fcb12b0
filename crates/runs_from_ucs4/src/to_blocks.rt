// To a form that is written in blocks: FSS-UTF and UTF-16.
ghost use Rattle.std.specs.Prelude.{◌≤◌, length};
ghost use Rattle.forms.specs.Forms.{ucs4};
ghost use Rattle.laws.proofs.Runs.{Convertible, Wrote};

use encoder::blocks::BlockForm;
use types::Run;

// The whole rest of a text that the measure has accepted: each unit is its value.
pub fn write<G: BlockForm>(src: &[u32], at: usize, dst: &mut [G::Unit], written: usize) -> Run
    requires { (at ≤ length src.now) × (Convertible ucs4 G.form src.now at written (length (G.units dst.old))) }
    ensures { Wrote ucs4 G.form src.now at result.length result.units (G.units dst.old) written (G.units dst.new) }
{
    let length = src.len() - at;
    let end = encoder::blocks::write_all::<G>(&src[at..], dst, written);
    Run {
        length,
        units: end - written,
    }
}
