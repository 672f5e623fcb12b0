// Many characters measured in one step, in each of the four forms.
ghost use Rattle.std.specs.Prelude.{◌<◌, ◌≤◌, length};
ghost use Rattle.encoder.specs.Target.{target_form};
ghost use Rattle.forms.specs.Forms.{strictly};
ghost use Rattle.laws.proofs.Runs.{Counted};

use encoder::Target;
use items::SourceForm;
use types::{FssUtf, Run, Ucs4, Utf16, UtfEbcdic};

// A form whose characters are measured many at once.
pub trait MeasureRuns: SourceForm {
    // The characters from an offset on that are counted at once.
    fn count_run(target: Target, src: &[Self::Unit], at: usize) -> Run
        requires { (at < length src.now) × (length src.now ≤ 65536) }
        ensures { Counted Self.form (strictly (target_form target)) (Self.units src.now) at result.length result.units };
}

impl MeasureRuns for FssUtf {
    fn count_run(target: Target, src: &[u8], at: usize) -> Run {
        measure_runs::fss_utf::count(target, src, at)
    }
}

impl MeasureRuns for UtfEbcdic {
    fn count_run(target: Target, src: &[u8], at: usize) -> Run {
        measure_runs::utf_ebcdic::count(target, src, at)
    }
}

impl MeasureRuns for Utf16 {
    fn count_run(target: Target, src: &[u16], at: usize) -> Run {
        measure_runs::utf16::count(target, src, at)
    }
}

impl MeasureRuns for Ucs4 {
    fn count_run(target: Target, src: &[u32], at: usize) -> Run {
        measure_runs::ucs4::count(target, src, at)
    }
}
