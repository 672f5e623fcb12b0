// Many characters written in one step, from each of the four forms in each other.
ghost use Rattle.std.specs.Prelude.{◌<◌, length};
ghost use Rattle.laws.proofs.Runs.{Convertible, Wrote};

use encoder::form::TargetForm;
use measure::MeasureRuns;
use types::{FssUtf, Run, Ucs4, Utf16, UtfEbcdic};

// A form whose characters are written many at once in the form G. The parameters are those of the runs behind it.
pub trait WriteRuns<G: TargetForm>: MeasureRuns {
    // The characters from an offset on that are written at once.
    fn write_run(src: &[Self::Unit], at: usize, dst: &mut [G::Unit], written: usize) -> Run
        requires { (at < length src.now) × Convertible Self.form G.form (Self.units src.now) at written (length dst.old) }
        ensures { Wrote Self.form G.form (Self.units src.now) at result.length result.units (G.units dst.old) written (G.units dst.new) };
}

// A byte form written as itself goes item by item: no call of C takes it.
const ITEM_BY_ITEM: Run = Run {
    length: 0,
    units: 0,
};

impl WriteRuns<FssUtf> for FssUtf {
    fn write_run(_src: &[u8], _at: usize, _dst: &mut [u8], _written: usize) -> Run {
        ITEM_BY_ITEM
    }
}

impl WriteRuns<UtfEbcdic> for UtfEbcdic {
    fn write_run(_src: &[u8], _at: usize, _dst: &mut [u8], _written: usize) -> Run {
        ITEM_BY_ITEM
    }
}

impl WriteRuns<UtfEbcdic> for FssUtf {
    fn write_run(src: &[u8], at: usize, dst: &mut [u8], written: usize) -> Run {
        runs_from_fss_utf::to_utf_ebcdic::write(src, at, dst, written)
    }
}

impl WriteRuns<Utf16> for FssUtf {
    fn write_run(src: &[u8], at: usize, dst: &mut [u16], written: usize) -> Run {
        runs_from_fss_utf::to_units::write::<Utf16>(src, at, dst, written)
    }
}

impl WriteRuns<Ucs4> for FssUtf {
    fn write_run(src: &[u8], at: usize, dst: &mut [u32], written: usize) -> Run {
        runs_from_fss_utf::to_units::write::<Ucs4>(src, at, dst, written)
    }
}

impl WriteRuns<FssUtf> for UtfEbcdic {
    fn write_run(src: &[u8], at: usize, dst: &mut [u8], written: usize) -> Run {
        runs_from_utf_ebcdic::to_units::write::<FssUtf>(src, at, dst, written)
    }
}

impl WriteRuns<Utf16> for UtfEbcdic {
    fn write_run(src: &[u8], at: usize, dst: &mut [u16], written: usize) -> Run {
        runs_from_utf_ebcdic::to_units::write::<Utf16>(src, at, dst, written)
    }
}

impl WriteRuns<Ucs4> for UtfEbcdic {
    fn write_run(src: &[u8], at: usize, dst: &mut [u32], written: usize) -> Run {
        runs_from_utf_ebcdic::to_units::write::<Ucs4>(src, at, dst, written)
    }
}

impl WriteRuns<FssUtf> for Utf16 {
    fn write_run(src: &[u16], at: usize, dst: &mut [u8], written: usize) -> Run {
        runs_from_utf16::to_fss_utf::write(src, at, dst, written)
    }
}

impl WriteRuns<UtfEbcdic> for Utf16 {
    fn write_run(src: &[u16], at: usize, dst: &mut [u8], written: usize) -> Run {
        runs_from_utf16::to_utf_ebcdic::write(src, at, dst, written)
    }
}

impl WriteRuns<Ucs4> for Utf16 {
    fn write_run(src: &[u16], at: usize, dst: &mut [u32], written: usize) -> Run {
        runs_from_utf16::to_ucs4::write(src, at, dst, written)
    }
}

impl WriteRuns<FssUtf> for Ucs4 {
    fn write_run(src: &[u32], at: usize, dst: &mut [u8], written: usize) -> Run {
        runs_from_ucs4::to_blocks::write::<FssUtf>(src, at, dst, written)
    }
}

impl WriteRuns<UtfEbcdic> for Ucs4 {
    fn write_run(src: &[u32], at: usize, dst: &mut [u8], written: usize) -> Run {
        runs_from_ucs4::to_utf_ebcdic::write(src, at, dst, written)
    }
}

impl WriteRuns<Utf16> for Ucs4 {
    fn write_run(src: &[u32], at: usize, dst: &mut [u16], written: usize) -> Run {
        runs_from_ucs4::to_blocks::write::<Utf16>(src, at, dst, written)
    }
}
