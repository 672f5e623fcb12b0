// To UTF-EBCDIC. A run makes the inverse table once and looks up in it.
ghost use Rattle.std.specs.Prelude.{◌≤◌, length};
ghost use Rattle.forms.specs.Forms.{utf_ebcdic, ucs4};
ghost use Rattle.laws.proofs.Runs.{Convertible, Wrote};

use tables::exchange::InverseTable;
use types::Run;

pub fn write(src: &[u32], at: usize, dst: &mut [u8], written: usize) -> Run
    requires { (at ≤ length src.now) × Convertible ucs4 utf_ebcdic src.now at written (length dst.old) }
    ensures { Wrote ucs4 utf_ebcdic src.now at result.length result.units dst.old written dst.new }
{
    let table = &InverseTable::new();
    let mut units: usize = 0;
    for value in &src[at..] {
        let end = encoder::utf_ebcdic::write(table, *value, dst, written + units);
        units = end - written;
    }
    Run {
        length: src.len() - at,
        units,
    }
}
