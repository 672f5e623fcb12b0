// To UTF-EBCDIC. A run makes the inverse table once and looks up in it.
ghost use Rattle.std.specs.Prelude.{◌≤◌, length};
ghost use Rattle.forms.specs.Forms.{utf16, utf_ebcdic};
ghost use Rattle.laws.proofs.Runs.{Convertible, Wrote};

use tables::exchange::InverseTable;
use types::Run;

// No twin of that from FSS-UTF: each reads its own characters, and only the writing is shared, in `encoder::utf_ebcdic`.
pub fn write(src: &[u16], at: usize, dst: &mut [u8], written: usize) -> Run
    requires { (at ≤ length src.now) × Convertible utf16 utf_ebcdic src.now at written (length dst.old) }
    ensures { Wrote utf16 utf_ebcdic src.now at result.length result.units dst.old written dst.new }
{
    let table = &InverseTable::new();
    let room = src.len() - at;
    let mut length: usize = 0;
    let mut units: usize = 0;
    // No `for`: a turn steps by a character, and only finds out how many units that is.
    while length < room {
        let Some(next) = characters::utf16::short_at(src, at + length) else {
            break;
        };
        let end = encoder::utf_ebcdic::write(table, next.value, dst, written + units);
        length += next.length;
        units = end - written;
    }
    Run { length, units }
}
