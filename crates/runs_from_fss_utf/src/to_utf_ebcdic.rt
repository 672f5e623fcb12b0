// To UTF-EBCDIC. A run makes the inverse table once and looks up in it.
ghost use Rattle.std.specs.Prelude.{◌≤◌, length};
ghost use Rattle.forms.specs.Forms.{fss_utf, utf_ebcdic};
ghost use Rattle.laws.proofs.Runs.{Convertible, Wrote};

use tables::exchange::InverseTable;
use types::Run;

// Up to a character of more than four bytes. ASCII is looked for first. No twin of that from UTF-16: each reads its own characters, and only
// the writing is shared, in `encoder::utf_ebcdic`.
pub fn write(src: &[u8], at: usize, dst: &mut [u8], written: usize) -> Run
    requires { (at ≤ length src.now) × Convertible fss_utf utf_ebcdic src.now at written (length dst.old) }
    ensures { Wrote fss_utf utf_ebcdic src.now at result.length result.units dst.old written dst.new }
{
    let table = &InverseTable::new();
    let room = src.len() - at;
    let mut length: usize = 0;
    let mut units: usize = 0;
    // No `for`: a turn steps by a character, and only finds out how many units that is.
    while length < room {
        let lead = src[at + length];
        if lead < 0x80 {
            let end = encoder::utf_ebcdic::write(table, u32::from(lead), dst, written + units);
            length += 1;
            units = end - written;
            continue;
        }
        let Some(character) = crate::decoding::known_at(src, at + length) else {
            return Run { length, units };
        };
        let end = encoder::utf_ebcdic::write(table, character.value, dst, written + units);
        length += character.length;
        units = end - written;
    }
    Run { length, units }
}
