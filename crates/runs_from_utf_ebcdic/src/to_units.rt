// To each form in which an ASCII character is one code unit of its own value: FSS-UTF, UTF-16 and UCS-4.
ghost use Rattle.std.specs.Prelude.{◌≡◌, ◌+◌, ◌≤◌, true, false, length};
ghost use Rattle.forms.specs.Forms.{utf_ebcdic};
ghost use Rattle.laws.proofs.Runs.{Convertible, Wrote, CopyingRun};

use crate::ascii_form::AsciiForm;
use tables::exchange::ExchangeTable;
use types::Run;

// `copy8`, `ascii` and `few` stay apart from those of FSS-UTF: each byte is looked up in a table, and blocks and cells have other widths.

// A block of 8 bytes, if all of them stand for ASCII; the answer is whether it was copied. It is exchanged into an array, which stays in
// registers, and tested there. Its cells are as wide as the widest unit, so that none is widened where it is stored.
fn copy8<F: AsciiForm>(
    table: &ExchangeTable,
    src: &[u8],
    at: usize,
    dst: &mut [F::Unit],
    written: usize,
) -> bool
    requires { (at + 8 ≤ length src.now) × (written + 8 ≤ length dst.old) }
    ensures { (result ≡ true → Wrote utf_ebcdic F.form src.now at 8 8 (F.units dst.old) written (F.units dst.new)) × (result ≡ false → dst.new ≡ dst.old) }
{
    let mut block = [0u32; 8];
    let mut joined: u32 = 0;
    for i in 0..8 {
        let value = u32::from(table.get(src[at + i]));
        block[i] = value;
        joined |= value;
    }
    if 128 <= joined {
        return false;
    }
    for k in 0..8 {
        F::put_ascii(block[k], dst, written + k);
    }
    true
}

// ASCII in whole blocks, as far as the room goes.
fn ascii<F: AsciiForm>(
    table: &ExchangeTable,
    src: &[u8],
    at: usize,
    dst: &mut [F::Unit],
    written: usize,
) -> usize
    requires { (at ≤ length src.now) × (written ≤ length dst.old) }
    ensures { CopyingRun utf_ebcdic F.form src.now at written (F.units dst.old) result (F.units dst.new) }
{
    let mut taken: usize = 0;
    // `chunks_exact` is no plainer: the promise is by the place that the buffer has come to.
    while 8 <= src.len() - (at + taken) {
        if dst.len() - (written + taken) < 8 {
            return taken;
        }
        if !copy8::<F>(table, src, at + taken, dst, written + taken) {
            return taken;
        }
        taken += 8;
    }
    taken
}

// Characters one by one, up to one of more than four bytes. ASCII is looked for first.
fn few<F: AsciiForm>(
    table: &ExchangeTable,
    src: &[u8],
    at: usize,
    dst: &mut [F::Unit],
    written: usize,
) -> Run
    requires { (at ≤ length src.now) × Convertible utf_ebcdic F.form src.now at written (length dst.old) }
    ensures { Wrote utf_ebcdic F.form src.now at result.length result.units (F.units dst.old) written (F.units dst.new) }
{
    // Not too many at once, so that blocks are tried again.
    let room = (src.len() - at).min(256);
    let mut length: usize = 0;
    let mut units: usize = 0;
    // No `for`: a turn steps by a character, and only finds out how many units that is.
    while length < room {
        let lead = table.get(src[at + length]);
        if lead < 0x80 {
            let end = F::write(u32::from(lead), dst, written + units);
            length += 1;
            units = end - written;
            continue;
        }
        let Some(character) = crate::decoding::known_at(table, src, at + length) else {
            return Run { length, units };
        };
        let end = F::write(character.value, dst, written + units);
        length += character.length;
        units = end - written;
    }
    Run { length, units }
}

pub fn write<F: AsciiForm>(src: &[u8], at: usize, dst: &mut [F::Unit], written: usize) -> Run
    requires { (at ≤ length src.now) × Convertible utf_ebcdic F.form src.now at written (length dst.old) }
    ensures { Wrote utf_ebcdic F.form src.now at result.length result.units (F.units dst.old) written (F.units dst.new) }
{
    let table = &ExchangeTable::new();
    let copied = ascii::<F>(table, src, at, dst, written);
    let rest = few::<F>(table, src, at + copied, dst, written + copied);
    Run {
        length: copied + rest.length,
        units: copied + rest.units,
    }
}
