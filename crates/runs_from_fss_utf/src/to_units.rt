// To each form in which a character of a value below 10000 is one code unit, that value: UTF-16 and UCS-4.
ghost use Rattle.std.specs.Prelude.{◌≡◌, ◌+◌, ◌<◌, ◌≤◌, true, false, length};
ghost use Rattle.forms.specs.Forms.{fss_utf};
ghost use Rattle.laws.proofs.Runs.{Convertible, Wrote, CopyingRun};
ghost use Rattle.runs_from_fss_utf.specs.ShortBlock.{Shorts};

use crate::wide_form::WideForm;
use types::Run;

// A block of 16 bytes, if all of them are ASCII; the answer is whether it was copied. It is read into an array and tested there, so that
// both loops are done at once. Its cells are wider than a byte, since bytes are joined in more steps.
fn copy16<F: WideForm>(src: &[u8], at: usize, dst: &mut [F::Unit], written: usize) -> bool
    requires { (at + 16 ≤ length src.now) × (written + 16 ≤ length dst.old) }
    ensures { (result ≡ true → Wrote fss_utf F.form src.now at 16 16 (F.units dst.old) written (F.units dst.new)) × (result ≡ false → dst.new ≡ dst.old) }
{
    let mut block = [0u16; 16];
    let mut joined: u16 = 0;
    for i in 0..16 {
        let value = u16::from(src[at + i]);
        block[i] = value;
        joined |= value;
    }
    if 128 <= joined {
        return false;
    }
    for k in 0..16 {
        F::put_value(block[k], dst, written + k);
    }
    true
}

// ASCII in whole blocks, as far as the room goes; and where less than a block is left, byte by byte.
fn ascii<F: WideForm>(src: &[u8], at: usize, dst: &mut [F::Unit], written: usize) -> usize
    requires { (at ≤ length src.now) × (written ≤ length dst.old) }
    ensures { CopyingRun fss_utf F.form src.now at written (F.units dst.old) result (F.units dst.new) }
{
    let mut taken: usize = 0;
    // `chunks_exact` is no plainer: what is behind the last block goes on from its end, in the buffer too.
    while 16 <= src.len() - (at + taken) {
        if dst.len() - (written + taken) < 16 {
            return taken;
        }
        if !copy16::<F>(src, at + taken, dst, written + taken) {
            return taken;
        }
        taken += 16;
    }
    let left = src.len() - at;
    for k in taken..left {
        let byte = src[at + k];
        if 0x80 <= byte || dst.len() <= written + k {
            return k;
        }
        F::put_value(u16::from(byte), dst, written + k);
    }
    left
}

// A block of 64 bytes of characters of one byte or two, and the byte behind it where that ends the last: a cell is stored for every byte, and
// no cell is counted for a trailing byte, so that the next character is stored over it.
fn short64<F: WideForm>(src: &[u8], at: usize, dst: &mut [F::Unit], written: usize) -> Run
    requires { (at + 64 < length src.now) × Shorts src.now at 64 × Convertible fss_utf F.form src.now at written (length dst.old) }
    ensures { Wrote fss_utf F.form src.now at result.length result.units (F.units dst.old) written (F.units dst.new) }
{
    let values = crate::short_blocks::values64(src, at);
    let begun = crate::short_blocks::begun64(src, at);
    let last = crate::short_blocks::last_start(src, at);
    let mut to = written;
    for k in 0..last {
        F::put_value(values[k], dst, to);
        to += usize::from(begun[k]);
    }
    F::put_value(values[last], dst, to);
    let units = to + 1 - written;
    if src[at + last] < 0x80 {
        return Run {
            length: last + 1,
            units,
        };
    }
    Run {
        length: last + 2,
        units,
    }
}

// Characters one by one, up to one of more than four bytes. They are known to be characters, so nothing is tested but their lengths;
// each length has its own way round the loop.
fn few<F: WideForm>(src: &[u8], at: usize, dst: &mut [F::Unit], written: usize) -> Run
    requires { (at ≤ length src.now) × Convertible fss_utf F.form src.now at written (length dst.old) }
    ensures { Wrote fss_utf F.form src.now at result.length result.units (F.units dst.old) written (F.units dst.new) }
{
    // Not too many at once, so that blocks are tried again.
    let room = (src.len() - at).min(128);
    let mut length: usize = 0;
    let mut units: usize = 0;
    // No `for`: a turn steps by a character, and only finds out how many units that is.
    while length < room {
        let from = at + length;
        let to = written + units;
        let lead = src[from];
        if lead < 0x80 {
            F::put_value(u16::from(lead), dst, to);
            length += 1;
            units += 1;
            continue;
        }
        let a = crate::short_blocks::free_bits(src[from + 1]);
        if lead < 0xE0 {
            F::put_value(u16::from(lead - 0xC0) * 64 + a, dst, to);
            length += 2;
            units += 1;
            continue;
        }
        let b = crate::short_blocks::free_bits(src[from + 2]);
        if lead < 0xF0 {
            F::put_value((u16::from(lead - 0xE0) * 64 + a) * 64 + b, dst, to);
            length += 3;
            units += 1;
            continue;
        }
        let Some(character) = crate::decoding::known_at(src, from) else {
            return Run { length, units };
        };
        let end = F::write(character.value, dst, to);
        length += character.length;
        units = end - written;
    }
    Run { length, units }
}

// A block of characters of one byte and two, or else characters one by one.
fn others<F: WideForm>(src: &[u8], at: usize, dst: &mut [F::Unit], written: usize) -> Run
    requires { (at < length src.now) × Convertible fss_utf F.form src.now at written (length dst.old) }
    ensures { Wrote fss_utf F.form src.now at result.length result.units (F.units dst.old) written (F.units dst.new) }
{
    if 0xE0 <= src[at] || src.len() - at <= 64 || crate::short_blocks::longer64(src, at) {
        return few::<F>(src, at, dst, written);
    }
    short64::<F>(src, at, dst, written)
}

pub fn write<F: WideForm>(src: &[u8], at: usize, dst: &mut [F::Unit], written: usize) -> Run
    requires { (at < length src.now) × Convertible fss_utf F.form src.now at written (length dst.old) }
    ensures { Wrote fss_utf F.form src.now at result.length result.units (F.units dst.old) written (F.units dst.new) }
{
    if 0x80 <= src[at] {
        return others::<F>(src, at, dst, written);
    }
    let copied = ascii::<F>(src, at, dst, written);
    if copied != 0 {
        return Run {
            length: copied,
            units: copied,
        };
    }
    others::<F>(src, at, dst, written)
}
