// To UCS-4, in blocks.
ghost use Rattle.std.specs.Prelude.{◌≡◌, true, false, not, ◌+◌, ◌-◌, ◌*◌, ◌≤◌, length};
ghost use Rattle.forms.specs.Forms.{utf16, ucs4};
ghost use Rattle.laws.proofs.Runs.{Convertible, Wrote};
ghost use Rattle.measure_runs.specs.Utf16Units.{is_high, is_low, number, LastCharacter};

use types::Run;

// Character by character, until so many units have passed.
fn each(src: &[u16], at: usize, count: usize, dst: &mut [u32], written: usize) -> Run
    requires { (at + count ≤ length src.now) × (Convertible utf16 ucs4 src.now at written (length dst.old)) }
    ensures { (Wrote utf16 ucs4 src.now at result.length result.units dst.old written dst.new) × (count ≤ result.length) }
{
    let mut length: usize = 0;
    let mut end = written;
    // No `for`: a turn steps by a character, and only finds out how many units that is.
    while length < count {
        let next = crate::decoding::decode(src, at + length);
        end = encoder::ucs4::write(next.value, dst, end);
        length += next.length;
    }
    Run {
        length,
        units: end - written,
    }
}

// The unit's value, or the pair's where the unit is a high one: no branch.
fn value(unit: u16, next: u16) -> u32
    requires { is_high unit ≡ true → is_low next ≡ true }
    ensures { (is_high unit ≡ true → result ≡ 0x10000 + (unit - 0xD800) * 0x400 + (next - 0xDC00)) × (is_high unit ≡ false → result ≡ unit) }
{
    if measure_runs::utf16_blocks::high(unit) {
        u32::from(unit) * 0x400 + u32::from(next) - 0x35FDC00
    } else {
        u32::from(unit)
    }
}

// Where the last character of so many units begins.
fn last_of(src: &[u16], at: usize, count: usize) -> usize
    requires { (2 ≤ count) × (at + count ≤ length src.now) }
    ensures { LastCharacter src.now at count result }
{
    let last = count - 1;
    if measure_runs::utf16_blocks::low(src[at + last]) {
        return count - 2;
    }
    last
}

// Unit by unit: no branch. What is written for a low unit is written over by the next character; the last is written exactly.
fn pairs(src: &[u16], at: usize, count: usize, dst: &mut [u32], written: usize) -> Run
    requires { (2 ≤ count) × (at + count ≤ length src.now) × (Convertible utf16 ucs4 src.now at written (length dst.old)) }
    ensures { (Wrote utf16 ucs4 src.now at result.length result.units dst.old written dst.new) × (count ≤ result.length) }
{
    let last = last_of(src, at, count);
    let mut end = written;
    for k in 0..last {
        let unit = src[at + k];
        dst[end] = value(unit, src[at + k + 1]);
        // A low unit counts for no value.
        end += usize::from(!measure_runs::utf16_blocks::low(unit));
    }
    let next = crate::decoding::decode(src, at + last);
    end = encoder::ucs4::write(next.value, dst, end);
    Run {
        length: last + next.length,
        units: end - written,
    }
}

// Blocks with surrogates are written in quarters: the shorter they are, the more of them have none. `quarter`, `large` and `block` are three:
// with the step as a parameter each clause would be said of the step.
fn quarter(src: &[u16], at: usize, count: usize, dst: &mut [u32], written: usize) -> Run
    requires { (2 ≤ count) × (at + count ≤ length src.now) × (Convertible utf16 ucs4 src.now at written (length dst.old)) }
    ensures { (Wrote utf16 ucs4 src.now at result.length result.units dst.old written dst.new) × (count ≤ result.length) }
{
    if measure_runs::utf16_blocks::surrogates(src, at, count) {
        return pairs(src, at, count, dst, written);
    }
    crate::decoding::widen(src, at, count, dst, written);
    Run {
        length: count,
        units: count,
    }
}

fn quarters(src: &[u16], at: usize, dst: &mut [u32], written: usize) -> Run
    requires { (at + 128 ≤ length src.now) × (Convertible utf16 ucs4 src.now at written (length dst.old)) }
    ensures { (Wrote utf16 ucs4 src.now at result.length result.units dst.old written dst.new) × (96 ≤ result.length) }
{
    let mut length: usize = 0;
    let mut end = written;
    // No `for`: a quarter that ends within a pair takes one unit more.
    while length < 97 {
        let run = quarter(src, at + length, 32, dst, end);
        length += run.length;
        end += run.units;
    }
    Run {
        length,
        units: end - written,
    }
}

fn large(src: &[u16], at: usize, dst: &mut [u32], written: usize) -> Run
    requires { (at + 128 ≤ length src.now) × (Convertible utf16 ucs4 src.now at written (length dst.old)) }
    ensures { (Wrote utf16 ucs4 src.now at result.length result.units dst.old written dst.new) × (96 ≤ result.length) }
{
    if measure_runs::utf16_blocks::surrogates(src, at, 128) {
        return quarters(src, at, dst, written);
    }
    crate::decoding::widen(src, at, 128, dst, written);
    Run {
        length: 128,
        units: 128,
    }
}

// Fewer units than a large block has.
fn block(src: &[u16], at: usize, count: usize, dst: &mut [u32], written: usize) -> Run
    requires { (at + count ≤ length src.now) × (Convertible utf16 ucs4 src.now at written (length dst.old)) }
    ensures { (Wrote utf16 ucs4 src.now at result.length result.units dst.old written dst.new) × (count ≤ result.length) }
{
    if measure_runs::utf16_blocks::surrogates(src, at, count) {
        return each(src, at, count, dst, written);
    }
    crate::decoding::widen(src, at, count, dst, written);
    Run {
        length: count,
        units: count,
    }
}

// The whole rest of a text that the measure has accepted, in blocks of 128: shorter ones are compiled to slower code.
pub fn write(src: &[u16], at: usize, dst: &mut [u32], written: usize) -> Run
    requires { (at ≤ length src.now) × (Convertible utf16 ucs4 src.now at written (length dst.old)) }
    ensures { Wrote utf16 ucs4 src.now at result.length result.units dst.old written dst.new }
{
    let mut length: usize = 0;
    let mut end = written;
    // No `for`: a block that ends within a pair takes one unit more.
    while 128 <= src.len() - at - length {
        let run = large(src, at + length, dst, end);
        length += run.length;
        end += run.units;
    }
    let rest = src.len() - at - length;
    let run = block(src, at + length, rest, dst, end);
    Run {
        length: length + run.length,
        units: end + run.units - written,
    }
}
