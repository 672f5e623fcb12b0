// To FSS-UTF.
ghost use Rattle.std.specs.Prelude.{◌≡◌, ◌+◌, ◌<◌, ◌≤◌, length};
ghost use Rattle.forms.specs.Forms.{utf16, fss_utf};
ghost use Rattle.forms.specs.Buffer.{with_units};
ghost use Rattle.laws.proofs.Runs.{Convertible, Wrote};
ghost use Rattle.laws.proofs.Blocks.{AtMost};
ghost use Rattle.laws.proofs.Values.{Encodable, Encoded, Room, part};

use types::{FssUtf, Run};

// Character by character, until so many units have passed. Each length has its own way round the loop. This and `twos` are not inlined: in the
// conversion, which needs the registers itself, their loops would be compiled to longer code.
#[inline(never)]
fn each(src: &[u16], at: usize, count: usize, dst: &mut [u8], written: usize) -> Run
    requires { (at + count ≤ length src.now) × (Convertible utf16 fss_utf src.now at written (length dst.old)) }
    ensures { (Wrote utf16 fss_utf src.now at result.length result.units dst.old written dst.new) × (count ≤ result.length) }
{
    let mut length: usize = 0;
    let mut end = written;
    // No `for`: a turn steps by a character, and only finds out how many units that is.
    while length < count {
        let place = at + length;
        let unit = src[place];
        // Counted here: in each way by itself, it would be compiled to vector code with the offset of what is written, which is slower.
        length += 1;
        if unit < 0x80 {
            end = encoder::fss_utf::one(u32::from(unit), dst, end);
            continue;
        }
        if unit < 0x800 {
            end = encoder::fss_utf::two(u32::from(unit), dst, end);
            continue;
        }
        if !measure_runs::utf16_blocks::surrogate(unit) {
            end = encoder::fss_utf::three(u32::from(unit), dst, end);
            continue;
        }
        end = encoder::fss_utf::four(crate::decoding::pair(src, place), dst, end);
        length += 1;
    }
    Run {
        length,
        units: end - written,
    }
}

// ASCII: each unit is its byte. This and `twos` read the units themselves: for their twins of `encoder`, which read values, a block would have
// to be widened first, a pass more.
fn copy(src: &[u16], at: usize, count: usize, dst: &mut [u8], written: usize)
    requires { (at + count ≤ length src.now) × (written + count ≤ length dst.old) × (AtMost src.now at count 0x7F) }
    ensures { dst.new ≡ with_units dst.old written (part src.now at count) }
{
    for k in 0..count {
        dst[written + k] = src[at + k] as u8;
    }
}

// Units below 800, each over the byte too many of the one before it: no branch, and four of them in a turn, which are compiled to straight code.
// The last is written exactly.
#[inline(never)]
fn twos(src: &[u16], at: usize, count: usize, dst: &mut [u8], written: usize) -> usize
    requires { (Encodable fss_utf src.now at count) × (Room fss_utf src.now at count written (length dst.old)) × (AtMost src.now at count 0x7FF) }
    ensures { Encoded fss_utf src.now at count dst.old written result dst.new }
{
    if count == 0 {
        return written;
    }
    let last = count - 1;
    let mut end = written;
    for turn in 0..last / 4 {
        for part in 0..4 {
            let k = 4 * turn + part;
            end = encoder::fss_utf_blocks::overrun(u32::from(src[at + k]), dst, end);
        }
    }
    for k in last / 4 * 4..last {
        end = encoder::fss_utf_blocks::overrun(u32::from(src[at + k]), dst, end);
    }
    encoder::fss_utf::write(u32::from(src[at + last]), dst, end)
}

fn block(src: &[u16], at: usize, count: usize, dst: &mut [u8], written: usize) -> Run
    requires { (count ≤ 128) × (at + count ≤ length src.now) × (Convertible utf16 fss_utf src.now at written (length dst.old)) }
    ensures { (Wrote utf16 fss_utf src.now at result.length result.units dst.old written dst.new) × (count ≤ result.length) }
{
    let most = measure_runs::utf16_blocks::joined(src, at, count);
    if most < 0x80 {
        copy(src, at, count, dst, written);
        return Run {
            length: count,
            units: count,
        };
    }
    if most < 0x800 {
        let end = twos(src, at, count, dst, written);
        return Run {
            length: count,
            units: end - written,
        };
    }
    if measure_runs::utf16_blocks::surrogates(src, at, count) {
        return each(src, at, count, dst, written);
    }
    let mut values = [0u32; 128];
    crate::decoding::widen(src, at, count, &mut values, 0);
    let end = encoder::blocks::write_all::<FssUtf>(&values[..count], dst, written);
    Run {
        length: count,
        units: end - written,
    }
}

// Fewer units than a block has: the test for short ones would cost more than it saves.
fn rest(src: &[u16], at: usize, count: usize, dst: &mut [u8], written: usize) -> Run
    requires { (at + count ≤ length src.now) × (Convertible utf16 fss_utf src.now at written (length dst.old)) }
    ensures { (Wrote utf16 fss_utf src.now at result.length result.units dst.old written dst.new) × (count ≤ result.length) }
{
    if measure_runs::utf16_blocks::joined(src, at, count) < 0x80 {
        copy(src, at, count, dst, written);
        return Run {
            length: count,
            units: count,
        };
    }
    each(src, at, count, dst, written)
}

// The whole rest of a text that the measure has accepted, in blocks of 128: shorter ones are compiled to slower code.
pub fn write(src: &[u16], at: usize, dst: &mut [u8], written: usize) -> Run
    requires { (at ≤ length src.now) × (Convertible utf16 fss_utf src.now at written (length dst.old)) }
    ensures { Wrote utf16 fss_utf src.now at result.length result.units dst.old written dst.new }
{
    let mut length: usize = 0;
    let mut end = written;
    // No `for`: a block that ends within a pair takes one unit more.
    while 128 <= src.len() - at - length {
        let run = block(src, at + length, 128, dst, end);
        length += run.length;
        end += run.units;
    }
    let left = src.len() - at - length;
    let run = rest(src, at + length, left, dst, end);
    Run {
        length: length + run.length,
        units: end + run.units - written,
    }
}
