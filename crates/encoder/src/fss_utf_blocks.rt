// A block of values in FSS-UTF.
ghost use Rattle.std.specs.Prelude.{◌≡◌, ◌+◌, ◌%◌, ◌<◌, length, get_or, set};
ghost use Rattle.forms.specs.Form.{encode};
ghost use Rattle.forms.specs.Forms.{fss_utf};
ghost use Rattle.laws.proofs.Blocks.{AtLeast, AtMost};
ghost use Rattle.laws.proofs.Values.{Encodable, Encoded, Room};

use crate::blocks::BlockForm;
use types::FssUtf;

// The first byte of a value below 800, and how many bytes it has: no branch.
fn lead(value: u32) -> u8
    requires { value < 0x800 }
    ensures { result ≡ get_or (encode fss_utf value) 0 0 }
{
    if value < 0x80 {
        value as u8
    } else {
        (0xC0 + value / 64) as u8
    }
}

fn size(value: u32) -> usize
    requires { value < 0x800 }
    ensures { result ≡ length (encode fss_utf value) }
{
    if value < 0x80 { 1 } else { 2 }
}

// A value below 800 as two bytes, of which the second counts only if the value has two: no branch.
pub fn overrun(value: u32, dst: &mut [u8], at: usize) -> usize
    requires { (value < 0x800) × (at + 1 < length dst.old) }
    ensures { (result ≡ at + length (encode fss_utf value)) × (dst.new ≡ set (set dst.old at (get_or (encode fss_utf value) 0 0)) (at + 1) (0x80 + value % 64)) }
{
    dst[at] = lead(value);
    dst[at + 1] = (0x80 + value % 64) as u8;
    at + size(value)
}

// Values below 80: each is its byte.
fn copy(values: &[u32], dst: &mut [u8], at: usize) -> usize
    requires { (Encodable fss_utf values.now 0 (length values.now)) × (Room fss_utf values.now 0 (length values.now) at (length dst.old)) × (AtMost values.now 0 (length values.now) 0x7F) }
    ensures { Encoded fss_utf values.now 0 (length values.now) dst.old at result dst.new }
{
    for k in 0..values.len() {
        dst[at + k] = values[k] as u8;
    }
    at + values.len()
}

// Values below 800, each over the byte too many of the one before it: no branch. The last is written exactly.
fn twos(values: &[u32], dst: &mut [u8], at: usize) -> usize
    requires { (Encodable fss_utf values.now 0 (length values.now)) × (Room fss_utf values.now 0 (length values.now) at (length dst.old)) × (AtMost values.now 0 (length values.now) 0x7FF) }
    ensures { Encoded fss_utf values.now 0 (length values.now) dst.old at result dst.new }
{
    let Some((last, others)) = values.split_last() else {
        return at;
    };
    let mut end = at;
    for value in others {
        end = overrun(*value, dst, end);
    }
    crate::fss_utf::write(*last, dst, end)
}

// Values of three bytes each: no branch.
fn threes(values: &[u32], dst: &mut [u8], at: usize) -> usize
    requires { (Encodable fss_utf values.now 0 (length values.now)) × (Room fss_utf values.now 0 (length values.now) at (length dst.old)) × (AtMost values.now 0 (length values.now) 0xFFFF) × (AtLeast values.now 0 (length values.now) 0x800) }
    ensures { Encoded fss_utf values.now 0 (length values.now) dst.old at result dst.new }
{
    let mut end = at;
    for value in values {
        end = crate::fss_utf::three(*value, dst, end);
    }
    end
}

impl BlockForm for FssUtf {
    fn write_block(values: &[u32], dst: &mut [u8], at: usize) -> usize {
        let most = crate::value_bounds::joined(values);
        if most < 0x80 {
            return copy(values, dst, at);
        }
        if most < 0x800 {
            return twos(values, dst, at);
        }
        if most < 0x10000 && crate::value_bounds::all_reach(values, 0x800) {
            return threes(values, dst, at);
        }
        crate::blocks::each::<FssUtf>(values, dst, at)
    }

    // The tests for short and long values would cost more than they save.
    fn write_rest(values: &[u32], dst: &mut [u8], at: usize) -> usize {
        if crate::value_bounds::joined(values) < 0x80 {
            return copy(values, dst, at);
        }
        crate::blocks::each::<FssUtf>(values, dst, at)
    }
}
