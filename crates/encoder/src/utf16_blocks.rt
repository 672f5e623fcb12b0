// A block of values in UTF-16.
ghost use Rattle.std.specs.Prelude.{length};
ghost use Rattle.forms.specs.Forms.{utf16};
ghost use Rattle.laws.proofs.Blocks.{AtMost};
ghost use Rattle.laws.proofs.Values.{Encodable, Encoded, Room};

use crate::blocks::BlockForm;
use types::Utf16;

// Values below 10000: each is its unit. FSS-UTF has its own copy: by a trait the cast would be a method, and no plainer.
fn copy(values: &[u32], dst: &mut [u16], at: usize) -> usize
    requires { (Encodable utf16 values.now 0 (length values.now)) × (Room utf16 values.now 0 (length values.now) at (length dst.old)) × (AtMost values.now 0 (length values.now) 0xFFFF) }
    ensures { Encoded utf16 values.now 0 (length values.now) dst.old at result dst.new }
{
    for k in 0..values.len() {
        dst[at + k] = values[k] as u16;
    }
    at + values.len()
}

impl BlockForm for Utf16 {
    fn write_block(values: &[u32], dst: &mut [u16], at: usize) -> usize {
        if crate::value_bounds::joined(values) < 0x10000 {
            return copy(values, dst, at);
        }
        crate::blocks::each::<Utf16>(values, dst, at)
    }

    fn write_rest(values: &[u32], dst: &mut [u16], at: usize) -> usize {
        Self::write_block(values, dst, at)
    }
}
