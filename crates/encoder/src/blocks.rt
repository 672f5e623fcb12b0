// Many values, in blocks, in a form that has a step for a block. They must have encodings, and the room must suffice: `laws/proofs/Values`
// says what is asked and promised.
ghost use Rattle.std.specs.Prelude.{length};
ghost use Rattle.laws.proofs.Values.{Encodable, Encoded, Room};

use crate::form::TargetForm;

pub trait BlockForm: TargetForm {
    // One block.
    fn write_block(values: &[u32], dst: &mut [Self::Unit], at: usize) -> usize
        requires { (Encodable Self.form values.now 0 (length values.now)) × (Room Self.form values.now 0 (length values.now) at (length (Self.units dst.old))) }
        ensures { Encoded Self.form values.now 0 (length values.now) (Self.units dst.old) at result (Self.units dst.new) };

    // Fewer values than a block has.
    fn write_rest(values: &[u32], dst: &mut [Self::Unit], at: usize) -> usize
        requires { (Encodable Self.form values.now 0 (length values.now)) × (Room Self.form values.now 0 (length values.now) at (length (Self.units dst.old))) }
        ensures { Encoded Self.form values.now 0 (length values.now) (Self.units dst.old) at result (Self.units dst.new) };
}

// One by one.
pub fn each<F: TargetForm>(values: &[u32], dst: &mut [F::Unit], at: usize) -> usize
    requires { (Encodable F.form values.now 0 (length values.now)) × (Room F.form values.now 0 (length values.now) at (length (F.units dst.old))) }
    ensures { Encoded F.form values.now 0 (length values.now) (F.units dst.old) at result (F.units dst.new) }
{
    let mut end = at;
    for value in values {
        end = F::write(*value, dst, end);
    }
    end
}

// Shorter blocks are compiled to slower code.
const BLOCK: usize = 128;

pub fn write_all<F: BlockForm>(values: &[u32], dst: &mut [F::Unit], at: usize) -> usize
    requires { (Encodable F.form values.now 0 (length values.now)) × (Room F.form values.now 0 (length values.now) at (length (F.units dst.old))) }
    ensures { Encoded F.form values.now 0 (length values.now) (F.units dst.old) at result (F.units dst.new) }
{
    let mut end = at;
    let blocks = values.chunks_exact(BLOCK);
    let rest = blocks.remainder();
    for block in blocks {
        end = F::write_block(block, dst, end);
    }
    F::write_rest(rest, dst, end)
}
