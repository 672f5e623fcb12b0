// Forms that are read by blocks of characters of one unit each, or else one character after the other.
ghost use Rattle.std.specs.Prelude.{◌≡◌, ◌+◌, ◌<◌, ◌≤◌, length, IfSome};
ghost use Rattle.forms.specs.Buffer.{with_units};
ghost use Rattle.characters.specs.Short.{ShortAt};
ghost use Rattle.lossy_runs.specs.ReadOn.{Room, ReadOn, Singles, offsets_from};

use crate::Read;
use characters::Character;
use items::SourceForm;

pub trait Blocks: SourceForm {
    // How many units are read one character after the other before the next block is tried.
    const REACH: usize;

    // The values of a block, where its units are characters by themselves.
    fn block_at(text: &[Self::Unit], at: usize) -> Option<[u32; 16]>
        requires { at + 16 ≤ length text.now }
        ensures { IfSome result (λ b. Singles Self.form (Self.units text.now) at 16 b) };

    fn character_at(text: &[Self::Unit], at: usize) -> Option<Character>
        requires { at < length text.now }
        ensures { ShortAt Self.form (Self.units text.now) at result };
}

// The offsets of a block put into a buffer.
fn put_offsets(at: usize, cells: &mut [u32], from: usize)
    requires { (at + 16 ≤ 65536) × (from + 16 ≤ length cells.old) }
    ensures { cells.new ≡ with_units cells.old from (offsets_from at 16) }
{
    for j in 0..16 {
        cells[from + j] = (at + j) as u32;
    }
}

// A block of characters of one unit, where it is one.
fn block_at<F: Blocks>(
    text: &[F::Unit],
    at: usize,
    values: &mut [u32],
    starts: &mut [u32],
    items: usize,
) -> Read
    requires { Room F.form (F.units text.now) at items (length values.old) (length starts.old) }
    ensures { ReadOn F.form (F.units text.now) at result.at values.old starts.old items result.items values.new starts.new }
{
    if text.len() - at < 16 {
        return Read { at, items };
    }
    let Some(block) = F::block_at(text, at) else {
        return Read { at, items };
    };
    // `copy_from_slice` is no plainer: the block would have to lie in memory for it.
    for k in 0..16 {
        values[items + k] = block[k];
    }
    put_offsets(at, starts, items);
    Read {
        at: at + 16,
        items: items + 16,
    }
}

// Some characters, one after the other.
fn some_at<F: Blocks>(
    text: &[F::Unit],
    at: usize,
    values: &mut [u32],
    starts: &mut [u32],
    items: usize,
) -> Read
    requires { Room F.form (F.units text.now) at items (length values.old) (length starts.old) }
    ensures { ReadOn F.form (F.units text.now) at result.at values.old starts.old items result.items values.new starts.new }
{
    let stop = at + (text.len() - at).min(F::REACH);
    let mut to = at;
    let mut cell = items;
    // No `for`: a turn steps by a character, and only finds out how many units that is.
    while to < stop {
        let Some(next) = F::character_at(text, to) else {
            break;
        };
        values[cell] = next.value;
        starts[cell] = to as u32;
        cell += 1;
        to += next.length;
    }
    Read {
        at: to,
        items: cell,
    }
}

pub fn read_on<F: Blocks>(
    text: &[F::Unit],
    at: usize,
    values: &mut [u32],
    starts: &mut [u32],
    items: usize,
) -> Read
    requires { Room F.form (F.units text.now) at items (length values.old) (length starts.old) }
    ensures { ReadOn F.form (F.units text.now) at result.at values.old starts.old items result.items values.new starts.new }
{
    let block = block_at::<F>(text, at, values, starts, items);
    if block.at != at {
        return block;
    }
    some_at::<F>(text, at, values, starts, items)
}
