// UCS-4.
ghost use Rattle.std.specs.Prelude.{◌≡◌, false, ◌<◌};
ghost use Rattle.lossy_runs.specs.Ucs4Units.{Carried, AllCarried};

use crate::blocks::Blocks;
use crate::{LossyRuns, Read};
use characters::Character;
use types::Ucs4;

// Whether a unit is no character: most lie below the surrogates.
fn is_mark(unit: u32) -> bool
    ensures { result ≡ false → Carried unit }
{
    if unit < 0xD800 {
        return false;
    }
    items::is_surrogate(unit) | (unit >= 0x80000000)
}

// The same of a block, whose units joined by OR are given: without a branch, so that it is compiled to vector code.
fn has_mark(block: &[u32; 16], all: u32) -> bool
    requires { all < 0xD800 → AllCarried block.now 16 }
    ensures { result ≡ false → AllCarried block.now 16 }
{
    if all < 0xD800 {
        return false;
    }
    let mut bad = false;
    for unit in block {
        bad |= items::is_surrogate(*unit) | (*unit >= 0x80000000);
    }
    bad
}

impl Blocks for Ucs4 {
    // No more than a block: behind a mark the next may be one.
    const REACH: usize = 16;

    fn block_at(text: &[u32], at: usize) -> Option<[u32; 16]> {
        let mut block = [0u32; 16];
        let mut all: u32 = 0;
        for j in 0..16 {
            let unit = text[at + j];
            block[j] = unit;
            all |= unit;
        }
        if has_mark(&block, all) {
            return None;
        }
        Some(block)
    }

    fn character_at(text: &[u32], at: usize) -> Option<Character> {
        let value = text[at];
        if is_mark(value) {
            return None;
        }
        Some(Character { value, length: 1 })
    }
}

impl LossyRuns for Ucs4 {
    fn read_on(
        text: &[u32],
        at: usize,
        values: &mut [u32],
        starts: &mut [u32],
        items: usize,
    ) -> Read {
        crate::blocks::read_on::<Ucs4>(text, at, values, starts, items)
    }
}
