// FSS-UTF.
use crate::blocks::Blocks;
use crate::{LossyRuns, Read};
use characters::Character;
use types::FssUtf;

impl Blocks for FssUtf {
    const REACH: usize = 128;

    // Characters of one byte.
    fn block_at(text: &[u8], at: usize) -> Option<[u32; 16]> {
        if 0x80 <= text[at] {
            return None;
        }
        let mut block = [0u32; 16];
        let mut all: u32 = 0;
        for j in 0..16 {
            let unit = u32::from(text[at + j]);
            block[j] = unit;
            all |= unit;
        }
        if 0x80 <= all {
            return None;
        }
        Some(block)
    }

    fn character_at(text: &[u8], at: usize) -> Option<Character> {
        characters::fss_utf::short_at(text, at)
    }
}

impl LossyRuns for FssUtf {
    fn read_on(
        text: &[u8],
        at: usize,
        values: &mut [u32],
        starts: &mut [u32],
        items: usize,
    ) -> Read {
        crate::blocks::read_on::<FssUtf>(text, at, values, starts, items)
    }
}
