// UTF-16.
use crate::blocks::Blocks;
use crate::{LossyRuns, Read};
use characters::Character;
use types::Utf16;

impl Blocks for Utf16 {
    const REACH: usize = 128;

    // Units that are no surrogates.
    fn block_at(text: &[u16], at: usize) -> Option<[u32; 16]> {
        let mut block = [0u32; 16];
        let mut found = false;
        for j in 0..16 {
            let unit = u32::from(text[at + j]);
            block[j] = unit;
            found |= items::is_surrogate(unit);
        }
        if found {
            return None;
        }
        Some(block)
    }

    fn character_at(text: &[u16], at: usize) -> Option<Character> {
        characters::utf16::short_at(text, at)
    }
}

impl LossyRuns for Utf16 {
    fn read_on(
        text: &[u16],
        at: usize,
        values: &mut [u32],
        starts: &mut [u32],
        items: usize,
    ) -> Read {
        crate::blocks::read_on::<Utf16>(text, at, values, starts, items)
    }
}
