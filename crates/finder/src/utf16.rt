// UTF-16: the start by the asked unit and the one before it.
use crate::start::FindsStart;
use types::Utf16;

impl FindsStart for Utf16 {
    // One unit where a low unit stands behind a high one.
    fn distance_back(text: &[u16], offset: usize) -> usize {
        let unit = text[offset];
        if unit < 0xDC00 {
            return 0;
        }
        if 0xE000 <= unit {
            return 0;
        }
        if offset == 0 {
            return 0;
        }
        let previous = text[offset - 1];
        if previous < 0xD800 {
            return 0;
        }
        if 0xDC00 <= previous {
            return 0;
        }
        1
    }
}
