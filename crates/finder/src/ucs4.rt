// UCS-4: every unit is an item.
use crate::start::FindsStart;
use types::Ucs4;

impl FindsStart for Ucs4 {
    fn distance_back(_text: &[u32], _offset: usize) -> usize {
        0
    }
}
