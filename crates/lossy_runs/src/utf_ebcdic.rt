// UTF-EBCDIC, which is read item by item.
use crate::{LossyRuns, Read};
use types::UtfEbcdic;

impl LossyRuns for UtfEbcdic {
    fn read_on(
        _text: &[u8],
        at: usize,
        _values: &mut [u32],
        _starts: &mut [u32],
        items: usize,
    ) -> Read {
        Read { at, items }
    }
}
