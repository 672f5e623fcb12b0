// Characters of a text, many in one step of lossy decoding: `LossyRuns`, which `fss_utf`, `utf_ebcdic`, `utf16` and `ucs4` implement, and
// here what they share. `read_on` puts the values and starts of the characters from an offset on into the two lent buffers, and stops
// where there may be a mark, which is left to the item reader. `specs/ReadOn` says what is asked and promised.
// Text, offset, both buffers and the cell go through as five parameters: in a struct, which would hold the buffers by `&mut`, each clause
// would name its fields, and say no less.
#![tactic(auto)]

mod blocks;
mod fss_utf;
mod ucs4;
mod utf16;
mod utf_ebcdic;

ghost use Rattle.std.specs.Prelude.{length};
ghost use Rattle.lossy_runs.specs.ReadOn.{Room, ReadOn};

use items::SourceForm;

// How far a step came: the offset and the cell behind the characters that it read. Where it read none these are as they were, a place like
// another, so that this is no Option.
#[derive(Clone, Copy, PartialEq, Eq, Debug)]
pub struct Read {
    pub at: usize,
    pub items: usize,
}

// A form whose characters are read many at once: three by `blocks::read_on`, UTF-EBCDIC in its own way, so that there is no impl for all.
pub trait LossyRuns: SourceForm {
    // Characters from an offset on, none where there may be a mark.
    fn read_on(
        text: &[Self::Unit],
        at: usize,
        values: &mut [u32],
        starts: &mut [u32],
        items: usize,
    ) -> Read
        requires { Room Self.form (Self.units text.now) at items (length values.old) (length starts.old) }
        ensures { ReadOn Self.form (Self.units text.now) at result.at values.old starts.old items result.items values.new starts.new };
}
