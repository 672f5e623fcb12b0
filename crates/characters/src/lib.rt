// A character read from a text, by its form: `fss_utf`, `utf_ebcdic`, `utf16`. The readers give no faults: where they find no such
// character, the reader of items looks. `specs/Short` has the promise.
#![tactic(auto)]

mod bytes;
pub mod fss_utf;
pub mod utf16;
pub mod utf_ebcdic;

// A character's value and its number of code units.
#[derive(Clone, Copy, PartialEq, Eq, Debug)]
pub struct Character {
    pub value: u32,
    pub length: usize,
}
