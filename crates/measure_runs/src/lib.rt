// How many code units of the target many characters become, by the source's form: what makes the measure of a strict conversion fast.
// `fss_utf` (ASCII in `fss_utf_ascii`, the test of a block in `fss_utf_validation`, what its bytes add in `fss_utf_weights`), `utf_ebcdic`,
// `utf16` (the tests of a block in `utf16_blocks`), `ucs4`. A run is whole characters; what is not taken here is left to the item reader.
// The promise is `Counted` in `Runs` of `laws`. Each form is measured by a rule of its own, so that the four `count` are no twins; `measure`
// has them by the form's type. Text, offset and count go through as three parameters, since the promise is by places in the whole text.
// That a text has no more than 65,536 units is asked of each: the calls test it once.
#![tactic(auto)]

pub mod fss_utf;
pub mod fss_utf_ascii;
pub mod fss_utf_validation;
pub mod fss_utf_weights;
pub mod ucs4;
pub mod utf16;
pub mod utf16_blocks;
pub mod utf_ebcdic;
