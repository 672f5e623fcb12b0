// Runs of UTF-16 characters, which `measure_runs` has measured, written at once: `to_fss_utf`, `to_utf_ebcdic` and `to_ucs4`, by `decoding`,
// which reads without tests. A run is whole characters; what is not taken here is left to the item reader. The promise is `Wrote` in `Runs`
// of `laws`. Each target has branches of its own; what they share is in `decoding`. Text, offset, buffer and cells written go through as four
// parameters: in a struct, which would hold the buffer by `&mut`, each clause would name its fields, and say no less.
#![tactic(auto)]

pub mod decoding;
pub mod to_fss_utf;
pub mod to_ucs4;
pub mod to_utf_ebcdic;
