// Runs of FSS-UTF characters, which `measure_runs` has measured, written at once: `to_utf_ebcdic`, and `to_units` for UTF-16 and
// UCS-4. They read by `decoding` and `short_blocks`, without tests. A run is whole characters; what is not taken here is left to the
// item reader. The promise is `Wrote` in `Runs` of `laws`.
// Text, offset, buffer and cells written go through as four parameters: in a struct, which would hold the buffer by `&mut`, each clause
// would name its fields, and say no less.
#![tactic(auto)]

pub mod decoding;
pub mod short_blocks;
pub mod to_units;
pub mod to_utf_ebcdic;
pub mod wide_form;
