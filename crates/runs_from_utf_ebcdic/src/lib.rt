// Runs of UTF-EBCDIC characters, which `measure_runs` has measured, written at once by `to_units`, for FSS-UTF, UTF-16 and UCS-4. It reads
// by `decoding` without tests. Each run makes the exchange table once and looks up in it. A run is whole
// characters; what is not taken here is left to the item reader. The promise is `Wrote` in `Runs` of `laws`.
// Text, offset, buffer and cells written go through as four parameters: in a struct, which would hold the buffer by `&mut`, each clause
// would name its fields, and say no less.
#![tactic(auto)]

pub mod ascii_form;
pub mod decoding;
pub mod to_units;
