// Runs of UCS-4, which `measure_runs` has measured, written at once: `to_blocks` and `to_utf_ebcdic`. A run is whole characters; what is not
// taken here is left to the item reader. The promise is `Wrote` in `Runs` of `laws`. Text, offset, buffer and cells written go through as four
// parameters: in a struct, which would hold the buffer by `&mut`, each clause would name its fields, and say no less.
#![tactic(auto)]

pub mod to_blocks;
pub mod to_utf_ebcdic;
