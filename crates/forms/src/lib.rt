// The rules of document 01, as the definitions of `specs/`: `Fault` the fault numbers, `Answer` the numbers of each answer, `Form` how a
// text falls into items, `Layout`, `Exchange` and `Forms` the four forms, `Flags` the shadow flags, `Buffer` result buffers, `Conversion`
// strict conversion, `Lossy` lossy decoding, `Start` the start of an item. `proofs/` has the acceptance points and computed examples. There
// is no code here.

#![tactic(auto)]
