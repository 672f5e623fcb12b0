// Demand 3: what a struck stretch may cost a lossy decoding. `specs/Demand3` has it in the words of document 01, with the promise of a
// lossy decoding, `specs/ExactLossy` when it refuses, and `proofs/` shows once for every form that the rules keep it. It has no code of its
// own.

#![tactic(auto)]
