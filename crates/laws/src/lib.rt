// What follows from the rules for every form: in `specs/` what a caller has besides the contracts, in `proofs/` the laws of the definitions of
// `forms`. It has no code of its own.

#![tactic(auto)]
