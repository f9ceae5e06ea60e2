// The crate is its specs and proofs: what the contracts of the public calls come to, one outcome each, and wrong answers that they rule out.
#![tactic(auto)]
