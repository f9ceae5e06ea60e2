// The crate is its specs and proofs: the demands, stated of the public calls' contracts.
#![tactic(auto)]
