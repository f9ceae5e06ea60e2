// The crate is its specs: what every call answers and leaves.
#![tactic(auto)]
