// The laws that the proofs of several crates share stand in specs/ and proofs/: this crate has no code of its own.

#![tactic(auto)]
