// The tokens of an open sheet after any run of edits: the statement stands in specs/Statement.antt, its proof in proofs/Written.antt. This crate has no code of its own.
#![tactic(auto)]
