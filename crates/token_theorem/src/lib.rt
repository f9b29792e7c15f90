// Demand 3: its statement stands in specs/Statement.antt, its proof in proofs/Promise.antt. This crate has no code of its own.
#![tactic(auto)]
