// As few pairs as can be, and their count: the statement stands in specs/Statement.antt, its proof in proofs/Fewest.antt. This crate has no code of its own.
#![tactic(auto)]
