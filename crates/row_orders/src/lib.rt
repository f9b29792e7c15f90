// Where the rows of the two callee orders differ: the statement stands in specs/Statement.antt, its proof in proofs/Orders.antt. This crate has no code of its own.
#![tactic(auto)]
