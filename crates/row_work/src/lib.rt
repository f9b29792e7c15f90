// How much work a walk is: its statement stands in specs/Work.antt, its proof in proofs/Bounds.antt. This crate has no code of its own.
#![tactic(auto)]
