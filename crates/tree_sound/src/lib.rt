// Trees that keep the rules of a node, and the tables that they are: what is proved of them stands in proofs/. This crate has no code of its own.
#![tactic(auto)]
