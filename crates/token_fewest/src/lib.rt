// Of all parse trees of a plain tree, the one that is written has the fewest pairs. This stands in proofs/: the crate has no code of its own.
#![tactic(auto)]
