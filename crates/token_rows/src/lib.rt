// The rows of plain trees in context 0 have the pairs that the grammar's levels ask for. This stands in proofs/: the crate has no code.
#![tactic(auto)]
