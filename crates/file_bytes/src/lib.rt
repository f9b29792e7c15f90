// The bytes of the numbers of a file: their definition stands in specs/Bytes.antt, what is proved of it in proofs/. This crate has no code of its own.
#![tactic(auto)]
