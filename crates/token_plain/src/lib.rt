// Plain trees, the tokens written for them, and what their readings are as trees stand in specs/: this crate has no code of its own.
#![tactic(auto)]
