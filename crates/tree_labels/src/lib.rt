// What a node's label says by itself: its class, whether its numbers are allowed, and its level.
#![tactic(auto)]

pub mod form; // form.rt: classes, and the numbers that a node may hold
pub mod level; // level.rt: what a node adds to the levels of a tree
