// prettyplease's fixup.rs: the context of an expression, and what it says of parentheses.
#![tactic(auto)]

pub mod context; // context.rt: FixupContext, and how it is handed down
pub mod group; // group.rt: parenthesize, precedence and scan_left
