// The plain tokens, the contexts and the levels of their grammar, as numbers. The grammar and the theorems on it stand in specs/ and proofs/.
#![tactic(auto)]

pub mod codes; // codes.rt: the codes of the tokens by name
pub mod context; // context.rt: the contexts that plain trees are written and read in, by name
pub mod level; // level.rt: how strongly the forms bind, by name
