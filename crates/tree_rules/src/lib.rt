// The rules of node tables: the refusals of a table.
#![tactic(auto)]

pub mod refusal; // refusal.rt: the refusals 3, 4 and 6 to 11

use tree::sizes;

// How many cells the arrays have: for fewer than 64 nodes they are quickly made, the others are for up to 4,096.
const FEW: usize = 64;

const MANY: usize = sizes::MOST_NODES as usize + 1;
