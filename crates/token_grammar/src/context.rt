// The contexts that the grammar of plain tokens has, by the names of the definitions (specs/Grammar.antt).
// Numbers, no enum: a lent context may be any number, and 1 and 2 are refused by another reply than what is above 3.
pub const NONE: u16 = 0;

pub const CONDITION: u16 = 3;
