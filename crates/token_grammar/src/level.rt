// The levels of the grammar's kinds, loosest first, under the names that the definitions give them (specs/Levels.antt).
// Numbers, no enum: what an operand must have is one more than a level, which is no level at 2 and 16, and it lies in cells and places.
pub const ASSIGNMENTS: u16 = 1;

pub const ORS: u16 = 3;

pub const ANDS: u16 = 4;

pub const COMPARISONS: u16 = 6;

pub const BIT_ORS: u16 = 7;

pub const BIT_XORS: u16 = 8;

pub const BIT_ANDS: u16 = 9;

pub const SHIFTS: u16 = 10;

pub const SUMS: u16 = 11;

pub const PRODUCTS: u16 = 12;

pub const CASTS: u16 = 13;

pub const PREFIXES: u16 = 14;

pub const POSTFIXES: u16 = 15;

// The lowest of them, which any expression has at least.
pub const LOOSEST: u16 = ASSIGNMENTS;
