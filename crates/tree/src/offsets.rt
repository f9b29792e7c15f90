// The same places as distances from a node's first cell.
pub const FORM: usize = 0;

pub const ATTRIBUTES: usize = 1;

pub const DETAIL: usize = 2;

pub const FIRST: usize = 3;

pub const SECOND: usize = 4;

pub const SYMBOL: usize = 5;
