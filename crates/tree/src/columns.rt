// Where a number stands among a node's six, as `table::cell` takes it.
pub const FORM: u16 = 0;

pub const ATTRIBUTES: u16 = 1;

pub const DETAIL: u16 = 2;

pub const FIRST: u16 = 3;

pub const SECOND: u16 = 4;

pub const SYMBOL: u16 = 5;
