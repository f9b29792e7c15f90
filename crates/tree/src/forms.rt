// The numbers of the forms, in document 01's order, under the names that syn gives them.
pub const EXPR_ARRAY: u16 = 1;

pub const EXPR_ASSIGN: u16 = 2;

pub const EXPR_ASYNC: u16 = 3;

pub const EXPR_AWAIT: u16 = 4;

pub const EXPR_BINARY: u16 = 5;

pub const EXPR_BLOCK: u16 = 6;

pub const EXPR_BREAK: u16 = 7;

pub const EXPR_CALL: u16 = 8;

pub const EXPR_CAST: u16 = 9;

pub const EXPR_CLOSURE: u16 = 10;

pub const EXPR_CONST: u16 = 11;

pub const EXPR_CONTINUE: u16 = 12;

pub const EXPR_FIELD: u16 = 13;

pub const EXPR_FOR_LOOP: u16 = 14;

pub const EXPR_GROUP: u16 = 15;

pub const EXPR_IF: u16 = 16;

pub const EXPR_INDEX: u16 = 17;

pub const EXPR_INFER: u16 = 18;

pub const EXPR_LET: u16 = 19;

pub const EXPR_LIT: u16 = 20;

pub const EXPR_LOOP: u16 = 21;

pub const EXPR_MACRO: u16 = 22;

pub const EXPR_MATCH: u16 = 23;

pub const EXPR_METHOD_CALL: u16 = 24;

pub const EXPR_PAREN: u16 = 25;

pub const EXPR_PATH: u16 = 26;

pub const EXPR_RANGE: u16 = 27;

pub const EXPR_RAW_ADDR: u16 = 28;

pub const EXPR_REFERENCE: u16 = 29;

pub const EXPR_REPEAT: u16 = 30;

pub const EXPR_RETURN: u16 = 31;

pub const EXPR_STRUCT: u16 = 32;

pub const EXPR_TRY: u16 = 33;

pub const EXPR_TRY_BLOCK: u16 = 34;

pub const EXPR_TUPLE: u16 = 35;

pub const EXPR_UNARY: u16 = 36;

pub const EXPR_UNSAFE: u16 = 37;

pub const EXPR_VERBATIM: u16 = 38;

pub const EXPR_WHILE: u16 = 39;

pub const EXPR_YIELD: u16 = 40;

pub const TYPE_ARRAY: u16 = 41;

pub const TYPE_FN_PTR: u16 = 42;

pub const TYPE_GROUP: u16 = 43;

pub const TYPE_IMPL_TRAIT: u16 = 44;

pub const TYPE_INFER: u16 = 45;

pub const TYPE_MACRO: u16 = 46;

pub const TYPE_NEVER: u16 = 47;

pub const TYPE_PAREN: u16 = 48;

pub const TYPE_PATH: u16 = 49;

pub const TYPE_PTR: u16 = 50;

pub const TYPE_REFERENCE: u16 = 51;

pub const TYPE_SLICE: u16 = 52;

pub const TYPE_TRAIT_OBJECT: u16 = 53;

pub const TYPE_TUPLE: u16 = 54;

pub const TYPE_VERBATIM: u16 = 55;

pub const LINK: u16 = 56;
