// The codes of the tokens, in document 01's order, under the names that the definitions give them (specs/Tokens.antt).
// Numbers, no enum: a code lies in a cell, which may hold any number, and an enum would be made of it and turned back at each match.
pub const ADD: u16 = 0;

pub const SUB: u16 = 1;

pub const MUL: u16 = 2;

pub const DIV: u16 = 3;

pub const REM: u16 = 4;

pub const AND: u16 = 5;

pub const OR: u16 = 6;

pub const BIT_XOR: u16 = 7;

pub const BIT_AND: u16 = 8;

pub const BIT_OR: u16 = 9;

pub const SHL: u16 = 10;

pub const SHR: u16 = 11;

pub const EQ: u16 = 12;

pub const LT: u16 = 13;

pub const LE: u16 = 14;

pub const NE: u16 = 15;

pub const GE: u16 = 16;

pub const GT: u16 = 17;

pub const ADD_ASSIGN: u16 = 18;

pub const SUB_ASSIGN: u16 = 19;

pub const MUL_ASSIGN: u16 = 20;

pub const DIV_ASSIGN: u16 = 21;

pub const REM_ASSIGN: u16 = 22;

pub const BIT_XOR_ASSIGN: u16 = 23;

pub const BIT_AND_ASSIGN: u16 = 24;

pub const BIT_OR_ASSIGN: u16 = 25;

pub const SHL_ASSIGN: u16 = 26;

pub const SHR_ASSIGN: u16 = 27;

pub const ASSIGN: u16 = 28;

pub const BANG: u16 = 29;

pub const AND_MUT: u16 = 30;

pub const AS: u16 = 31;

pub const NAME: u16 = 32;

pub const LITERAL: u16 = 33;

pub const DOT: u16 = 34;

pub const LEFT_PAREN: u16 = 35;

pub const RIGHT_PAREN: u16 = 36;

pub const LEFT_BRACKET: u16 = 37;

pub const RIGHT_BRACKET: u16 = 38;

pub const COMMA: u16 = 39;

pub const QUESTION: u16 = 40;

pub const STAR_CONST: u16 = 41;

pub const STAR_MUT: u16 = 42;

pub const UNDERSCORE: u16 = 43;

pub const NUMBERED_MEMBER: u16 = 44;

pub const AWAIT: u16 = 45;

pub const STRUCT: u16 = 46;
