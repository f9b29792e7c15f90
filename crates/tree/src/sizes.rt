// The sizes of document 01, by name: specs/Sizes.antt says where each stands.
// The numbers of a node: form, attributes, detail, first, second, symbol.
pub const NODE_CELLS: usize = 6;

// The highest symbol of a node that may have one.
pub const MOST_SYMBOL: u16 = 65_535;

// The numbers of a row: pair, precedence, previous operator, next operator, flags.
pub const ROW_CELLS: usize = 5;

// The numbers of a token: its code and its symbol.
pub const TOKEN_CELLS: usize = 2;

// The tokens that the writer asks room for, a node.
pub const TOKENS_PER_NODE: usize = 6;

// The most nodes of a table.
pub const MOST_NODES: u16 = 4096;

// The most tokens of a list.
pub const MOST_TOKENS: usize = 24_576;

// The most nodes on a path from the root, list links not counted.
pub const MOST_LEVELS: u16 = 128;

// The most bytes of a tree file.
pub const MOST_FILE_BYTES: usize = 65_536;

// The last code of a token.
pub const LAST_CODE: u16 = 46;

// What is read behind a token list's last code.
pub const LIST_END: u16 = 47;
