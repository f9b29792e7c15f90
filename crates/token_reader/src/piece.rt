// What the reader of tokens hands on: where it stands, and how many nodes of its own table are free.
ghost use Rattle.std.specs.Prelude.{◌≡◌, ◌+◌};
ghost use Rattle.token_reader.specs.Pieces.{many};

use tree::sizes;

// What is done next.
#[derive(Clone, Copy, Debug, PartialEq, Eq)]
pub enum Mode {
    // A type or an expression that starts here is read.
    Wanted,
    // What waits takes the type that was read, or the expression goes on or ends.
    Read,
    // What waits takes the list, with the sign that closes it.
    Listed,
    // Nothing is.
    Ended,
}

// A type, or a list with the sign that closes it. It is the node after the free ones.
#[derive(Clone, Copy)]
pub struct Piece {
    // The place of the first token behind it, or one past the end where there is none.
    pub at: usize,
    pub free: u16,
    // Whether its last token is a type name.
    pub named: bool,
}

// Where the reader of types stands.
#[derive(Clone, Copy)]
pub struct Typing {
    // A place, as a piece has it.
    pub at: usize,
    // How many wait.
    pub depth: usize,
    // What is done next.
    pub mode: Mode,
    pub free: u16,
    pub named: bool,
}

// An expression, likewise.
#[derive(Clone, Copy)]
pub struct Parsed {
    pub at: usize,
    pub free: u16,
    // The level of its kind.
    pub level: u16,
    // Whether its last token is a type name.
    pub named: bool,
    // Whether its last two tokens are a dot and a name.
    pub dotted: bool,
}

// Where the reader of expressions stands.
#[derive(Clone, Copy)]
pub struct Reading {
    // What was read of the expression, or where one starts.
    pub left: Parsed,
    // How many wait.
    pub depth: usize,
    // What is done next.
    pub mode: Mode,
    // The lowest level that the expression may have.
    pub least: u16,
    // Whether it stands in a condition outside every parenthesis, bracket and list.
    pub condition: bool,
}

// No expression stands there.
pub fn no_expr(tokens: &[u16]) -> Parsed
    ensures { result.at ≡ many tokens.now + 1 }
{
    Parsed {
        at: tokens.len() / sizes::TOKEN_CELLS + 1,
        free: 0,
        level: 0,
        named: false,
        dotted: false,
    }
}
