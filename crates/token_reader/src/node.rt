// The reader's own table, whose nodes are taken from the last to the first.
ghost use Rattle.std.specs.Prelude.{◌≡◌, ◌+◌, ◌*◌, ◌≤◌, length};
ghost use Rattle.tree.specs.Sizes.{node_cells};
ghost use Rattle.token_grammar.specs.Codes.{token_symbol_at};
ghost use Rattle.token_reader.specs.Pieces.{Stored};
ghost use Rattle.token_reader.specs.Kinds.{number_of, Decodes};
ghost use Rattle.token_reader.specs.Waiting.{Laid};

use crate::token::symbol_at;
use tree::{offsets, sizes};

// What waits for a type, or for an expression: its number lies in the first cell.
#[derive(Clone, Copy, Debug, PartialEq, Eq)]
pub enum Waits {
    // A Ptr or a Reference, with its form and detail.
    Pointer = 0,
    // A path for its list, with its symbol.
    Path = 1,
    // An item for those behind it, with its number.
    Item = 2,
    // A Unary or a Reference, with its form and detail.
    Prefix = 3,
    // A parenthesis.
    Group = 4,
    // A Binary or an Assign, with its first operand and its code.
    Binary = 5,
    // An Index, with its first operand.
    Index = 6,
    // A Call or a MethodCall, with its first operand and its symbol.
    Call = 7,
    Method = 8,
    // An argument for those behind it, with its number.
    Argument = 9,
}

impl Waits {
    pub fn number(self) -> u16
        ensures { result ≡ number_of self }
    {
        self as u16
    }
}

impl TryFrom<u16> for Waits {
    type Error = u16;

    ghost try_from_gives = { Decodes };

    fn try_from(number: u16) -> Result<Self, u16> {
        match number {
            0 => Ok(Waits::Pointer),
            1 => Ok(Waits::Path),
            2 => Ok(Waits::Item),
            3 => Ok(Waits::Prefix),
            4 => Ok(Waits::Group),
            5 => Ok(Waits::Binary),
            6 => Ok(Waits::Index),
            7 => Ok(Waits::Call),
            8 => Ok(Waits::Method),
            9 => Ok(Waits::Argument),
            _ => Err(number),
        }
    }
}

// The cells of what waits, behind the one that says what it is: two numbers of its own, the lowest level of its expression,
// and whether that stands in a condition.
pub(crate) const ONE: usize = 1;

pub(crate) const TWO: usize = 2;

pub(crate) const LEAST: usize = 3;

pub(crate) const PLACE: usize = 4;

// What waits behind `depth` others, in the first cells of a free node.
pub(crate) fn lay(
    own: &mut [u16],
    depth: usize,
    what: Waits,
    one: u16,
    two: u16,
    least: u16,
    place: u16,
)
    requires { node_cells * depth + node_cells ≤ length own.old }
    ensures { Laid own.old own.new depth (number_of what) one two least place }
{
    let at = sizes::NODE_CELLS * depth;
    own[at] = what.number();
    own[at + ONE] = one;
    own[at + TWO] = two;
    own[at + LEAST] = least;
    own[at + PLACE] = place;
}

// Takes the last free node, and says how many are then left. No node has attributes.
pub(crate) fn store(
    own: &mut [u16],
    free: u16,
    form: u16,
    detail: u16,
    first: u16,
    second: u16,
    symbol: u16,
) -> u16
    requires { (1 ≤ free) × (node_cells * free ≤ length own.old) }
    ensures { Stored own.old own.new free result form detail first second symbol }
{
    let left = free - 1;
    let at = sizes::NODE_CELLS * (left as usize);
    own[at] = form;
    own[at + offsets::ATTRIBUTES] = 0;
    own[at + offsets::DETAIL] = detail;
    own[at + offsets::FIRST] = first;
    own[at + offsets::SECOND] = second;
    own[at + offsets::SYMBOL] = symbol;
    left
}

// The same with the symbol of the token at `name`.
pub(crate) fn store_named(
    tokens: &[u16],
    name: usize,
    own: &mut [u16],
    free: u16,
    form: u16,
    detail: u16,
    first: u16,
    second: u16,
) -> u16
    requires { (1 ≤ free) × (node_cells * free ≤ length own.old) }
    ensures { Stored own.old own.new free result form detail first second (token_symbol_at tokens.now name) }
{
    let symbol = symbol_at(tokens, name);
    store(own, free, form, detail, first, second, symbol)
}
