// The reading of a token list, as a node table.
#![tactic(auto)]

mod expressions; // expressions.rt: expressions and their lists
mod node; // node.rt: the reader's own table
mod numbering; // numbering.rt: its nodes numbered anew
mod piece; // piece.rt: what is handed on
mod token; // token.rt: what a token says
mod types; // types.rt: types and their lists

ghost use Rattle.std.specs.Prelude.{◌≡◌, ◌*◌, ◌/◌, ◌≤◌, length};
ghost use Rattle.tree.specs.Sizes.{node_cells, token_cells, most_tokens};
ghost use Rattle.token_grammar.specs.Codes.{are_tokens};
ghost use Rattle.token_reader.specs.Reading.{AnswersIn, Answers};
ghost use Rattle.token_reader.specs.Pieces.{stands_in, Readable, many, reply_of};

use expressions::expr;
use numbering::number;
use token::is_token;
use token_grammar::{context, level};
use tree::refusal::Refusal;
use tree::sizes;
use tree_numbering::Unfit;

// The cells of the most nodes, which a lent table must have.
const TABLE: usize = sizes::NODE_CELLS * (sizes::MOST_NODES as usize);

// The cells of the most tokens.
const TOKENS: usize = sizes::TOKEN_CELLS * sizes::MOST_TOKENS;

// The cells of the reader's own table, for tokens that are few, some, many, or as many as there may be.
const FEW: usize = 64;

const SOME: usize = 512;

const MANY: usize = 8_192;

const FEW_CELLS: usize = sizes::NODE_CELLS * FEW;

const SOME_CELLS: usize = sizes::NODE_CELLS * SOME;

const MANY_CELLS: usize = sizes::NODE_CELLS * MANY;

const MOST_CELLS: usize = sizes::NODE_CELLS * sizes::MOST_TOKENS;

// The cells of as many tokens.
const FEW_TOKENS: usize = sizes::TOKEN_CELLS * FEW;

const SOME_TOKENS: usize = sizes::TOKEN_CELLS * SOME;

const MANY_TOKENS: usize = sizes::TOKEN_CELLS * MANY;

// Whether cells are tokens', a code and a symbol each.
fn are_tokens(tokens: &[u16]) -> bool
    ensures { result ≡ are_tokens tokens.now }
{
    if sizes::TOKEN_CELLS * (tokens.len() / sizes::TOKEN_CELLS) < tokens.len() {
        return false;
    }
    for done in 0..tokens.len() / sizes::TOKEN_CELLS {
        let at = sizes::TOKEN_CELLS * done;
        if !is_token(tokens[at], tokens[at + 1]) {
            return false;
        }
    }
    true
}

// The reply to what numbering answers.
#[tactic(auto, unfolding(crate::specs::Pieces::reply_of))]
fn reply_of(renumbered: Result<u16, Unfit>) -> Result<u16, Refusal>
    ensures { result ≡ reply_of renumbered }
{
    Ok(renumbered?)
}

// The reading of tokens, in a condition or not, by way of a lent table of the reader's own.
fn read_by(
    tokens: &[u16],
    own: &mut [u16],
    nodes: u16,
    table: &mut [u16],
    condition: bool,
) -> Result<u16, Refusal>
    requires { Readable tokens.now table.old × (many tokens.now ≤ nodes) × (nodes ≤ most_tokens) × (node_cells * nodes ≤ length own.old) }
    ensures { AnswersIn (stands_in condition) tokens.now table.old result table.new }
{
    let whole = expr(tokens, own, 0, nodes, level::LOOSEST, condition);
    if whole.at != tokens.len() / sizes::TOKEN_CELLS {
        return Err(Refusal::NoReading);
    }
    reply_of(number(own, nodes, whole.free, table))
}

// The same with a table of so many cells: a node has a token of its own, so that one node for each token is enough.
// Never put into `read_in`, so that what is refused before it takes no stack for a table.
#[inline(never)]
fn read_within<const CELLS: usize>(
    tokens: &[u16],
    table: &mut [u16],
    condition: bool,
) -> Result<u16, Refusal>
    requires { Readable tokens.now table.old × (many tokens.now ≤ CELLS / node_cells) × (CELLS ≤ node_cells * most_tokens) }
    ensures { AnswersIn (stands_in condition) tokens.now table.old result table.new }
{
    let mut own = [0u16; CELLS];
    let nodes = (CELLS / sizes::NODE_CELLS) as u16;
    read_by(tokens, &mut own, nodes, table, condition)
}

// The reading of a token list, in a condition or not.
fn read_in(tokens: &[u16], table: &mut [u16], condition: bool) -> Result<u16, Refusal>
    ensures { AnswersIn (stands_in condition) tokens.now table.old result table.new }
{
    if table.len() < TABLE {
        return Err(Refusal::Short);
    }
    if tokens.len() > TOKENS {
        return Err(Refusal::Tokens);
    }
    if !are_tokens(tokens) {
        return Err(Refusal::Tokens);
    }
    if tokens.len() <= FEW_TOKENS {
        return read_within::<FEW_CELLS>(tokens, table, condition);
    }
    if tokens.len() <= SOME_TOKENS {
        return read_within::<SOME_CELLS>(tokens, table, condition);
    }
    if tokens.len() <= MANY_TOKENS {
        return read_within::<MANY_CELLS>(tokens, table, condition);
    }
    read_within::<MOST_CELLS>(tokens, table, condition)
}

// The reading of a token list into a lent table: how many nodes it has, or the first refusal that applies.
pub fn read(context: u16, tokens: &[u16], table: &mut [u16]) -> Result<u16, Refusal>
    ensures { Answers context tokens.now table.old result table.new }
{
    if context > context::CONDITION {
        return Err(Refusal::Context);
    }
    if context == context::NONE {
        return read_in(tokens, table, false);
    }
    if context == context::CONDITION {
        return read_in(tokens, table, true);
    }
    Err(Refusal::NotPlain)
}
