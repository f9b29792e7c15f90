// Types and their lists, turn by turn. What waits for a type lies in the reader's own table, in the first of its nodes that
// are free: there are more of them than types that wait, since each of these has read a token of its own.
ghost use Rattle.std.specs.Prelude.{◌≡◌, ◌+◌, ◌*◌, ◌-◌, ◌≤◌, ◌<◌, length};
ghost use Rattle.tree.specs.Sizes.{node_cells};
ghost use Rattle.token_grammar.specs.Tokens.{name_token, code};
ghost use Rattle.token_grammar.specs.Codes.{code_at};
ghost use Rattle.token_reader.specs.Pieces.{many, Ready, TypeAt, SignAt};
ghost use Rattle.token_reader.specs.Waiting.{what_at, Stays, Laid, piece_of, Able, Turnable, waits_for, Wanted, Took, Taken, Listed, Turned};
ghost use Rattle.token_reader.specs.Kinds.{READ, ENDED, mode_number, POINTER, number_of};
ghost use Rattle.token_reader.specs.declared.piece.Mode.TheVariants as mode;

use crate::node::{ONE, TWO, Waits, lay, store, store_named};
use crate::piece::{Mode, Piece, Typing};
use crate::token::{code_at, past_comma, symbol_at};
use token_grammar::codes;
use tree::{forms, sizes};

// A type was read up to `at`.
fn came(s: Typing, at: usize, free: u16, named: bool) -> Typing
    ensures { result ≡ record { at = at; depth = s.depth; mode = mode.Read; free = free; named = named } }
{
    Typing {
        at,
        mode: Mode::Read,
        free,
        named,
        ..s
    }
}

// No type stands there.
fn failed(tokens: &[u16]) -> Typing
    ensures { (result.at ≡ many tokens.now + 1) × (result.depth ≡ 0) × (mode_number result.mode ≡ ENDED) }
{
    Typing {
        at: tokens.len() / sizes::TOKEN_CELLS + 1,
        depth: 0,
        mode: Mode::Ended,
        free: 0,
        named: false,
    }
}

// A type that starts at `at` is wanted by what waits from now on.
fn wait(own: &mut [u16], s: Typing, what: Waits, one: u16, two: u16, at: usize) -> Typing
    requires { node_cells * s.depth + node_cells ≤ length own.old }
    ensures { Laid own.old own.new s.depth (number_of what) one two 0 0 × (result ≡ waits_for s at) }
{
    lay(own, s.depth, what, one, two, 0, 0);
    Typing {
        at,
        depth: s.depth + 1,
        mode: Mode::Wanted,
        named: false,
        ..s
    }
}

// A type of one token: Infer or Never.
fn sign(tokens: &[u16], own: &mut [u16], s: Typing, form: u16) -> Typing
    requires { Able tokens.now own.old s × (s.at < many tokens.now) }
    ensures { SignAt tokens.now own.old own.new s.at s.free form (piece_of result) × Stays own.old own.new s.depth × (result.at ≡ s.at + 1) × (result.depth ≡ s.depth) × (mode_number result.mode ≡ READ) }
{
    let free = store(own, s.free, form, 0, 0, 0, 0);
    came(s, s.at + 1, free, false)
}

// A path, whose name stands here.
fn path(tokens: &[u16], own: &mut [u16], s: Typing) -> Typing
    requires { Able tokens.now own.old s × (code_at tokens.now s.at ≡ code (name_token 0)) }
    ensures { Wanted tokens.now own.old own.new s result }
{
    if code_at(tokens, s.at + 1) != codes::LT {
        let free = store_named(tokens, s.at, own, s.free, forms::TYPE_PATH, 1, 0, 0);
        return came(s, s.at + 1, free, true);
    }
    if code_at(tokens, s.at + 2) == codes::GT {
        let free = store_named(tokens, s.at, own, s.free, forms::TYPE_PATH, 2, 0, 0);
        return came(s, s.at + 3, free, false);
    }
    let symbol = symbol_at(tokens, s.at);
    wait(own, s, Waits::Path, symbol, 0, s.at + 2)
}

// The type that starts here, or one that waits for what is behind its first tokens.
fn want(tokens: &[u16], own: &mut [u16], s: Typing) -> Typing
    requires { Able tokens.now own.old s }
    ensures { Wanted tokens.now own.old own.new s result }
{
    let next = s.at + 1;
    match code_at(tokens, s.at) {
        codes::BIT_AND => wait(own, s, Waits::Pointer, forms::TYPE_REFERENCE, 0, next),
        codes::BANG => sign(tokens, own, s, forms::TYPE_NEVER),
        codes::AND_MUT => wait(own, s, Waits::Pointer, forms::TYPE_REFERENCE, 1, next),
        codes::NAME => path(tokens, own, s),
        codes::STAR_CONST => wait(own, s, Waits::Pointer, forms::TYPE_PTR, 0, next),
        codes::STAR_MUT => wait(own, s, Waits::Pointer, forms::TYPE_PTR, 1, next),
        codes::UNDERSCORE => sign(tokens, own, s, forms::TYPE_INFER),
        _ => failed(tokens),
    }
}

// One that waited is done: it is the node that was stored.
fn pop(s: Typing, mode: Mode, free: u16, named: bool) -> Typing
    requires { 1 ≤ s.depth }
    ensures { result ≡ record { at = s.at; depth = s.depth - 1; mode = mode; free = free; named = named } }
{
    Typing {
        depth: s.depth - 1,
        mode,
        free,
        named,
        ..s
    }
}

// Behind an item of a list: the sign that closes it, or another item.
fn after_item(tokens: &[u16], own: &mut [u16], s: Typing) -> Typing
    requires { Able tokens.now own.old s × (1 ≤ s.depth) × (what_at own.old (s.depth - 1) ≡ POINTER → ⊥) }
    ensures { Took tokens.now own.old own.new s result }
{
    let end = past_comma(tokens, s.at, codes::GT);
    let sign = code_at(tokens, end);
    if sign == codes::GT {
        return Typing {
            at: end + 1,
            depth: s.depth,
            mode: Mode::Listed,
            free: store(own, s.free, forms::LINK, 0, s.free + 1, 0, 0),
            named: false,
        };
    }
    if sign == codes::COMMA {
        return wait(own, s, Waits::Item, s.free + 1, 0, s.at + 1);
    }
    failed(tokens)
}

// The type that was read is taken by what waits for it.
fn take(tokens: &[u16], own: &mut [u16], base: usize, s: Typing) -> Typing
    requires { Turnable tokens.now own.old base s }
    ensures { Taken tokens.now own.old own.new base s result }
{
    if s.depth == base {
        return Typing {
            mode: Mode::Ended,
            ..s
        };
    }
    let top = sizes::NODE_CELLS * (s.depth - 1);
    if own[top] != Waits::Pointer.number() {
        return after_item(tokens, own, s);
    }
    let form = own[top + ONE];
    let detail = own[top + TWO];
    let free = store(own, s.free, form, detail, s.free + 1, 0, 0);
    pop(s, Mode::Read, free, s.named)
}

// The list that was read is taken by the item before it, or by the path.
fn close(tokens: &[u16], own: &mut [u16], s: Typing) -> Typing
    requires { Able tokens.now own.old s × (1 ≤ s.depth) }
    ensures { Listed tokens.now own.old own.new s result }
{
    let top = sizes::NODE_CELLS * (s.depth - 1);
    let one = own[top + ONE];
    if own[top] == Waits::Item.number() {
        let free = store(own, s.free, forms::LINK, 0, one, s.free + 1, 0);
        return pop(s, Mode::Listed, free, false);
    }
    let free = store(own, s.free, forms::TYPE_PATH, 2, 0, s.free + 1, one);
    pop(s, Mode::Read, free, false)
}

fn turn(tokens: &[u16], own: &mut [u16], base: usize, s: Typing) -> Typing
    requires { Turnable tokens.now own.old base s }
    ensures { Turned tokens.now own.old own.new base s result }
{
    match s.mode {
        Mode::Wanted => want(tokens, own, s),
        Mode::Read => take(tokens, own, base, s),
        Mode::Listed | Mode::Ended => close(tokens, own, s),
    }
}

// The type that starts at `at`; `base` others wait already.
pub(crate) fn ty(tokens: &[u16], own: &mut [u16], base: usize, at: usize, free: u16) -> Piece
    requires { Ready tokens.now own.old at free × (base + many tokens.now ≤ at + free) }
    ensures { TypeAt tokens.now own.old own.new at free result × Stays own.old own.new base }
{
    let mut s = Typing {
        at,
        depth: base,
        mode: Mode::Wanted,
        free,
        named: false,
    };
    while s.mode != Mode::Ended {
        s = turn(tokens, own, base, s);
    }
    Piece {
        at: s.at,
        free: s.free,
        named: s.named,
    }
}
