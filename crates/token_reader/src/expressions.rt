// Expressions and their lists, turn by turn. What waits for an expression lies in the first free nodes of the reader's own
// table, as types have it.
ghost use Rattle.std.specs.Prelude.{◌≡◌, ◌+◌, ◌*◌, ◌-◌, ◌≤◌, ◌<◌, eqb, length};
ghost use Rattle.tree.specs.Sizes.{node_cells, most_tokens};
ghost use Rattle.token_grammar.specs.Tokens.{as_token, name_token, dot, struct_token, code};
ghost use Rattle.token_grammar.specs.Codes.{code_at};
ghost use Rattle.token_grammar.specs.Levels.{prefixes, level};
ghost use Rattle.token_reader.specs.Pieces.{many, stands_in, Ready, Postfix, AtomAt, ExprAt, CastAt, MemberAt, TryAt};
ghost use Rattle.token_reader.specs.Kinds.{PREFIX, number_of};
ghost use Rattle.token_reader.specs.declared.piece.Mode.TheVariants as mode;
ghost use Rattle.token_reader.specs.Waiting.{Stays};
ghost use Rattle.token_reader.specs.Turns.{IsCall, call_form, Able, Turnable, begins, waits_with, came_to, Lost, Waiting, Wanted, Calling, Stepped, top_at, IsItem, Took, Gone, Listed, Turned};

use crate::node::{LEAST, ONE, PLACE, TWO, Waits, lay, store, store_named};
use crate::piece::{Mode, Parsed, Reading, no_expr};
use crate::token::{code_at, lowest_after, operator_detail, operator_form, past_comma, symbol_at};
use crate::types::ty;
use token_follow::{goes_on, level_of};
use token_grammar::{codes, level};
use tree::{forms, sizes};

// What binds as strongly as the postfix forms, and ends in no name that matters.
fn strongest(at: usize, free: u16) -> Parsed
    ensures { Postfix at free result }
{
    Parsed {
        at,
        free,
        level: level::POSTFIXES,
        named: false,
        dotted: false,
    }
}

// A Path, a Lit or a Struct.
fn atom(tokens: &[u16], own: &mut [u16], at: usize, free: u16, form: u16) -> Parsed
    requires { Ready tokens.now own.old at free × (at < many tokens.now) }
    ensures { AtomAt tokens.now own.old own.new at free form result }
{
    strongest(at + 1, store_named(tokens, at, own, free, form, 0, 0, 0))
}

// A Cast.
fn cast(tokens: &[u16], own: &mut [u16], base: usize, left: Parsed) -> Parsed
    requires { Ready tokens.now own.old left.at left.free × (left.at < many tokens.now) × (base + many tokens.now ≤ left.at + left.free) }
    ensures { CastAt tokens.now own.old own.new left result × (result.at ≤ many tokens.now → Stays own.old own.new base) }
{
    let target = ty(tokens, own, base, left.at + 1, left.free);
    if target.at > tokens.len() / sizes::TOKEN_CELLS {
        return no_expr(tokens);
    }
    Parsed {
        at: target.at,
        free: store(
            own,
            target.free,
            forms::EXPR_CAST,
            0,
            left.free + 1,
            target.free + 1,
            0,
        ),
        level: level::CASTS,
        named: target.named,
        dotted: false,
    }
}

// A Field or an Await.
fn member(
    tokens: &[u16],
    own: &mut [u16],
    left: Parsed,
    form: u16,
    detail: u16,
    dotted: bool,
) -> Parsed
    requires { Ready tokens.now own.old left.at left.free × (left.at + 1 < many tokens.now) }
    ensures { MemberAt tokens.now own.old own.new left form detail dotted result }
{
    Parsed {
        at: left.at + 2,
        free: store_named(
            tokens,
            left.at + 1,
            own,
            left.free,
            form,
            detail,
            left.free + 1,
            0,
        ),
        level: level::POSTFIXES,
        named: false,
        dotted,
    }
}

// A Try.
fn attempt(tokens: &[u16], own: &mut [u16], left: Parsed) -> Parsed
    requires { Ready tokens.now own.old left.at left.free × (left.at < many tokens.now) }
    ensures { TryAt tokens.now own.old own.new left result }
{
    strongest(
        left.at + 1,
        store(own, left.free, forms::EXPR_TRY, 0, left.free + 1, 0, 0),
    )
}

// The expression was read up to there.
fn came(s: Reading, left: Parsed) -> Reading
    ensures { result ≡ came_to s left }
{
    Reading {
        left,
        mode: Mode::Read,
        ..s
    }
}

// No expression stands there.
fn failed(tokens: &[u16]) -> Reading
    ensures { Lost tokens.now result }
{
    Reading {
        left: no_expr(tokens),
        depth: 0,
        mode: Mode::Ended,
        least: 0,
        condition: false,
    }
}

// Where an expression starts.
fn start(at: usize, free: u16) -> Parsed
    ensures { result ≡ begins at free }
{
    Parsed {
        at,
        free,
        level: 0,
        named: false,
        dotted: false,
    }
}

// An expression that starts at `at` is wanted by what waits from now on.
fn wait(
    own: &mut [u16],
    s: Reading,
    what: Waits,
    one: u16,
    two: u16,
    at: usize,
    least: u16,
    condition: bool,
) -> Reading
    requires { node_cells * s.depth + node_cells ≤ length own.old }
    ensures { Waiting own.old own.new s (number_of what) one two × (result ≡ waits_with s at least condition) }
{
    let left = s.left;
    lay(
        own,
        s.depth,
        what,
        one,
        two,
        s.least,
        u16::from(s.condition),
    );
    Reading {
        left: start(at, left.free),
        depth: s.depth + 1,
        mode: Mode::Wanted,
        least,
        condition,
    }
}

// A Struct, which has no reading in a condition.
fn structure(tokens: &[u16], own: &mut [u16], s: Reading) -> Reading
    requires { Able tokens.now own.old s × (code_at tokens.now s.left.at ≡ code struct_token) }
    ensures { Wanted tokens.now own.old own.new s result }
{
    let left = s.left;
    if s.condition {
        return failed(tokens);
    }
    came(s, atom(tokens, own, left.at, left.free, forms::EXPR_STRUCT))
}

// A Unary or a Reference, which waits for its operand.
fn prefix(own: &mut [u16], s: Reading, form: u16, detail: u16) -> Reading
    requires { (node_cells * s.depth + node_cells ≤ length own.old) × (s.left.at < most_tokens) }
    ensures { Waiting own.old own.new s PREFIX form detail × (result ≡ waits_with s (s.left.at + 1) (level prefixes) s.condition) }
{
    let left = s.left;
    wait(
        own,
        s,
        Waits::Prefix,
        form,
        detail,
        left.at + 1,
        level::PREFIXES,
        s.condition,
    )
}

// What an expression begins with.
fn begin(tokens: &[u16], own: &mut [u16], s: Reading) -> Reading
    requires { Able tokens.now own.old s }
    ensures { Wanted tokens.now own.old own.new s result }
{
    let left = s.left;
    match code_at(tokens, left.at) {
        codes::SUB => prefix(own, s, forms::EXPR_UNARY, 2),
        codes::MUL => prefix(own, s, forms::EXPR_UNARY, 0),
        codes::BIT_AND => prefix(own, s, forms::EXPR_REFERENCE, 0),
        codes::BANG => prefix(own, s, forms::EXPR_UNARY, 1),
        codes::AND_MUT => prefix(own, s, forms::EXPR_REFERENCE, 1),
        codes::NAME => came(s, atom(tokens, own, left.at, left.free, forms::EXPR_PATH)),
        codes::LITERAL => came(s, atom(tokens, own, left.at, left.free, forms::EXPR_LIT)),
        codes::LEFT_PAREN => {
            let next = left.at + 1;
            wait(own, s, Waits::Group, 0, 0, next, level::LOOSEST, false)
        }
        codes::STRUCT => structure(tokens, own, s),
        _ => failed(tokens),
    }
}

// A Call or a MethodCall by the parenthesis at `at`.
fn call(
    tokens: &[u16],
    own: &mut [u16],
    s: Reading,
    at: usize,
    what: Waits,
    form: u16,
    symbol: u16,
) -> Reading
    requires { Able tokens.now own.old s × IsCall (number_of what) × (form ≡ call_form (number_of what)) × Calling tokens.now (stands_in s.condition) s.left at form symbol }
    ensures { Stepped tokens.now own.old own.new s result }
{
    let left = s.left;
    if code_at(tokens, at + 1) == codes::RIGHT_PAREN {
        let free = store(own, left.free, form, 0, left.free + 1, 0, symbol);
        return came(s, strongest(at + 2, free));
    }
    let one = left.free + 1;
    wait(own, s, what, one, symbol, at + 1, level::LOOSEST, false)
}

// Behind a dot and a name: "Dot, name, `(` is always a method call."
fn named(tokens: &[u16], own: &mut [u16], s: Reading) -> Reading
    requires { Able tokens.now own.old s × (code_at tokens.now s.left.at ≡ code dot) × (code_at tokens.now (s.left.at + 1) ≡ code (name_token 0)) }
    ensures { Stepped tokens.now own.old own.new s result }
{
    let left = s.left;
    if code_at(tokens, left.at + 2) != codes::LEFT_PAREN {
        return came(s, member(tokens, own, left, forms::EXPR_FIELD, 0, true));
    }
    let symbol = symbol_at(tokens, left.at + 1);
    call(
        tokens,
        own,
        s,
        left.at + 2,
        Waits::Method,
        forms::EXPR_METHOD_CALL,
        symbol,
    )
}

// What stands behind a dot: a MethodCall, a Field or an Await.
fn dot(tokens: &[u16], own: &mut [u16], s: Reading) -> Reading
    requires { Able tokens.now own.old s × (code_at tokens.now s.left.at ≡ code dot) }
    ensures { Stepped tokens.now own.old own.new s result }
{
    let left = s.left;
    match code_at(tokens, left.at + 1) {
        codes::NAME => named(tokens, own, s),
        codes::NUMBERED_MEMBER => came(s, member(tokens, own, left, forms::EXPR_FIELD, 1, false)),
        codes::AWAIT => came(s, member(tokens, own, left, forms::EXPR_AWAIT, 0, false)),
        _ => failed(tokens),
    }
}

// A type behind `as`.
fn convert(tokens: &[u16], own: &mut [u16], s: Reading) -> Reading
    requires { Able tokens.now own.old s × (code_at tokens.now s.left.at ≡ code as_token) }
    ensures { Stepped tokens.now own.old own.new s result }
{
    let left = cast(tokens, own, s.depth, s.left);
    if left.at > tokens.len() / sizes::TOKEN_CELLS {
        return failed(tokens);
    }
    came(s, left)
}

// The one form that follows what was read.
fn step(tokens: &[u16], own: &mut [u16], s: Reading, code: u16) -> Reading
    requires { Able tokens.now own.old s × (code ≡ code_at tokens.now s.left.at) × (s.left.at < many tokens.now) }
    ensures { Stepped tokens.now own.old own.new s result }
{
    let left = s.left;
    let next = left.at + 1;
    match code {
        codes::ADD..=codes::ASSIGN => {
            let least = lowest_after(level_of(code));
            wait(
                own,
                s,
                Waits::Binary,
                left.free + 1,
                code,
                next,
                least,
                s.condition,
            )
        }
        codes::AS => convert(tokens, own, s),
        codes::DOT => dot(tokens, own, s),
        codes::LEFT_PAREN => call(tokens, own, s, left.at, Waits::Call, forms::EXPR_CALL, 0),
        codes::LEFT_BRACKET => {
            let one = left.free + 1;
            wait(own, s, Waits::Index, one, 0, next, level::LOOSEST, false)
        }
        codes::QUESTION => came(s, attempt(tokens, own, left)),
        _ => failed(tokens),
    }
}

// One that waited goes on, with what it has now.
fn pop(s: Reading, left: Parsed, lowest: u16, place: u16) -> Reading
    requires { 1 ≤ s.depth }
    ensures { result ≡ record { left = left; depth = s.depth - 1; mode = mode.Read; least = lowest; condition = eqb place 1 } }
{
    Reading {
        left,
        depth: s.depth - 1,
        mode: Mode::Read,
        least: lowest,
        condition: place == 1,
    }
}

// A list was read up to `at`.
fn list(s: Reading, depth: usize, at: usize, free: u16) -> Reading
    ensures { result ≡ record { left = begins at free; depth = depth; mode = mode.Listed; least = s.least; condition = s.condition } }
{
    Reading {
        left: start(at, free),
        depth,
        mode: Mode::Listed,
        ..s
    }
}

// Behind an argument: the sign that closes the list, or another one.
fn after_item(tokens: &[u16], own: &mut [u16], s: Reading) -> Reading
    requires { Able tokens.now own.old s × IsItem (top_at own.old s) }
    ensures { Took tokens.now own.old own.new s result }
{
    let left = s.left;
    let end = past_comma(tokens, left.at, codes::RIGHT_PAREN);
    let sign = code_at(tokens, end);
    if sign == codes::RIGHT_PAREN {
        let free = store(own, left.free, forms::LINK, 0, left.free + 1, 0, 0);
        return list(s, s.depth, end + 1, free);
    }
    if sign == codes::COMMA {
        return wait(
            own,
            s,
            Waits::Argument,
            left.free + 1,
            0,
            left.at + 1,
            level::LOOSEST,
            false,
        );
    }
    failed(tokens)
}

// The expression that was read is taken by what waits for it.
fn take(tokens: &[u16], own: &mut [u16], s: Reading) -> Reading
    requires { Able tokens.now own.old s × (1 ≤ s.depth) }
    ensures { Took tokens.now own.old own.new s result }
{
    let left = s.left;
    let top = sizes::NODE_CELLS * (s.depth - 1);
    let what = own[top];
    let one = own[top + ONE];
    let two = own[top + TWO];
    let least = own[top + LEAST];
    let place = own[top + PLACE];
    let code = code_at(tokens, left.at);
    match Waits::try_from(what) {
        Ok(Waits::Prefix) => {
            let free = store(own, left.free, one, two, left.free + 1, 0, 0);
            let whole = Parsed {
                at: left.at,
                free,
                level: level::PREFIXES,
                named: left.named,
                dotted: left.dotted,
            };
            pop(s, whole, least, place)
        }
        Ok(Waits::Group) => {
            if code != codes::RIGHT_PAREN {
                return failed(tokens);
            }
            pop(s, strongest(left.at + 1, left.free), least, place)
        }
        Ok(Waits::Binary) => {
            let free = store(
                own,
                left.free,
                operator_form(two),
                operator_detail(two),
                one,
                left.free + 1,
                0,
            );
            let whole = Parsed {
                at: left.at,
                free,
                level: level_of(two),
                named: left.named,
                dotted: left.dotted,
            };
            pop(s, whole, least, place)
        }
        Ok(Waits::Index) => {
            if code != codes::RIGHT_BRACKET {
                return failed(tokens);
            }
            let free = store(own, left.free, forms::EXPR_INDEX, 0, one, left.free + 1, 0);
            pop(s, strongest(left.at + 1, free), least, place)
        }
        _ => after_item(tokens, own, s),
    }
}

// What was read goes on, or ends.
fn go_on(tokens: &[u16], own: &mut [u16], s: Reading) -> Reading
    requires { Able tokens.now own.old s × (1 ≤ s.least) }
    ensures { Gone tokens.now own.old own.new s result }
{
    let left = s.left;
    let code = code_at(tokens, left.at);
    if goes_on(s.least, left.level, left.named, left.dotted, code) {
        return step(tokens, own, s, code);
    }
    if s.depth == 0 {
        return Reading {
            mode: Mode::Ended,
            ..s
        };
    }
    take(tokens, own, s)
}

// The form of a call by what waits.
fn call_form(what: u16) -> u16
    ensures { result ≡ call_form what }
{
    if what == Waits::Method.number() {
        forms::EXPR_METHOD_CALL
    } else {
        forms::EXPR_CALL
    }
}

// The list that was read is taken by the argument before it, or by the call.
fn close(tokens: &[u16], own: &mut [u16], s: Reading) -> Reading
    requires { Able tokens.now own.old s × (1 ≤ s.depth) }
    ensures { Listed tokens.now own.old own.new s result }
{
    let left = s.left;
    let top = sizes::NODE_CELLS * (s.depth - 1);
    let what = own[top];
    let one = own[top + ONE];
    let two = own[top + TWO];
    let least = own[top + LEAST];
    let place = own[top + PLACE];
    if what == Waits::Argument.number() {
        let free = store(own, left.free, forms::LINK, 0, one, left.free + 1, 0);
        return list(s, s.depth - 1, left.at, free);
    }
    let free = store(own, left.free, call_form(what), 0, one, left.free + 1, two);
    pop(s, strongest(left.at, free), least, place)
}

fn turn(tokens: &[u16], own: &mut [u16], s: Reading) -> Reading
    requires { Turnable tokens.now own.old s }
    ensures { Turned tokens.now own.old own.new s result }
{
    match s.mode {
        Mode::Wanted => begin(tokens, own, s),
        Mode::Read => go_on(tokens, own, s),
        Mode::Listed | Mode::Ended => close(tokens, own, s),
    }
}

// An expression of level `min` or more that starts at `at`; `condition` says whether it stands in a condition outside
// every parenthesis, bracket and list.
pub(crate) fn expr(
    tokens: &[u16],
    own: &mut [u16],
    at: usize,
    free: u16,
    min: u16,
    condition: bool,
) -> Parsed
    requires { Ready tokens.now own.old at free × (1 ≤ min) }
    ensures { ExprAt (stands_in condition) tokens.now own.old own.new at free min result }
{
    let mut s = Reading {
        left: start(at, free),
        depth: 0,
        mode: Mode::Wanted,
        least: min,
        condition,
    };
    while s.mode != Mode::Ended {
        s = turn(tokens, own, s);
    }
    s.left
}
