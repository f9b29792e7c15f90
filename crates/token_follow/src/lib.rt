// What may follow an expression, by the code of the next token.
#![tactic(auto)]

ghost use Rattle.std.specs.Prelude.{◌≡◌};
ghost use Rattle.token_grammar.specs.Codes.{sign_of};
ghost use Rattle.token_grammar.specs.Next.{next_of, level_at};
ghost use Rattle.token_follow.specs.Follow.{goes_on_by};
ghost use Rattle.token_follow.specs.Tables.{level_of, before_of, barred};

use token_grammar::{codes, level};

// The level of what a token makes that follows an expression, 0 for nothing.
#[tactic(auto, unfolding(crate::specs::Tables::level_of, crate::specs::Tables::level_lines, crate::specs::Tables::level_past, crate::specs::Tables::past_lines, laws::specs::Choice::lookup, laws::specs::Choice::pick))]
fn level_in(code: u16) -> u16
    ensures { result ≡ level_of code }
{
    match code {
        codes::ADD..=codes::SUB => level::SUMS,
        codes::MUL..=codes::REM => level::PRODUCTS,
        codes::AND => level::ANDS,
        codes::OR => level::ORS,
        codes::BIT_XOR => level::BIT_XORS,
        codes::BIT_AND => level::BIT_ANDS,
        codes::BIT_OR => level::BIT_ORS,
        codes::SHL..=codes::SHR => level::SHIFTS,
        codes::EQ..=codes::GT => level::COMPARISONS,
        codes::ADD_ASSIGN..=codes::ASSIGN => level::ASSIGNMENTS,
        codes::AS => level::CASTS,
        codes::DOT => level::POSTFIXES,
        codes::LEFT_PAREN | codes::LEFT_BRACKET | codes::QUESTION => level::POSTFIXES,
        _ => 0,
    }
}

// The same, said of the grammar's tokens.
pub fn level_of(code: u16) -> u16
    ensures { result ≡ level_at (next_of (sign_of code)) }
{
    level_in(code)
}

// The levels straight above those that don't lean left: assignments lean right, comparisons to neither side.
const ABOVE_ASSIGNMENTS: u16 = level::ASSIGNMENTS + 1;

const ABOVE_COMPARISONS: u16 = level::COMPARISONS + 1;

// The lowest level of an operand that stands before.
#[tactic(auto, unfolding(crate::specs::Tables::before_of, laws::specs::Choice::lookup, laws::specs::Choice::pick))]
fn lowest_before(made: u16) -> u16
    ensures { result ≡ before_of made }
{
    match made {
        level::ASSIGNMENTS => ABOVE_ASSIGNMENTS,
        level::COMPARISONS => ABOVE_COMPARISONS,
        _ => made,
    }
}

// Whether a token can't go on straight after an expression: `<` or `<<` after a type name, `(` after a dot and a name.
#[tactic(auto, unfolding(crate::specs::Tables::barred, laws::specs::Choice::lookup, laws::specs::Choice::pick))]
fn is_barred(named: bool, dotted: bool, code: u16) -> bool
    ensures { result ≡ barred named dotted code }
{
    match code {
        codes::SHL | codes::LT => named,
        codes::LEFT_PAREN => dotted,
        _ => false,
    }
}

// Whether an expression of this level goes on with a token where the lowest level is `min`; `named` where its last token
// is a type name, `dotted` where its last two are a dot and a name.
pub fn goes_on(min: u16, level: u16, named: bool, dotted: bool, code: u16) -> bool
    ensures { result ≡ goes_on_by min level named dotted (next_of (sign_of code)) }
{
    let made = level_of(code);
    if made < min {
        return false;
    }
    if level < lowest_before(made) {
        return false;
    }
    !is_barred(named, dotted, code)
}
