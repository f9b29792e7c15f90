// What a token says where it stands, by its code.
ghost use Rattle.std.specs.Prelude.{◌≡◌, ◌≤◌};
ghost use Rattle.token_grammar.specs.Codes.{code_at, token_symbol_at, is_token};
ghost use Rattle.token_grammar.specs.Tokens.{carries};
ghost use Rattle.token_grammar.specs.Bounds.{highest};
ghost use Rattle.token_reader.specs.Tables.{past_comma, after_of, operator_form, operator_detail};

use token_grammar::{codes, level};
use tree::{forms, sizes};

// The code of the token at a place, or the one that stands for the end of the list, which no token has.
pub fn code_at(tokens: &[u16], at: usize) -> u16
    ensures { result ≡ code_at tokens.now at }
{
    if at < tokens.len() / sizes::TOKEN_CELLS {
        tokens[sizes::TOKEN_CELLS * at]
    } else {
        sizes::LIST_END
    }
}

// The symbol beside it, or 0.
pub fn symbol_at(tokens: &[u16], at: usize) -> u16
    ensures { result ≡ token_symbol_at tokens.now at }
{
    if at < tokens.len() / sizes::TOKEN_CELLS {
        tokens[sizes::TOKEN_CELLS * at + 1]
    } else {
        0
    }
}

// Whether a token of this code may have a symbol that is not 0.
fn carries_symbol(code: u16) -> bool
    ensures { result ≡ carries code }
{
    matches!(code, codes::NAME | codes::LITERAL | codes::NUMBERED_MEMBER)
}

// Whether a code and a symbol are a token's.
pub(crate) fn is_token(code: u16, symbol: u16) -> bool
    ensures { result ≡ is_token code symbol }
{
    if code > sizes::LAST_CODE {
        return false;
    }
    if symbol == 0 {
        return true;
    }
    carries_symbol(code)
}

// Where a list may close behind an item that ends at `at`: a comma straight before the sign that closes it is passed over.
pub(crate) fn past_comma(tokens: &[u16], at: usize, close: u16) -> usize
    ensures { result ≡ past_comma tokens.now at close }
{
    if code_at(tokens, at) != codes::COMMA {
        return at;
    }
    if code_at(tokens, at + 1) != close {
        return at;
    }
    at + 1
}

// The lowest level of an operand that stands after.
pub(crate) fn lowest_after(made: u16) -> u16
    requires { made ≤ highest }
    ensures { result ≡ after_of made }
{
    if made == level::ASSIGNMENTS {
        level::ASSIGNMENTS
    } else {
        made + 1
    }
}

// Binary, Assign
pub fn operator_form(code: u16) -> u16
    ensures { result ≡ operator_form code }
{
    if code == codes::ASSIGN {
        forms::EXPR_ASSIGN
    } else {
        forms::EXPR_BINARY
    }
}

pub fn operator_detail(code: u16) -> u16
    ensures { result ≡ operator_detail code }
{
    if code == codes::ASSIGN { 0 } else { code }
}
