// A node's own tokens, as codes.
ghost use Rattle.std.specs.Prelude.{◌≡◌, [], eqb};
ghost use Rattle.laws.specs.Choice.{pick, lookup};
ghost use Rattle.tree.specs.Table.{second_column, symbol_at};
ghost use Rattle.tree.specs.Trees.{label_at, tree_at, operand_at};
ghost use Rattle.token_grammar.specs.Tokens.{number, code, operator_of};
ghost use Rattle.token_plain.specs.Written.{unary, signs, sign_lines, signs_of};
ghost use Rattle.token_writer.specs.Puts.{only_before, only_between, enclosing, path_type, one_if, Spells, SpellsAny};

use token_grammar::codes;
use tree::columns;
use tree::form::Form;
use tree::table::Table;

// Up to three codes: an enum of its own, since an array or a slice would need its length beside it.
#[derive(Clone, Copy, Debug, PartialEq, Eq)]
pub enum Few {
    Nothing,
    One(u16),
    Two(u16, u16),
    Three(u16, u16, u16),
}

// The codes before the first operand, between the two, and behind the second.
#[derive(Clone, Copy, Debug, PartialEq, Eq)]
pub struct Signs {
    pub before: Few,
    pub between: Few,
    pub behind: Few,
}

// A code where a test holds.
#[tactic(auto, unfolding(laws::specs::Choice::pick))]
pub fn one_if(test: bool, code: u16) -> Few
    ensures { result ≡ one_if test code }
{
    if test { Few::One(code) } else { Few::Nothing }
}

fn ahead(few: Few) -> Signs
    ensures { result ≡ only_before few }
{
    Signs {
        before: few,
        between: Few::Nothing,
        behind: Few::Nothing,
    }
}

fn amid(few: Few) -> Signs
    ensures { result ≡ only_between few }
{
    Signs {
        before: Few::Nothing,
        between: few,
        behind: Few::Nothing,
    }
}

// Round the second operand.
fn round(start: Few, end: u16) -> Signs
    ensures { result ≡ enclosing start end }
{
    Signs {
        before: Few::Nothing,
        between: start,
        behind: Few::One(end),
    }
}

#[tactic(auto, unfolding(laws::specs::Choice::pick))]
fn by_detail(detail: u16, zero: u16, one: u16) -> u16
    ensures { result ≡ pick (eqb detail 0) zero one }
{
    if detail == 0 { zero } else { one }
}

// Deref, Not, Neg.
fn unary_code(detail: u16) -> u16
    ensures { result ≡ code (unary detail) }
{
    if detail == 0 {
        return codes::MUL;
    }
    by_detail(detail - 1, codes::BANG, codes::SUB)
}

// Codes 0 to 27 spell the operators of Binary.
pub fn operator_code(detail: u16) -> u16
    ensures { result ≡ number (operator_of detail) }
{
    if detail < codes::ASSIGN {
        detail
    } else {
        codes::ASSIGN
    }
}

#[tactic(auto, unfolding(laws::specs::Choice::pick))]
fn path_type(detail: u16) -> Signs
    ensures { result ≡ path_type detail }
{
    if detail == 2 {
        Signs {
            before: Few::Two(codes::NAME, codes::LT),
            between: Few::Nothing,
            behind: Few::One(codes::GT),
        }
    } else {
        ahead(Few::One(codes::NAME))
    }
}

// The signs of a form with a detail; `more` says whether a second operand is there. Symbols are put beside them later.
#[tactic(auto, unfolding(token_plain::specs::Written::sign_lines, crate::specs::Puts::symbol_on, crate::specs::Puts::symbol_lines, laws::specs::Choice::lookup, laws::specs::Choice::pick))]
fn signs_of(form: u16, detail: u16, more: bool) -> Signs
    ensures { SpellsAny result (λ y. lookup (sign_lines detail y more) (signs [] [] []) form) }
{
    let Ok(form) = Form::try_from(form) else {
        return ahead(Few::Nothing);
    };
    match form {
        Form::ExprPath => ahead(Few::One(codes::NAME)),
        Form::ExprLit => ahead(Few::One(codes::LITERAL)),
        Form::ExprParen => {
            Signs {
                before: Few::One(codes::LEFT_PAREN),
                between: Few::One(codes::RIGHT_PAREN),
                behind: Few::Nothing,
            }
        }
        Form::ExprUnary => ahead(Few::One(unary_code(detail))),
        Form::ExprReference | Form::TypeReference => {
            ahead(Few::One(by_detail(detail, codes::BIT_AND, codes::AND_MUT)))
        }
        Form::ExprBinary => amid(Few::One(operator_code(detail))),
        Form::ExprAssign => amid(Few::One(codes::ASSIGN)),
        Form::ExprCast => amid(Few::One(codes::AS)),
        Form::ExprField => {
            amid(Few::Two(
                codes::DOT,
                by_detail(detail, codes::NAME, codes::NUMBERED_MEMBER),
            ))
        }
        Form::ExprIndex => round(Few::One(codes::LEFT_BRACKET), codes::RIGHT_BRACKET),
        Form::ExprCall => round(Few::One(codes::LEFT_PAREN), codes::RIGHT_PAREN),
        Form::ExprMethodCall => {
            round(
                Few::Three(codes::DOT, codes::NAME, codes::LEFT_PAREN),
                codes::RIGHT_PAREN,
            )
        }
        Form::ExprTry => amid(Few::One(codes::QUESTION)),
        Form::ExprAwait => amid(Few::Two(codes::DOT, codes::AWAIT)),
        Form::TypePath => path_type(detail),
        Form::TypePtr => ahead(Few::One(by_detail(detail, codes::STAR_CONST, codes::STAR_MUT))),
        Form::TypeInfer => ahead(Few::One(codes::UNDERSCORE)),
        Form::TypeNever => ahead(Few::One(codes::BANG)),
        Form::Link => amid(one_if(more, codes::COMMA)),
        Form::ExprStruct => ahead(Few::One(codes::STRUCT)),
        _ => ahead(Few::Nothing),
    }
}

pub fn signs_at(table: &Table, node: u16) -> Signs
    ensures { Spells (symbol_at table.now.cells.now node) result (signs_of (label_at table.now.cells.now node) (tree_at table.now.cells.now table.now.count (operand_at table.now.cells.now table.now.count node second_column))) }
{
    let form = table.cell(node, columns::FORM);
    let detail = table.detail(node);
    let second = table.operand_number(node, columns::SECOND);
    signs_of(form, detail, second != 0)
}
