// What is decided of a node: its row, and whether it has an outer pair.
#![tactic(auto)]

pub mod hand; // hand.rt: what an owner hands down, in one number

ghost use Rattle.std.specs.Prelude.{◌≡◌};
ghost use Rattle.laws.specs.Choice.{is_one_of};
ghost use Rattle.tree.specs.FormNumbers.{number_of};
ghost use Rattle.tree.specs.Trees.{tree_at};
ghost use Rattle.fixup.specs.Contexts.{none_context};
ghost use Rattle.row.specs.Rows.{inner_pair, pair_by, row_by, expression_row};
ghost use Rattle.row.specs.Steps.{decision_of, alone};
ghost use Rattle.row.specs.Closed.{closed_forms, is_closed};
ghost use Rattle.row.specs.Hands.{handed_of};

use fixup::context::FixupContext;
use hand::{CONTEXTS, is_grouped, is_parenthesized};
use precedence::Precedence;
use tree::form::Form;
use tree::table::Table;

#[derive(Clone, Copy, Debug, PartialEq, Eq)]
pub struct Row {
    pub pair: u16,
    pub precedence: u16,
    pub previous: u16,
    pub next: u16,
    pub flags: u16,
}

#[derive(Clone, Copy, Debug, PartialEq, Eq)]
pub struct Decision {
    pub row: Row,
    pub outer: bool,
}

// The parentheses behind the attributes of an operator with two sides.
#[tactic(auto, unfolding(crate::specs::Rows::inner_lines, laws::specs::Choice::pick, laws::specs::Choice::lookup, tree::specs::Walks::at_root, tree::specs::Operands::form_in, tree::specs::Trees::label_at), using(tree::proofs::Unfold::unfolds, tree::proofs::Unfold::tree_zero, tree::proofs::Unfold::tree_past))]
fn has_inner_pair(table: &Table, node: u16) -> bool
    ensures { result ≡ inner_pair (tree_at table.now.cells.now table.now.count node) }
{
    match table.form(node) {
        Some(Form::ExprAssign | Form::ExprBinary | Form::ExprCast | Form::ExprRange) => {
            table.attributes(node) != 0
        }
        _ => false,
    }
}

fn pair(outer: bool, inner: bool) -> u16
    ensures { result ≡ pair_by outer inner }
{
    u16::from(outer) + 2 * u16::from(inner)
}

// A row with what an owner handed down.
fn row_of(pair: u16, hand: u32) -> Row
    ensures { result ≡ row_by pair (handed_of hand).precedence (handed_of hand).fixup }
{
    Row {
        pair,
        precedence: (hand / CONTEXTS % 16) as u16,
        previous: (hand % 16) as u16,
        next: (hand / 16 % 16) as u16,
        flags: (hand / 256 % 1024) as u16,
    }
}

// What is decided of an expression: the outer pair by the owner's grouping test, or parenthesize.
pub fn decision_of(hand: u32, table: &Table, node: u16) -> Decision
    ensures { result ≡ decision_of (handed_of hand) (tree_at table.now.cells.now table.now.count node) }
{
    let outer = is_grouped(hand) || is_parenthesized(hand, table, node);
    let inner = has_inner_pair(table, node);
    Decision {
        row: row_of(pair(outer, inner), hand),
        outer,
    }
}

// Whether a form closes itself.
#[tactic(auto, unfolding(laws::specs::Choice::pick, laws::specs::Choice::lookup))]
fn closes_itself(form: Form) -> bool
    ensures { result ≡ is_one_of closed_forms (number_of form) }
{
    matches!(
        form,
        Form::ExprArray
            | Form::ExprAsync
            | Form::ExprAwait
            | Form::ExprBlock
            | Form::ExprCall
            | Form::ExprConst
            | Form::ExprContinue
            | Form::ExprField
            | Form::ExprForLoop
            | Form::ExprIf
            | Form::ExprIndex
            | Form::ExprInfer
            | Form::ExprLit
            | Form::ExprLoop
            | Form::ExprMacro
            | Form::ExprMatch
            | Form::ExprMethodCall
            | Form::ExprParen
            | Form::ExprPath
            | Form::ExprRepeat
            | Form::ExprStruct
            | Form::ExprTry
            | Form::ExprTryBlock
            | Form::ExprTuple
            | Form::ExprUnsafe
            | Form::ExprVerbatim
            | Form::ExprWhile
    )
}

// Whether a node closes itself and has no outer attributes: its precedence is then Unambiguous in every context.
#[tactic(auto, unfolding(laws::specs::Choice::pick), using(crate::proofs::Closed::closed_at, crate::proofs::Closed::unlisted))]
pub fn is_closed(table: &Table, node: u16) -> bool
    ensures { result ≡ is_closed (tree_at table.now.cells.now table.now.count node) }
{
    let Some(form) = table.form(node) else {
        return false;
    };
    closes_itself(form) && table.attributes(node) != 2
}

// A row in NONE.
fn row_in_none(pair: u16, precedence: Precedence) -> Row
    ensures { result ≡ row_by pair precedence none_context }
{
    Row {
        pair,
        precedence: precedence.rank(),
        previous: 0,
        next: 0,
        flags: 0,
    }
}

// The row of an expression that no owner tests, in NONE: it has no outer pair.
pub fn lone_row(table: &Table, node: u16) -> Row
    ensures { result ≡ expression_row (alone (tree_at table.now.cells.now table.now.count node)) (tree_at table.now.cells.now table.now.count node) }
{
    if is_closed(table, node) {
        return row_in_none(0, Precedence::Unambiguous);
    }
    let none = FixupContext::none();
    let precedence = none.precedence(table, node);
    let inner = has_inner_pair(table, node);
    row_in_none(pair(false, inner), precedence)
}
