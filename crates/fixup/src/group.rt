// What the context says of an expression: parenthesize, its precedence, and scan_left.
ghost use Rattle.std.specs.Prelude.{◌≡◌};
ghost use Rattle.tree.specs.Trees.{tree_at};
ghost use Rattle.fixup.specs.Fixup.{parenthesize, effective, left_of_binary, scan_left};

use super::context::FixupContext;
use classify::{requires_comma_to_be_match_arm, requires_semi_to_be_stmt};
use fixup_look::{
    is_bare_jump, is_bare_return, is_cast_to_path, is_let, is_open_ahead, is_open_ended,
    is_plain_block, is_struct,
};
use precedence::Precedence;
use tree::form::Form;
use tree::table::Table;
use tree_shapes::first_at;

impl FixupContext {
    // Whether parentheses are needed to head off the early termination of a statement or condition.
    #[tactic(auto, unfolding(crate::specs::Fixup::parenthesize))]
    pub fn parenthesize(self, table: &Table, node: u16) -> bool
        ensures { result ≡ parenthesize self (tree_at table.now.cells.now table.now.count node) }
    {
        if self.leftmost_subexpression_in_stmt && !requires_semi_to_be_stmt(table, node) {
            return true;
        }
        if (self.stmt || self.leftmost_subexpression_in_stmt) && is_let(table, node) {
            return true;
        }
        if self.leftmost_subexpression_in_match_arm
            && !requires_comma_to_be_match_arm(table, node)
        {
            return true;
        }
        if self.condition && is_struct(table, node) {
            return true;
        }
        if self.rightmost_subexpression_in_condition && is_bare_return(table, node) {
            return true;
        }
        if self.rightmost_subexpression_in_condition
            && !self.condition
            && is_open_ended(table, node)
        {
            return true;
        }
        self.leftmost_subexpression_in_optional_operand && is_plain_block(table, node)
    }

    // The effective precedence of a subexpression.
    #[tactic(auto, unfolding(crate::specs::Fixup::effective, laws::specs::Choice::pick))]
    pub fn precedence(self, table: &Table, node: u16) -> Precedence
        ensures { result ≡ effective self (tree_at table.now.cells.now table.now.count node) }
    {
        if self.next_operator_can_begin_expr && is_bare_jump(table, node) {
            return Precedence::Jump;
        }
        if !self.next_operator_can_continue_expr && is_open_ahead(table, node) {
            return Precedence::Prefix;
        }
        if self.next_operator_can_begin_generics && is_cast_to_path(table, node) {
            return Precedence::MIN;
        }
        Precedence::of(table, node)
    }
}

// Left of a Binary operator with a precedence of its own. As a match within scan_left's, the proof did not close.
#[tactic(auto, unfolding(crate::specs::Fixup::left_of_binary, laws::specs::Choice::pick))]
fn left_of_binary(previous: Precedence, own: Precedence) -> bool
    ensures { result ≡ left_of_binary previous own }
{
    match own {
        Precedence::Assign => previous.is_at_most(Precedence::Assign),
        _ => previous.is_below(own),
    }
}

// Whether the operator before the expression leaves it whole.
#[tactic(auto, unfolding(crate::specs::Fixup::scan_left_lines, tree::specs::Trees::label_at, laws::specs::Choice::lookup, laws::specs::Choice::pick), using(crate::proofs::Scans::scanned, crate::proofs::Scans::unlisted, crate::proofs::Scans::start, tree::proofs::Walks::there))]
pub fn scan_left(table: &Table, node: u16, fixup: FixupContext) -> bool
    ensures { result ≡ scan_left (tree_at table.now.cells.now table.now.count node) fixup }
{
    match table.form(node) {
        Some(Form::ExprAssign) => fixup.previous_operator.is_at_most(Precedence::Assign),
        Some(Form::ExprBinary) => {
            left_of_binary(
                fixup.previous_operator,
                Precedence::of_binop(table.detail(node)),
            )
        }
        Some(Form::ExprCast) => fixup.previous_operator.is_below(Precedence::Cast),
        Some(Form::ExprRange) => {
            first_at(table, node).is_none() || fixup.previous_operator.is_below(Precedence::Assign)
        }
        _ => true,
    }
}
