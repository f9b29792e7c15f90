// prettyplease's fixup.rs: the precedence and the context of an operand, together.
#![tactic(auto)]

ghost use Rattle.std.specs.Prelude.{◌≡◌};
ghost use Rattle.tree.specs.Trees.{tree_at};
ghost use Rattle.fixup_subexpression.specs.Subexpressions.{leftmost_with_operator, leftmost_with_dot, rightmost_operand};

use fixup::context::FixupContext;
use fixup_scan::right::{leftmost_subexpression_precedence, rightmost_subexpression_precedence};
use precedence::Precedence;
use tree::table::Table;

#[derive(Clone, Copy, Debug, PartialEq, Eq)]
pub struct Subexpression {
    pub precedence: Precedence,
    pub fixup: FixupContext,
}

// A left operand before an operator.
pub fn leftmost_subexpression_with_operator(
    fixup: FixupContext,
    table: &Table,
    node: u16,
    next_operator_can_begin_expr: bool,
    next_operator_can_begin_generics: bool,
    precedence: Precedence,
) -> Subexpression
    ensures { result ≡ leftmost_with_operator fixup (tree_at table.now.cells.now table.now.count node) next_operator_can_begin_expr next_operator_can_begin_generics precedence }
{
    let left = fixup.leftmost_fixup_with_operator(
        next_operator_can_begin_expr,
        next_operator_can_begin_generics,
        precedence,
    );
    Subexpression {
        precedence: leftmost_subexpression_precedence(left, table, node),
        fixup: left,
    }
}

// A left operand before a dot or a question mark.
pub fn leftmost_subexpression_with_dot(
    fixup: FixupContext,
    table: &Table,
    node: u16,
) -> Subexpression
    ensures { result ≡ leftmost_with_dot fixup (tree_at table.now.cells.now table.now.count node) }
{
    let dotted = fixup.leftmost_fixup_with_dot();
    Subexpression {
        precedence: leftmost_subexpression_precedence(dotted, table, node),
        fixup: dotted,
    }
}

// A right operand.
pub fn rightmost_subexpression(
    fixup: FixupContext,
    table: &Table,
    node: u16,
    precedence: Precedence,
) -> Subexpression
    ensures { result ≡ rightmost_operand fixup (tree_at table.now.cells.now table.now.count node) precedence }
{
    let right = fixup.rightmost_subexpression_fixup(false, false, precedence);
    Subexpression {
        precedence: rightmost_subexpression_precedence(right, table, node),
        fixup: right,
    }
}
