// What fixup.rs says of a node in a context.
ghost use Rattle.std.specs.Prelude.{◌≡◌};
ghost use Rattle.tree.specs.Trees.{tree_at};
ghost use Rattle.answers_questions.specs.Questions.{fixup_answered};

use fixup::context::FixupContext;
use fixup::group::scan_left;
use fixup_scan::right::{leftmost_subexpression_precedence, rightmost_subexpression_precedence};
use tree::table::Table;

// Questions about a node in a context: 0 to 4.
#[tactic(auto, unfolding(crate::specs::Questions::fixup_answered, crate::specs::Questions::fixup_questions, laws::specs::Choice::lookup, laws::specs::Choice::pick))]
pub fn fixup_answer(question: u16, fixup: FixupContext, table: &Table, node: u16) -> u16
    ensures { result ≡ fixup_answered question fixup (tree_at table.now.cells.now table.now.count node) }
{
    match question {
        0 => u16::from(fixup.parenthesize(table, node)),
        1 => fixup.precedence(table, node).rank(),
        2 => u16::from(scan_left(table, node, fixup)),
        3 => leftmost_subexpression_precedence(fixup, table, node).rank(),
        4 => rightmost_subexpression_precedence(fixup, table, node).rank(),
        _ => 65535,
    }
}
