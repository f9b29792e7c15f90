// Contexts, and what an operand gets from its owner, a cell at a time, by the number of a question.
// A number that is no question's or no cell's is answered by 65535. Questions and cells stay numbers: callers in C ask by them.
#![tactic(auto)]

ghost use Rattle.std.specs.Prelude.{◌≡◌};
ghost use Rattle.tree.specs.Trees.{tree_at};
ghost use Rattle.answers_cells.specs.CellQuestions.{cell_of, context_answered, handed_cell, handed_answered};

use expr::order::CalleeOrder;
use expr::{Handed, first_operand, second_operand};
use fixup::context::FixupContext;
use precedence::Precedence;
use row_pack::flags;
use tree::table::Table;

// One of the three cells of a context.
#[tactic(auto, unfolding(crate::specs::CellQuestions::cell_of, crate::specs::CellQuestions::cells, laws::specs::Choice::lookup, laws::specs::Choice::pick))]
fn cell_of(cell: u16, fixup: FixupContext) -> u16
    ensures { result ≡ cell_of cell fixup }
{
    match cell {
        0 => fixup.previous_operator.rank(),
        1 => fixup.next_operator.rank(),
        2 => flags(fixup),
        _ => 65535,
    }
}

// A cell of a context that fixup.rs makes: questions 0 to 6.
#[tactic(auto, unfolding(crate::specs::CellQuestions::context_answered, crate::specs::CellQuestions::context_questions, laws::specs::Choice::lookup, laws::specs::Choice::pick))]
pub fn context_answer(
    question: u16,
    cell: u16,
    fixup: FixupContext,
    first: bool,
    second: bool,
    precedence: Precedence,
) -> u16
    ensures { result ≡ context_answered question cell fixup first second precedence }
{
    match question {
        0 => cell_of(cell, FixupContext::none()),
        1 => cell_of(cell, FixupContext::new_stmt()),
        2 => cell_of(cell, FixupContext::new_match_arm()),
        3 => cell_of(cell, FixupContext::new_condition()),
        4 => cell_of(
            cell,
            fixup.leftmost_fixup_with_operator(first, second, precedence),
        ),
        5 => cell_of(cell, fixup.leftmost_fixup_with_dot()),
        6 => cell_of(
            cell,
            fixup.rightmost_subexpression_fixup(first, second, precedence),
        ),
        _ => 65535,
    }
}

// One of the five cells of what an operand gets: the context's three, its precedence, and whether its owner groups it.
#[tactic(auto, unfolding(crate::specs::CellQuestions::handed_cell, crate::specs::CellQuestions::handed_cells, laws::specs::Choice::lookup, laws::specs::Choice::pick))]
fn handed_cell(cell: u16, handed: Handed) -> u16
    ensures { result ≡ handed_cell cell handed }
{
    match cell {
        3 => handed.precedence.rank(),
        4 => u16::from(handed.needs_group),
        _ => cell_of(cell, handed.fixup),
    }
}

// A cell of what a node hands to an operand: 0 the one at its first place in the crate's callee order, 1 the one at its second, 2 the first in ours.
#[tactic(auto, unfolding(crate::specs::CellQuestions::handed_answered, crate::specs::CellQuestions::handed_questions, laws::specs::Choice::lookup, laws::specs::Choice::pick))]
pub fn handed_answer(question: u16, cell: u16, fixup: FixupContext, table: &Table, node: u16) -> u16
    ensures { result ≡ handed_answered question cell fixup (tree_at table.now.cells.now table.now.count node) }
{
    match question {
        0 => handed_cell(cell, first_operand(CalleeOrder::Crates, fixup, table, node)),
        1 => handed_cell(cell, second_operand(fixup, table, node)),
        2 => handed_cell(cell, first_operand(CalleeOrder::Ours, fixup, table, node)),
        _ => 65535,
    }
}
