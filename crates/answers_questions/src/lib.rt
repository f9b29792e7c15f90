// What precedence.rs, classify.rs and fixup.rs say of a node, by the number of a question.
// A number that is no question's is answered by 65535. Questions stay numbers: callers in C ask by them.
#![tactic(auto)]

pub mod in_context; // in_context.rt: what fixup.rs says of a node in a context

ghost use Rattle.std.specs.Prelude.{◌≡◌};
ghost use Rattle.tree.specs.Trees.{tree_at};
ghost use Rattle.answers_questions.specs.Questions.{answered};

use precedence::Precedence;
use tree::table::Table;

// Questions about a node alone: 0 to 6.
#[tactic(auto, unfolding(crate::specs::Questions::answered, crate::specs::Questions::questions, laws::specs::Choice::lookup, laws::specs::Choice::pick))]
pub fn answer(question: u16, table: &Table, node: u16) -> u16
    ensures { result ≡ answered question (tree_at table.now.cells.now table.now.count node) }
{
    match question {
        0 => Precedence::of(table, node).rank(),
        1 => u16::from(classify::requires_semi_to_be_stmt(table, node)),
        2 => u16::from(classify::requires_comma_to_be_match_arm(table, node)),
        3 => u16::from(classify::expr_leading_label(table, node)),
        4 => u16::from(classify_braces::expr_trailing_brace(table, node)),
        5 => u16::from(classify::trailing_unparameterized_path(table, node)),
        6 => u16::from(classify_braces::type_trailing_brace(table, node)),
        _ => 65535,
    }
}
