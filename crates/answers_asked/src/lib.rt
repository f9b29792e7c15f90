// For callers in Rust: what precedence.rs, classify.rs, fixup.rs and expr.rs say, by the number of a question; rows in either callee order.
// Each is called over the C interface: tables as slices with a count, contexts as three cells, questions, cells and orders as numbers.
#![tactic(auto)]

pub mod in_context; // in_context.rt: what fixup.rs says of a node in a context
pub mod contexts; // contexts.rt: the contexts that fixup.rs makes
pub mod handed; // handed.rt: what expr.rs hands down
pub mod rows; // rows.rt: the rows of all nodes in a callee order

ghost use Rattle.std.specs.Prelude.{◌≡◌};
ghost use Rattle.tree.specs.Trees.{tree_at};
ghost use Rattle.answers_questions.specs.Questions.{answered};

use tree::table::Table;

// answers_questions::answer.
#[unsafe(no_mangle)]
pub extern "C" fn tezhukor_answer(question: u16, table: &[u16], count: u16, node: u16) -> u16
    ensures { result ≡ answered question (tree_at table.now count node) }
{
    let table = &Table {
        cells: table,
        count,
    };
    answers_questions::answer(question, table, node)
}
