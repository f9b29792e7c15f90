// What fixup.rs says of a node in a context.
ghost use Rattle.std.specs.Prelude.{◌≡◌};
ghost use Rattle.tree.specs.Trees.{tree_at};
ghost use Rattle.row_pack.specs.FromCells.{of_rank, context_of};
ghost use Rattle.answers_questions.specs.Questions.{fixup_answered};
ghost use Rattle.answers_asked.specs.Asked.{scan_answered};

use answers_questions::in_context::fixup_answer;
use fixup_scan::right::scan_right;
use row_pack::{context_of, precedence_of};
use tree::table::Table;

// answers_questions::in_context::fixup_answer, in the context that three cells hold.
#[unsafe(no_mangle)]
pub extern "C" fn tezhukor_fixup_answer(
    question: u16,
    previous: u16,
    next: u16,
    flags: u16,
    table: &[u16],
    count: u16,
    node: u16,
) -> u16
    ensures { result ≡ fixup_answered question (context_of previous next flags) (tree_at table.now count node) }
{
    let table = &Table {
        cells: table,
        count,
    };
    fixup_answer(question, context_of(previous, next, flags), table, node)
}

// scan_right, by document 01's number, which is its place in the enum, in the context that three cells hold and with the precedence by its rank.
#[unsafe(no_mangle)]
#[tactic(auto, unfolding(crate::specs::Asked::scan_answered))]
pub extern "C" fn tezhukor_scan_right(
    previous: u16,
    next: u16,
    flags: u16,
    precedence: u16,
    fail_offset: u16,
    bailout_offset: u16,
    table: &[u16],
    count: u16,
    node: u16,
) -> u16
    ensures { result ≡ scan_answered (context_of previous next flags) (of_rank precedence) fail_offset bailout_offset (tree_at table.now count node) }
{
    let table = &Table {
        cells: table,
        count,
    };
    let fixup = context_of(previous, next, flags);
    let scan = scan_right(
        table,
        node,
        fixup,
        precedence_of(precedence),
        fail_offset,
        bailout_offset,
    );
    scan as u16
}
