// What expr.rs hands down, a cell at a time.
ghost use Rattle.std.specs.Prelude.{◌≡◌};
ghost use Rattle.tree.specs.Trees.{tree_at};
ghost use Rattle.row_pack.specs.FromCells.{context_of};
ghost use Rattle.answers_cells.specs.CellQuestions.{handed_answered};

use answers_cells::handed_answer;
use row_pack::context_of;
use tree::table::Table;

// answers_cells::handed_answer, with the owner's own context, NONE where it has an outer pair, as three cells.
#[unsafe(no_mangle)]
pub extern "C" fn tezhukor_handed(
    question: u16,
    cell: u16,
    previous: u16,
    next: u16,
    flags: u16,
    table: &[u16],
    count: u16,
    node: u16,
) -> u16
    ensures { result ≡ handed_answered question cell (context_of previous next flags) (tree_at table.now count node) }
{
    let table = &Table {
        cells: table,
        count,
    };
    let fixup = context_of(previous, next, flags);
    handed_answer(question, cell, fixup, table, node)
}
