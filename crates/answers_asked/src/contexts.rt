// The contexts that fixup.rs makes, a cell at a time.
ghost use Rattle.std.specs.Prelude.{◌≡◌};
ghost use Rattle.row_pack.specs.FromCells.{of_rank, context_of};
ghost use Rattle.answers_cells.specs.CellQuestions.{context_answered};
ghost use Rattle.answers_asked.specs.Asked.{is_yes};

use answers_cells::context_answer;
use row_pack::{context_of, precedence_of};

// answers_cells::context_answer, with the context as three cells, the precedence by its rank, and of the booleans 0 for false.
#[unsafe(no_mangle)]
pub extern "C" fn tezhukor_context(
    question: u16,
    cell: u16,
    previous: u16,
    next: u16,
    flags: u16,
    first: u16,
    second: u16,
    precedence: u16,
) -> u16
    ensures { result ≡ context_answered question cell (context_of previous next flags) (is_yes first) (is_yes second) (of_rank precedence) }
{
    context_answer(
        question,
        cell,
        context_of(previous, next, flags),
        first != 0,
        second != 0,
        precedence_of(precedence),
    )
}
