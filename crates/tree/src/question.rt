// Questions that go down one side of a tree, each once, and the one loop that asks them.
ghost use Rattle.std.specs.Prelude.{◌≡◌, List, ◌≤◌, ◌<◌, MatchOption, IfSome};
ghost use Rattle.laws.specs.Choice.{Line};
ghost use Rattle.tree.specs.Trees.{Label, Tree, tree_at};
ghost use Rattle.tree.specs.Walks.{walk, Ask};
ghost use Rattle.tree.specs.Asks.{asked, stepped};
ghost use Rattle.tree.specs.Steps.{asked_at, step_at, into};

use crate::table::{Operand, Table};
use std::ops::ControlFlow;

// What a node does with a question: it answers, or hands it to one of its operands.
#[derive(Clone, Copy, Debug, PartialEq, Eq)]
pub enum Asked<A> {
    Answer(A),
    First,
    Second,
}

// A question that a table over the forms answers.
pub trait Question {
    type Answer: Copy;

    ghost lines: { Label → Tree → Tree → List (Line (Ask Self.Answer)) };

    ghost other: { Label → Self.Answer };

    ghost absent: { Self.Answer };

    // The answer where there is no node.
    fn absent() -> Self::Answer
        ensures { result ≡ absent };

    // What a node does with it; any number has an answer.
    fn ask(table: &Table, node: u16) -> Asked<Self::Answer>
        ensures { asked result ≡ asked_at lines other table.now.cells.now table.now.count node };
}

// On to an operand; where it is absent, the answer.
fn go_on<A: Copy>(absent: A, operand: Operand) -> ControlFlow<A, u16>
    ensures { stepped result ≡ into absent operand }
{
    match operand {
        Some(next) => ControlFlow::Continue(next),
        None => ControlFlow::Break(absent),
    }
}

// One step of the walk: the answer, or the node that is asked next.
#[tactic(auto, unfolding(crate::specs::Steps::step_at, laws::specs::Choice::pick))]
fn step<Q: Question>(table: &Table, at: u16) -> ControlFlow<Q::Answer, u16>
    ensures { stepped result ≡ step_at Q.lines Q.other Q.absent table.now.cells.now table.now.count at }
{
    if at == 0 || at > table.count {
        return ControlFlow::Break(Q::absent());
    }
    match Q::ask(table, at) {
        Asked::Answer(answer) => ControlFlow::Break(answer),
        Asked::First => go_on(Q::absent(), table.first(at)),
        Asked::Second => go_on(Q::absent(), table.second(at)),
    }
}

// The answer of a tree.
pub fn walk<Q: Question>(table: &Table, node: u16) -> Q::Answer
    ensures { result ≡ walk Q.lines Q.other Q.absent (tree_at table.now.cells.now table.now.count node) }
{
    let mut at = node;
    'down: loop {
        match step::<Q>(table, at) {
            ControlFlow::Break(answer) => break answer,
            ControlFlow::Continue(next) => at = next,
        }
    }
}
