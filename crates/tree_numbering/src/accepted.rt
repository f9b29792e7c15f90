// The tree of an accepted table, numbered anew: as large as the table says, so that nothing is counted first. Passes over the nodes in place of a recursion, as operands come after their owners.
ghost use Rattle.std.specs.Prelude.{◌≡◌, ◌*◌, ◌≤◌, ◌<◌, ◌^◌, length};
ghost use Rattle.laws.specs.Lists.{over};
ghost use Rattle.tree.specs.Replies.{replied};
ghost use Rattle.tree.specs.Sizes.{node_cells};
ghost use Rattle.tree.specs.Trees.{tree_at};
ghost use Rattle.tree_rules.specs.Refusals.{Accepted};
ghost use Rattle.tree_numbering.specs.Numbered.{numbered};
ghost use Rattle.tree_numbering.specs.Accepting.{numbering_refusal, numbered_after};
ghost use Rattle.tree_numbering.specs.Passes.{Measured, Copied};

use super::{number_after, store};
use tree::refusal::Refusal;
use tree::table::Table;
use tree::{offsets, sizes};
use tree_one_pass::check;

// How many cells the arrays have: for fewer than 64 nodes and for fewer than 512 they are quickly made, the last are for any accepted table.
const FEW: usize = 64;

const SOME: usize = 512;

const MANY: usize = sizes::MOST_NODES as usize + 1;

// How many nodes the tree at each node has, from the last node to the first.
fn measure(table: &Table, spans: &mut [u16])
    requires { Accepted 0 table.now.count table.now.cells.now × (table.now.count < length spans.old) }
    ensures { Measured table.now.cells.now table.now.count 0 spans.new }
{
    spans[0] = 0;
    for done in (0..table.count).rev() {
        let cells = sizes::NODE_CELLS * usize::from(done);
        let first = usize::from(table.cells[cells + offsets::FIRST]);
        let second = usize::from(table.cells[cells + offsets::SECOND]);
        spans[usize::from(done) + 1] = 1 + spans[first] + spans[second];
    }
}

// One node after the other, while their operands have the numbers that they are to have; whether all of them do.
fn copy(table: &Table, spans: &[u16], out: &mut [u16]) -> bool
    requires { Accepted 0 table.now.count table.now.cells.now × Measured table.now.cells.now table.now.count 0 spans.now × (node_cells * table.now.count ≤ length out.old) }
    ensures { Copied table.now.cells.now table.now.count out.old out.new result }
{
    for done in 0..table.count {
        let cells = sizes::NODE_CELLS * usize::from(done);
        let first = table.cells[cells + offsets::FIRST];
        let second = table.cells[cells + offsets::SECOND];
        let after = done + 1 + spans[usize::from(first)];
        if number_after(first, done + 1) != first {
            return false;
        }
        if number_after(second, after) != second {
            return false;
        }
        store(table, done + 1, done, first, second, out);
    }
    true
}

// Each node to its number, from the first node to the last: a node's number gives those of its operands.
fn place(table: &Table, spans: &[u16], numbers: &mut [u16], out: &mut [u16])
    requires { Accepted 0 table.now.count table.now.cells.now × Measured table.now.cells.now table.now.count 0 spans.now × (table.now.count < length numbers.old) × (node_cells * table.now.count ≤ length out.old) }
    ensures { out.new ≡ over (numbered (tree_at table.now.cells.now table.now.count 1)) out.old }
{
    numbers[1] = 1;
    for done in 0..table.count {
        let cells = sizes::NODE_CELLS * usize::from(done);
        let first = table.cells[cells + offsets::FIRST];
        let second = table.cells[cells + offsets::SECOND];
        let one = usize::from(first);
        let two = usize::from(second);
        let own = numbers[usize::from(done) + 1];
        let after = own + spans[one];
        numbers[one] = own + 1;
        numbers[two] = after + 1;
        store(
            table,
            done + 1,
            own - 1,
            number_after(first, own),
            number_after(second, after),
            out,
        );
    }
}

// The tree of an accepted table over the start of a lent one, with lent arrays. A table that is numbered from the root on is copied.
fn fill(table: &Table, spans: &mut [u16], numbers: &mut [u16], out: &mut [u16])
    requires { Accepted 0 table.now.count table.now.cells.now × (table.now.count < length spans.old) × (table.now.count < length numbers.old) × (node_cells * table.now.count ≤ length out.old) }
    ensures { out.new ≡ over (numbered (tree_at table.now.cells.now table.now.count 1)) out.old }
{
    measure(table, spans);
    if copy(table, spans, out) {
        return;
    }
    place(table, spans, numbers, out);
}

// The same, with arrays of so many cells.
fn fill_by<const CELLS: usize>(table: &Table, out: &mut [u16])
    requires nodes { Accepted 0 table.now.count table.now.cells.now × (table.now.count < CELLS) × (node_cells * table.now.count ≤ length out.old) }
    requires small { CELLS < 2 ^ 20 }
    ensures { out.new ≡ over (numbered (tree_at table.now.cells.now table.now.count 1)) out.old }
{
    let mut spans = [0u16; CELLS];
    let mut numbers = [0u16; CELLS];
    fill(table, &mut spans, &mut numbers, out);
}

// The same, with arrays as long as it takes.
fn fill_as_needed(table: &Table, out: &mut [u16])
    requires { Accepted 0 table.now.count table.now.cells.now × (node_cells * table.now.count ≤ length out.old) }
    ensures { out.new ≡ over (numbered (tree_at table.now.cells.now table.now.count 1)) out.old }
{
    match table.count {
        0..=63 => fill_by::<FEW>(table, out),
        64..=511 => fill_by::<SOME>(table, out),
        _ => fill_by::<MANY>(table, out),
    }
}

// The tree of a table into a lent one, numbered from 1, or the first refusal that applies.
pub fn number(context: u16, table: &Table, out: &mut [u16]) -> Result<(), Refusal>
    ensures reply { result ≡ replied (numbering_refusal context table.now.count table.now.cells.now (length out.old)) tt }
    ensures out { out.new ≡ numbered_after context table.now.count table.now.cells.now out.old }
{
    check(context, table.count, table.cells)?;
    if out.len() < sizes::NODE_CELLS * usize::from(table.count) {
        return Err(Refusal::Short);
    }
    fill_as_needed(table, out);
    Ok(())
}
