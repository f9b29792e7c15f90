// Trees numbered anew.
#![tactic(auto)]

pub mod accepted; // accepted.rt: the trees of accepted tables
pub mod edited; // edited.rt: trees with a node replaced

ghost use Rattle.std.specs.Prelude.{◌≡◌, [], ◌∷◌, suc, ◌+◌, ◌-◌, ◌*◌, ◌≤◌, ◌<◌, eqb, length};
ghost use Rattle.std.proofs.lemmas.List.Edits.{sets};
ghost use Rattle.laws.specs.Choice.{pick};
ghost use Rattle.tree.specs.Sizes.{node_cells, most_nodes};
ghost use Rattle.tree.specs.Table.{form_at, attributes_at, detail_at, symbol_at};
ghost use Rattle.tree.specs.Trees.{tree_at, levels};
ghost use Rattle.tree_numbering.specs.Numbered.{size, cells_from};
ghost use Rattle.tree_numbering.specs.Renumbering.{refusal_of, renumbered, renumbered_after};

use tree::refusal::Refusal;
use tree::table::Table;
use tree::{columns, offsets, sizes};
use tree_labels::level::own_level;

// Room for one node more than the most, so that too many show.
const ROOM: u16 = sizes::MOST_NODES + 1;

// Why a tree is not numbered.
#[derive(Clone, Copy, Debug, PartialEq, Eq)]
pub enum Unfit {
    // More nodes or levels than a table may have.
    TooLarge,
    // The lent table has fewer cells than the nodes need.
    TooShort,
}

impl From<Unfit> for Refusal {
    ghost from_gives = { λ unfit refusal. refusal ≡ refusal_of unfit };

    fn from(unfit: Unfit) -> Refusal {
        match unfit {
            Unfit::TooLarge => Refusal::TooLarge,
            Unfit::TooShort => Refusal::Short,
        }
    }
}

// ---- how large a tree is

// How much of a room for nodes a tree leaves. The walk ends where the room does, also where nodes have several owners.
pub fn room_after(table: &Table, node: u16, room: u16) -> u16
    ensures { result ≡ room - size (tree_at table.now.cells.now table.now.count node) }
{
    if node == 0 {
        return room;
    }
    if table.count < node {
        return room;
    }
    if room == 0 {
        return 0;
    }
    let left = room_after(table, table.operand_number(node, columns::FIRST), room - 1);
    room_after(table, table.operand_number(node, columns::SECOND), left)
}

// How many nodes the longest path from a node holds, list links not counted. A node with several owners, which no accepted table has, is looked at once for each path to it.
pub fn levels_at(table: &Table, node: u16) -> u16
    ensures { result ≡ levels (tree_at table.now.cells.now table.now.count node) }
{
    if node == 0 {
        return 0;
    }
    if table.count < node {
        return 0;
    }
    let first = levels_at(table, table.operand_number(node, columns::FIRST));
    let second = levels_at(table, table.operand_number(node, columns::SECOND));
    own_level(table, node) + first.max(second)
}

// ---- numbering

// The number that an operand gets after so many nodes; 0 where it is absent.
fn number_after(operand: u16, done: u16) -> u16
    requires { done < 65535 }
    ensures { result ≡ pick (eqb operand 0) 0 (suc done) }
{
    if operand == 0 {
        return 0;
    }
    done + 1
}

// A node of the table into the six cells after so many nodes, with its operands' new numbers.
fn store(table: &Table, node: u16, done: u16, first: u16, second: u16, out: &mut [u16])
    requires { node_cells * done + node_cells ≤ length out.old }
    ensures { out.new ≡ sets out.old (node_cells * done) (form_at table.now.cells.now node ∷ attributes_at table.now.cells.now node ∷ detail_at table.now.cells.now node ∷ first ∷ second ∷ symbol_at table.now.cells.now node ∷ []) }
{
    let at = sizes::NODE_CELLS * usize::from(done);
    out[at] = table.cell(node, columns::FORM);
    out[at + offsets::ATTRIBUTES] = table.attributes(node);
    out[at + offsets::DETAIL] = table.detail(node);
    out[at + offsets::FIRST] = first;
    out[at + offsets::SECOND] = second;
    out[at + offsets::SYMBOL] = table.symbol(node);
}

// The nodes of the tree at a node after so many others; how many there are then. A node's own cells are known once its first operand has its numbers.
fn number_from(table: &Table, node: u16, done: u16, out: &mut [u16]) -> u16
    requires { (done + size (tree_at table.now.cells.now table.now.count node) ≤ most_nodes) × (node_cells * (done + size (tree_at table.now.cells.now table.now.count node)) ≤ length out.old) }
    ensures nodes { result ≡ done + size (tree_at table.now.cells.now table.now.count node) }
    ensures out { out.new ≡ sets out.old (node_cells * done) (cells_from (suc done) (tree_at table.now.cells.now table.now.count node)) }
{
    if node == 0 {
        return done;
    }
    if table.count < node {
        return done;
    }
    let first = table.operand_number(node, columns::FIRST);
    let second = table.operand_number(node, columns::SECOND);
    let after = number_from(table, first, done + 1, out);
    store(
        table,
        node,
        done,
        number_after(first, done + 1),
        number_after(second, after),
        out,
    );
    number_from(table, second, after, out)
}

// The tree at a node into a lent table, numbered from 1: parents before operands, and all nodes of the first operand before those of the second. How many nodes the lent table now holds.
pub fn renumber(table: &Table, node: u16, out: &mut [u16]) -> Result<u16, Unfit>
    ensures reply { result ≡ renumbered (tree_at table.now.cells.now table.now.count node) (length out.old) }
    ensures out { out.new ≡ renumbered_after (tree_at table.now.cells.now table.now.count node) out.old }
{
    let left = room_after(table, node, ROOM);
    if left == 0 {
        return Err(Unfit::TooLarge);
    }
    if levels_at(table, node) > sizes::MOST_LEVELS {
        return Err(Unfit::TooLarge);
    }
    let nodes = ROOM - left;
    if out.len() < sizes::NODE_CELLS * usize::from(nodes) {
        return Err(Unfit::TooShort);
    }
    Ok(number_from(table, node, 0, out))
}
