// The tree of a table with what stands at a named node replaced by another table's tree, numbered.
ghost use Rattle.std.specs.Prelude.{◌≡◌, suc, ◌+◌, ◌-◌, ◌*◌, ◌≤◌, length};
ghost use Rattle.std.proofs.lemmas.List.Edits.{sets};
ghost use Rattle.tree.specs.Sizes.{node_cells, most_nodes};
ghost use Rattle.tree.specs.Trees.{tree_at};
ghost use Rattle.tree_numbering.specs.Numbered.{size, cells_from};
ghost use Rattle.tree_numbering.specs.Replaced.{replaced_at, replaced_nodes, replaced_after};

use super::{ROOM, number_after, number_from, room_after, store};
use tree::table::Table;
use tree::{columns, sizes};

// How much of a room for nodes the replaced tree below a node leaves.
fn room_edited(table: &Table, place: u16, second: &Table, node: u16, room: u16) -> u16
    ensures { result ≡ room - size (replaced_at table.now.cells.now table.now.count place (tree_at second.now.cells.now second.now.count 1) node) }
{
    if node == 0 {
        return room;
    }
    if table.count < node {
        return room;
    }
    if node == place {
        return room_after(second, 1, room);
    }
    if room == 0 {
        return 0;
    }
    let first = table.operand_number(node, columns::FIRST);
    let left = room_edited(table, place, second, first, room - 1);
    let other = table.operand_number(node, columns::SECOND);
    room_edited(table, place, second, other, left)
}

// The nodes of the replaced tree below a node after so many others; how many there are then.
fn number_edited(
    table: &Table,
    place: u16,
    second: &Table,
    node: u16,
    done: u16,
    out: &mut [u16],
) -> u16
    requires { (1 ≤ second.now.count) × (done + size (replaced_at table.now.cells.now table.now.count place (tree_at second.now.cells.now second.now.count 1) node) ≤ most_nodes) × (node_cells * (done + size (replaced_at table.now.cells.now table.now.count place (tree_at second.now.cells.now second.now.count 1) node)) ≤ length out.old) }
    ensures reply { result ≡ done + size (replaced_at table.now.cells.now table.now.count place (tree_at second.now.cells.now second.now.count 1) node) }
    ensures out { out.new ≡ sets out.old (node_cells * done) (cells_from (suc done) (replaced_at table.now.cells.now table.now.count place (tree_at second.now.cells.now second.now.count 1) node)) }
{
    if node == 0 {
        return done;
    }
    if table.count < node {
        return done;
    }
    if node == place {
        return number_from(second, 1, done, out);
    }
    let first = table.operand_number(node, columns::FIRST);
    let other = table.operand_number(node, columns::SECOND);
    let after = number_edited(table, place, second, first, done + 1, out);
    store(
        table,
        node,
        done,
        number_after(first, done + 1),
        number_after(other, after),
        out,
    );
    number_edited(table, place, second, other, after, out)
}

// The replaced tree over the start of `out`, and how many nodes it has. None, and `out` as it was, where the second table has no nodes, the tree too many, or `out` too few cells.
pub fn number(table: &Table, place: u16, second: &Table, out: &mut [u16]) -> Option<u16>
    ensures reply { result ≡ replaced_nodes second.now.count (replaced_at table.now.cells.now table.now.count place (tree_at second.now.cells.now second.now.count 1) 1) (length out.old) }
    ensures out { out.new ≡ replaced_after second.now.count (replaced_at table.now.cells.now table.now.count place (tree_at second.now.cells.now second.now.count 1) 1) out.old }
{
    if second.count == 0 {
        return None;
    }
    let left = room_edited(table, place, second, 1, ROOM);
    if left == 0 {
        return None;
    }
    let all = ROOM - left;
    if out.len() < sizes::NODE_CELLS * usize::from(all) {
        return None;
    }
    Some(number_edited(table, place, second, 1, 0, out))
}
