// The levels of a tree: how many nodes its longest path holds, links not counted.
ghost use Rattle.std.specs.Prelude.{◌≡◌, max};
ghost use Rattle.tree.specs.Table.{form_at};
ghost use Rattle.tree.specs.Trees.{own_level};

use super::form::class_of;
use tree::columns;
use tree::table::Table;

pub fn larger(a: u16, b: u16) -> u16
    ensures { result ≡ max a b }
{
    a.max(b)
}

// 1 for an expression or a type, 0 for a link.
#[tactic(auto, unfolding(tree::specs::Trees::own_level, laws::specs::Choice::pick))]
pub fn level_of(form: u16) -> u16
    ensures { result ≡ own_level form }
{
    if class_of(form) == 3 { 0 } else { 1 }
}

// That of a node of a table.
pub fn own_level(table: &Table, node: u16) -> u16
    ensures { result ≡ own_level (form_at table.now.cells.now node) }
{
    level_of(table.cell(node, columns::FORM))
}
