// Stems, and the tables of spines that are put together from them.
ghost use Rattle.std.specs.Prelude.{◌+◌, ◌<◌, ◌≤◌};

use tree::{offsets, sizes};

// The next operators, with one for none; the ends; the forms with a right operand; and one of these for each kind.
pub const NEXTS: usize = 42;

pub const ENDS: usize = 293;

pub const FORMS: usize = 141;

pub const KINDS: usize = 37;

// A stem's bytes: how many nodes it has, four at the most, and a byte for each number of a node, as in a node table. Operands have their
// numbers among the stem's own nodes.
const STEM: usize = 1 + 4 * sizes::NODE_CELLS;

// The bytes of all stems.
pub const BYTES: usize = STEM * (NEXTS + ENDS + FORMS + KINDS);

// The operand whose place the next stem takes.
const BELOW: usize = 255;

// The most nodes of a table of five stems, and their cells in the table and in the rows.
const NODES: usize = 20;

pub const CELLS: usize = sizes::NODE_CELLS * NODES;

pub const ROWS: usize = sizes::ROW_CELLS * NODES;

// A byte of the stems; 0 behind them.
fn byte(stems: &[u8; BYTES], at: usize) -> usize
    ensures { result ≤ 255 }
{
    stems.get(at).copied().map_or(0, usize::from)
}

// The number of an operand, where its stem of so many nodes stands behind others.
fn operand(number: usize, nodes: usize, before: usize) -> usize
    requires number_bound { number ≤ 255 }
    requires nodes_bound { nodes ≤ 4 }
    requires before_bound { before ≤ 16 }
    ensures { result ≤ 271 }
{
    if number == 0 {
        0
    } else if number == BELOW {
        before + nodes + 1
    } else {
        before + number
    }
}

// Lays a node of a stem, whose bytes begin at `at`, into the cells from `to` on.
fn lay_node(
    stems: &[u8; BYTES],
    at: usize,
    cells: &mut [u16; CELLS],
    to: usize,
    nodes: usize,
    before: usize,
)
    requires at_bound { at ≤ 10_000_000 }
    requires to_bound { to ≤ 114 }
    requires nodes_bound { nodes ≤ 4 }
    requires before_bound { before ≤ 16 }
{
    cells[to] = byte(stems, at) as u16;
    cells[to + offsets::ATTRIBUTES] = byte(stems, at + offsets::ATTRIBUTES) as u16;
    cells[to + offsets::DETAIL] = byte(stems, at + offsets::DETAIL) as u16;
    cells[to + offsets::FIRST] = operand(byte(stems, at + offsets::FIRST), nodes, before) as u16;
    cells[to + offsets::SECOND] = operand(byte(stems, at + offsets::SECOND), nodes, before) as u16;
    cells[to + offsets::SYMBOL] = byte(stems, at + offsets::SYMBOL) as u16;
}

// How many nodes a stem has.
fn nodes_of(stems: &[u8; BYTES], stem: usize) -> usize
    requires { stem ≤ 1_000 }
    ensures { result ≤ 4 }
{
    byte(stems, STEM * stem).min(4)
}

// Lays a stem behind the nodes that stand in the table, and answers how many then do.
pub(crate) fn lay(
    stems: &[u8; BYTES],
    stem: usize,
    cells: &mut [u16; CELLS],
    before: usize,
) -> usize
    requires stem_bound { stem ≤ 1_000 }
    requires before_bound { before ≤ 16 }
    ensures { result ≤ before + 4 }
{
    let nodes = nodes_of(stems, stem);
    for node in 0..nodes {
        lay_node(
            stems,
            STEM * stem + 1 + sizes::NODE_CELLS * node,
            cells,
            sizes::NODE_CELLS * (before + node),
            nodes,
            before,
        );
    }
    before + nodes
}
