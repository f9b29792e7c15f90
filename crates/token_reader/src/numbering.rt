// The reader's own table numbered anew into a lent one. All its nodes are one tree's, each second operand straight behind
// its owner and each first operand behind all nodes of the second: passes over the nodes in place of a recursion.
ghost use Rattle.std.specs.Prelude.{◌≡◌, true, [], ◌∷◌, suc, ◌+◌, ◌-◌, ◌*◌, ◌≤◌, ◌<◌, eqb, length};
ghost use Rattle.std.proofs.lemmas.List.Edits.{sets};
ghost use Rattle.laws.specs.Choice.{pick};
ghost use Rattle.tree.specs.Sizes.{node_cells, most_nodes, most_tokens};
ghost use Rattle.tree.specs.Table.{form_at, attributes_at, detail_at, symbol_at};
ghost use Rattle.tree.specs.Trees.{tree_at};
ghost use Rattle.tree_numbering.specs.Numbered.{size, cells_from};
ghost use Rattle.tree_numbering.specs.Renumbering.{renumbered, renumbered_after};
ghost use Rattle.token_reader.specs.Mirrored.{Due, Spanned, Measured, Placeable, numbers_on, stored_on};

use tree::table::Table;
use tree::{offsets, sizes};
use tree_labels::level::level_of;
use tree_numbering::{Unfit, renumber};

// The most nodes of the reader's own table.
const MOST: u16 = sizes::MOST_TOKENS as u16;

// Whether an operand is absent or has the number that is due.
fn is_due(operand: u16, due: u16, nodes: u16) -> bool
    ensures { result ≡ true → Due nodes due operand }
{
    if operand == 0 {
        return true;
    }
    if operand != due {
        return false;
    }
    due <= nodes
}

// Where an operand's numbers stand in an array for the nodes behind the first `base`; 0 where it is absent.
fn place_of(operand: u16, base: u16) -> usize
    requires { 1 ≤ operand → base ≤ operand }
    ensures { result ≡ operand - base }
{
    if operand == 0 {
        return 0;
    }
    (operand - base) as usize
}

// An operand's new number; 0 where it is absent.
fn number_of(operand: u16, number: u16) -> u16
    ensures { result ≡ pick (eqb operand 0) 0 number }
{
    if operand == 0 { 0 } else { number }
}

// How many nodes and levels the tree at a node has, from what its operands have; whether these stand where they are due.
fn measure_one(
    own: &[u16],
    nodes: u16,
    base: u16,
    node: u16,
    spans: &mut [u16],
    heights: &mut [u16],
) -> bool
    requires { Measured own.now nodes base node spans.old heights.old × (base < node) × (node ≤ nodes) × (nodes ≤ most_tokens) × (node_cells * nodes ≤ length own.now) }
    ensures { result ≡ true → Measured own.now nodes base (node - 1) spans.new heights.new }
{
    let cells = sizes::NODE_CELLS * ((node - 1) as usize);
    let first = own[cells + offsets::FIRST];
    let second = own[cells + offsets::SECOND];
    if !is_due(second, node + 1, nodes) {
        return false;
    }
    let two = place_of(second, base);
    let due = node + 1 + spans[two];
    if !is_due(first, due, nodes) {
        return false;
    }
    let one = place_of(first, base);
    let at = place_of(node, base);
    let height = heights[one].max(heights[two]);
    spans[at] = due - node + spans[one];
    heights[at] = level_of(own[cells]) + height;
    true
}

// The same for all nodes behind the first `base`, from the last to the first.
fn measure(own: &[u16], nodes: u16, base: u16, spans: &mut [u16], heights: &mut [u16]) -> bool
    requires { (node_cells * nodes ≤ length own.now) × (nodes ≤ most_tokens) × (base < nodes) × (nodes - base < length spans.old) × (nodes - base < length heights.old) }
    ensures { result ≡ true → Measured own.now nodes base base spans.new heights.new }
{
    spans[0] = 0;
    heights[0] = 0;
    for before in (base..nodes).rev() {
        if !measure_one(own, nodes, base, before + 1, spans, heights) {
            return false;
        }
    }
    true
}

// A node's six cells into the lent table, with its operands' new numbers.
fn put(own: &[u16], node: u16, number: u16, first: u16, second: u16, out: &mut [u16])
    requires { (1 ≤ node) × (node_cells * node ≤ length own.now) × (1 ≤ number) × (node_cells * number ≤ length out.old) }
    ensures { out.new ≡ sets out.old (node_cells * (number - 1)) (form_at own.now node ∷ attributes_at own.now node ∷ detail_at own.now node ∷ first ∷ second ∷ symbol_at own.now node ∷ []) }
{
    let from = sizes::NODE_CELLS * ((node - 1) as usize);
    let to = sizes::NODE_CELLS * ((number - 1) as usize);
    out[to] = own[from];
    out[to + offsets::ATTRIBUTES] = own[from + offsets::ATTRIBUTES];
    out[to + offsets::DETAIL] = own[from + offsets::DETAIL];
    out[to + offsets::FIRST] = first;
    out[to + offsets::SECOND] = second;
    out[to + offsets::SYMBOL] = own[from + offsets::SYMBOL];
}

// The node after the first `done` to its number, which gives those of its operands.
fn place_one(own: &[u16], base: u16, done: u16, spans: &[u16], numbers: &mut [u16], out: &mut [u16])
    requires { Placeable own.now base done spans.now numbers.old out.old }
    ensures numbers { numbers.new ≡ numbers_on own.now base spans.now done numbers.old }
    ensures out { out.new ≡ stored_on own.now base spans.now done numbers.old out.old }
{
    let cells = sizes::NODE_CELLS * (done as usize);
    let first = own[cells + offsets::FIRST];
    let second = own[cells + offsets::SECOND];
    let at = place_of(done + 1, base);
    let number = numbers[at];
    let one = place_of(first, base);
    let two = place_of(second, base);
    let after = number + 1 + spans[one];
    numbers[one] = number + 1;
    numbers[two] = after;
    put(
        own,
        done + 1,
        number,
        number_of(first, number + 1),
        number_of(second, after),
        out,
    );
}

// The same for all nodes of the tree behind the first `base`, from its root on.
fn place(own: &[u16], nodes: u16, base: u16, spans: &[u16], numbers: &mut [u16], out: &mut [u16])
    requires { Spanned own.now nodes base base spans.now × (node_cells * nodes ≤ length own.now) × (nodes ≤ most_tokens) × (base < nodes) × (nodes - base < length numbers.old) × (node_cells * size (tree_at own.now most_tokens (suc base)) ≤ length out.old) }
    ensures { out.new ≡ sets out.old 0 (cells_from 1 (tree_at own.now most_tokens (suc base))) }
{
    numbers[1] = 1;
    let end = base + spans[1];
    for done in base..end {
        place_one(own, base, done, spans, numbers, out);
    }
}

// The tree at the node behind the first `base` into a lent table, with lent arrays.
fn number_by(
    own: &[u16],
    nodes: u16,
    base: u16,
    spans: &mut [u16],
    heights: &mut [u16],
    out: &mut [u16],
) -> Result<u16, Unfit>
    requires { (node_cells * nodes ≤ length own.now) × (nodes ≤ most_tokens) × (base < nodes) × (nodes - base ≤ most_nodes) × (nodes - base < length spans.old) × (nodes - base < length heights.old) }
    ensures reply { result ≡ renumbered (tree_at own.now most_tokens (suc base)) (length out.old) }
    ensures out { out.new ≡ renumbered_after (tree_at own.now most_tokens (suc base)) out.old }
{
    if !measure(own, nodes, base, spans, heights) {
        let table = Table {
            cells: own,
            count: MOST,
        };
        return renumber(&table, base + 1, out);
    }
    if heights[1] > sizes::MOST_LEVELS {
        return Err(Unfit::TooLarge);
    }
    let count = spans[1];
    if out.len() < sizes::NODE_CELLS * (count as usize) {
        return Err(Unfit::TooShort);
    }
    place(own, nodes, base, spans, heights, out);
    Ok(count)
}

// The arrays of fewer than 64 nodes, which are quickly made, and of as many as a table may have.
const FEW: u16 = 64;

const FEW_SPANS: usize = FEW as usize;

const MOST_SPANS: usize = sizes::MOST_NODES as usize + 1;

// The same with arrays of so many numbers.
fn number_within<const SPANS: usize>(
    own: &[u16],
    nodes: u16,
    base: u16,
    out: &mut [u16],
) -> Result<u16, Unfit>
    requires { (node_cells * nodes ≤ length own.now) × (nodes ≤ most_tokens) × (base < nodes) × (nodes - base < SPANS) × (SPANS ≤ most_nodes + 1) }
    ensures reply { result ≡ renumbered (tree_at own.now most_tokens (suc base)) (length out.old) }
    ensures out { out.new ≡ renumbered_after (tree_at own.now most_tokens (suc base)) out.old }
{
    let mut spans = [0u16; SPANS];
    let mut heights = [0u16; SPANS];
    number_by(own, nodes, base, &mut spans, &mut heights, out)
}

// The tree at the node behind the first `base` of the reader's own table into a lent one, numbered from 1.
pub(crate) fn number(own: &[u16], nodes: u16, base: u16, out: &mut [u16]) -> Result<u16, Unfit>
    requires { (node_cells * nodes ≤ length own.now) × (nodes ≤ most_tokens) × (base ≤ nodes) }
    ensures reply { result ≡ renumbered (tree_at own.now most_tokens (suc base)) (length out.old) }
    ensures out { out.new ≡ renumbered_after (tree_at own.now most_tokens (suc base)) out.old }
{
    let count = nodes - base;
    let table = Table {
        cells: own,
        count: MOST,
    };
    if count == 0 {
        return renumber(&table, base + 1, out);
    }
    if count < FEW {
        return number_within::<FEW_SPANS>(own, nodes, base, out);
    }
    if count <= sizes::MOST_NODES {
        return number_within::<MOST_SPANS>(own, nodes, base, out);
    }
    renumber(&table, base + 1, out)
}
