// Where the numbers of nodes stand: in a node table, or still in a tree file.
#![tactic(auto)]

ghost use Rattle.std.specs.Prelude.{◌≡◌, ◌||◌, ◌∷◌, ◌+◌, ◌*◌, ◌-◌, ◌≤◌, ◌<◌, eqb, ltb, length, get_or};
ghost use Rattle.tree.specs.Sizes.{node_cells};
ghost use Rattle.tree.specs.Table.{form_at};
ghost use Rattle.tree_source.specs.Source.{value_at, next_at, behind_header, cells_of};
ghost use Rattle.tree_source.specs.Nodes.{NodeAt, NodeFrom, QuickFrom};

use file_numbers::number_at;
use tree::table::cell;
use tree::{columns, sizes};

// ---- numbers of a file

// A number of a file, and the place after it; zeros where it is malformed, no Option: a node's six are read on without a look at any.
#[derive(Clone, Copy, Debug)]
struct Reading {
    value: u16,
    next: usize,
}

const MALFORMED: Reading = Reading { value: 0, next: 0 };

fn step(file: &[u8], at: usize) -> Reading
    ensures { (result.value ≡ value_at file.now at) × (result.next ≡ next_at file.now at) }
{
    let Some((value, next)) = number_at(file, at) else {
        return MALFORMED;
    };
    Reading { value, next }
}

// The same where three bytes are left.
fn near_at(file: &[u8], at: usize) -> Reading
    requires { at + 2 < length file.now }
    ensures { (result.value ≡ value_at file.now at) × (result.next ≡ next_at file.now at) × (result.next ≤ at + 3) }
{
    let low = u16::from(file[at]);
    if low < 128 {
        return Reading {
            value: low,
            next: at + 1,
        };
    }
    let middle = u16::from(file[at + 1]);
    if middle == 0 {
        return MALFORMED;
    }
    if middle < 128 {
        return Reading {
            value: (low - 128) + 128 * middle,
            next: at + 2,
        };
    }
    let high = u16::from(file[at + 2]);
    if high == 0 || high > 3 {
        return MALFORMED;
    }
    Reading {
        value: (low - 128) + 128 * (middle - 128) + 16384 * high,
        next: at + 3,
    }
}

// The place behind the header.
fn start(file: &[u8]) -> usize
    ensures { result ≡ behind_header file.now }
{
    let context = step(file, 0);
    let count = step(file, context.next);
    count.next
}

// ---- nodes

// The six numbers of a node.
#[derive(Clone, Copy, Debug, PartialEq, Eq)]
pub struct Node {
    pub form: u16,
    pub attributes: u16,
    pub detail: u16,
    pub first: u16,
    pub second: u16,
    pub symbol: u16,
}

// Those of no node.
const NONE: Node = Node {
    form: 0,
    attributes: 0,
    detail: 0,
    first: 0,
    second: 0,
    symbol: 0,
};

// Those from a place of a file on.
fn node_from(file: &[u8], at: usize) -> Node
    ensures { NodeFrom file.now at result }
{
    let form = step(file, at);
    let attributes = step(file, form.next);
    let detail = step(file, attributes.next);
    let first = step(file, detail.next);
    let second = step(file, first.next);
    let symbol = step(file, second.next);
    Node {
        form: form.value,
        attributes: attributes.value,
        detail: detail.value,
        first: first.value,
        second: second.value,
        symbol: symbol.value,
    }
}

// The bytes that a node has at most whose form, attributes and detail are a byte each.
pub const QUICK_BYTES: usize = 12;

// Those from a place of a file on, where so many bytes are left and the first three numbers are small, as they are in accepted files.
pub fn quick_from(file: &[u8], place: u16) -> Option<Node>
    ensures { QuickFrom file.now place result }
{
    let at = usize::from(place);
    if file.len() < at + QUICK_BYTES {
        return None;
    }
    let form = u16::from(file[at]);
    let attributes = u16::from(file[at + 1]);
    let detail = u16::from(file[at + 2]);
    if 127 < form + attributes + detail {
        return None;
    }
    let first = near_at(file, at + 3);
    let second = near_at(file, first.next);
    let symbol = near_at(file, second.next);
    Some(Node {
        form,
        attributes,
        detail,
        first: first.value,
        second: second.value,
        symbol: symbol.value,
    })
}

// Those of a node of a table; zeros outside.
fn node_in(table: &[u16], node: u16) -> Node
    ensures { NodeAt table.now node result }
{
    Node {
        form: cell(table, node, columns::FORM),
        attributes: cell(table, node, columns::ATTRIBUTES),
        detail: cell(table, node, columns::DETAIL),
        first: cell(table, node, columns::FIRST),
        second: cell(table, node, columns::SECOND),
        symbol: cell(table, node, columns::SYMBOL),
    }
}

// ---- sources

// A file and cells. Without a file, that is with one of no bytes, the cells are the table. With a file they are places in it,
// where each node but the first begins; the first begins behind the header.
#[derive(Clone, Copy, Debug)]
pub struct Source<'a> {
    pub file: &'a [u8],
    pub held: &'a [u16],
}

impl<'a> Source<'a> {
    // Whether a node of a file has no place.
    fn is_outside(&self, node: u16) -> bool
        ensures { result ≡ (eqb node 0 || ltb (length self.now.held.now + 1) node) }
    {
        node == 0 || self.held.len() + 1 < usize::from(node)
    }

    // The place of a node's first byte.
    fn place_of(&self, node: u16) -> usize
        requires { (1 ≤ node) × (node ≤ length self.now.held.now + 1) }
        ensures { result ≡ get_or (behind_header self.now.file.now ∷ self.now.held.now) (node - 1) 0 }
    {
        if node == 1 {
            return start(self.file);
        }
        usize::from(self.held[usize::from(node - 2)])
    }

    // The numbers of a node; zeros outside.
    pub fn node_at(&self, node: u16) -> Node
        ensures { NodeAt (cells_of self.now.file.now self.now.held.now) node result }
    {
        if self.file.is_empty() {
            return node_in(self.held, node);
        }
        if self.is_outside(node) {
            return NONE;
        }
        node_from(self.file, self.place_of(node))
    }

    // The form alone, which in a file is the first number that is read.
    pub fn form_at(&self, node: u16) -> u16
        ensures { result ≡ form_at (cells_of self.now.file.now self.now.held.now) node }
    {
        if self.file.is_empty() {
            return cell(self.held, node, columns::FORM);
        }
        if self.is_outside(node) {
            return 0;
        }
        let form = step(self.file, self.place_of(node));
        form.value
    }

    // Whether there are fewer nodes.
    pub fn is_short(&self, count: u16) -> bool
        ensures { result ≡ ltb (length (cells_of self.now.file.now self.now.held.now)) (node_cells * count) }
    {
        if self.file.is_empty() {
            return self.held.len() < sizes::NODE_CELLS * usize::from(count);
        }
        self.held.len() + 1 < usize::from(count)
    }
}
