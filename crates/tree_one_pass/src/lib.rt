// The refusals 3, 4 and 6 to 11 of a context, a count and the nodes of a source: nothing is refused in most, which one pass over the nodes finds out; the same pass finds 11.
#![tactic(auto)]

mod marks; // marks.rt: what the pass knows of a node
mod rows; // rows.rt: what the pass knows of a form

ghost use Rattle.std.specs.Prelude.{◌≡◌, true, ℕ, ◌+◌, ◌*◌, ◌≤◌, ◌<◌, ◌^◌, length, get_or, IfSome};
ghost use Rattle.tree.specs.Replies.{replied};
ghost use Rattle.tree.specs.Sizes.{node_cells, most_nodes};
ghost use Rattle.tree_rules.specs.Refusals.{first_of, node_refusals, refusal};
ghost use Rattle.tree_source.specs.Source.{cells_of};
ghost use Rattle.tree_source.specs.Nodes.{NodeAt};
ghost use Rattle.tree_one_pass.specs.Marks.{Marks, by_levels};

use marks::{TAKEN, mark_with, take};
use rows::{rare_row, row_of};
use tree::refusal::Refusal;
use tree::{offsets, sizes};
use tree_labels::form::is_symbol_allowed;
use tree_rules::refusal::has_bad_count;
use tree_source::{Node, Source, quick_from};

// Marks of fewer nodes, in an array that is quickly made.
const FEW: usize = 64;
// Marks of up to 4,096 nodes.
const MANY: usize = sizes::MOST_NODES as usize + 1;

// The numbers of a node that is there; those of a table without a look at its length, those of a file quickly where
// that can be. The file and what is held of it apart: behind a `&Source` each turn of the pass reads both anew.
fn numbers_at(file: &[u8], held: &[u16], node: u16) -> Node
    requires { (1 ≤ node) × (node_cells * node ≤ length (cells_of file.now held.now)) }
    ensures { NodeAt (cells_of file.now held.now) node result }
{
    if !file.is_empty() {
        if node != 1 {
            let place = held[usize::from(node) - 2];
            if let Some(quick) = quick_from(file, place) {
                return quick;
            }
        }
        let source = Source { file, held };
        return source.node_at(node);
    }
    let at = sizes::NODE_CELLS * usize::from(node - 1);
    Node {
        form: held[at],
        attributes: held[at + offsets::ATTRIBUTES],
        detail: held[at + offsets::DETAIL],
        first: held[at + offsets::FIRST],
        second: held[at + offsets::SECOND],
        symbol: held[at + offsets::SYMBOL],
    }
}

// The mark of a node with these numbers whose operands have these marks; 0 where a rule is broken, as marks are numbers here (marks.rt).
fn mark_at(source: &Source, node: u16, numbers: Node, one: u16, two: u16) -> u16
    requires { NodeAt (cells_of source.now.file.now source.now.held.now) node numbers × (one ≤ 40000) × (two ≤ 40000) }
    ensures { (result ≡ 0 → ⊥) → Marks (cells_of source.now.file.now source.now.held.now) node one two result }
{
    let form = numbers.form;
    let attributes = numbers.attributes;
    let detail = numbers.detail;
    if !is_symbol_allowed(form, detail, numbers.symbol) {
        return 0;
    }
    let mark = mark_with(row_of(form), attributes, detail, one, two);
    if mark != 0 {
        return mark;
    }
    mark_with(
        rare_row(source, node, form, detail),
        attributes,
        detail,
        one,
        two,
    )
}

// Whether each node but 1 has been taken by an owner.
fn all_taken(marks: &[u16], count: u16) -> bool
    requires { (count ≤ most_nodes) × (count < length marks.now) }
    ensures { result ≡ true → (j : ℕ) → 2 ≤ j → j ≤ count → get_or marks.now j 0 ≡ 0 }
{
    let mut left: u16 = 0;
    for done in 1..count {
        left |= marks[usize::from(done) + 1];
    }
    left == 0
}

// How many nodes the longest path from node 1 holds, where it is certain that none of 6 to 10 applies. From the last node to the first, as operands come after their owners.
fn sound_levels(source: &Source, count: u16, marks: &mut [u16]) -> Option<u16>
    requires { (1 ≤ count) × (count ≤ most_nodes) × (node_cells * count ≤ length (cells_of source.now.file.now source.now.held.now)) × (count < length marks.old) × ((j : ℕ) → get_or marks.old j 0 ≡ 0) }
    ensures { IfSome result (λ levels. first_of (node_refusals count (cells_of source.now.file.now source.now.held.now)) ≡ by_levels levels) }
{
    let Source { file, held } = *source;
    for done in (0..count).rev() {
        let node = done + 1;
        let numbers = numbers_at(file, held, node);
        let one = take(marks, count, numbers.first);
        if one == TAKEN {
            return None;
        }
        let two = take(marks, count, numbers.second);
        if two == TAKEN {
            return None;
        }
        let mark = mark_at(source, node, numbers, one, two);
        if mark == 0 {
            return None;
        }
        marks[usize::from(node)] = mark;
    }
    let root = marks[1];
    if root % 8 != 1 {
        return None;
    }
    if !all_taken(marks, count) {
        return None;
    }
    Some(root / 8)
}

// The same, with an array of so many marks.
fn levels_by<const CELLS: usize>(source: &Source, count: u16) -> Option<u16>
    requires nodes { (1 ≤ count) × (count ≤ most_nodes) × (count < CELLS) × (node_cells * count ≤ length (cells_of source.now.file.now source.now.held.now)) }
    requires small { CELLS < 2 ^ 20 }
    ensures { IfSome result (λ levels. first_of (node_refusals count (cells_of source.now.file.now source.now.held.now)) ≡ by_levels levels) }
{
    let mut marks = [0u16; CELLS];
    sound_levels(source, count, &mut marks)
}

// The same, where it is certain that none but 11 applies to a context, a count and the nodes of a source.
fn quick_levels(context: u16, count: u16, source: &Source) -> Option<u16>
    ensures { IfSome result (λ levels. refusal context count (cells_of source.now.file.now source.now.held.now) ≡ by_levels levels) }
{
    if context > 3 {
        return None;
    }
    if has_bad_count(source, count) {
        return None;
    }
    if count < 64 {
        return levels_by::<FEW>(source, count);
    }
    levels_by::<MANY>(source, count)
}

// The first refusal that applies to a context, a count and the nodes of a source.
pub fn check_source(context: u16, count: u16, source: &Source) -> Result<(), Refusal>
    ensures { result ≡ replied (refusal context count (cells_of source.now.file.now source.now.held.now)) tt }
{
    let Some(levels) = quick_levels(context, count, source) else {
        return tree_rules::refusal::check(context, count, source);
    };
    if sizes::MOST_LEVELS < levels {
        return Err(Refusal::Depth);
    }
    Ok(())
}

// The first refusal that applies to a context, a count and a table.
pub fn check(context: u16, count: u16, table: &[u16]) -> Result<(), Refusal>
    ensures { result ≡ replied (refusal context count table.now) tt }
{
    let source = Source {
        file: b"",
        held: table,
    };
    check_source(context, count, &source)
}
