// The refusals 3, 4 and 6 to 11 of a context, a count and the nodes of a source: the first that applies.
ghost use Rattle.std.specs.Prelude.{◌≡◌, false, not, ◌&&◌, ◌||◌, ◌≤◌, ◌<◌, ◌^◌, eqb, ltb, length, get_or};
ghost use Rattle.laws.specs.Each.{some};
ghost use Rattle.tree.specs.Replies.{replied};
ghost use Rattle.tree.specs.Sizes.{most_nodes};
ghost use Rattle.tree.specs.Forms.{expr_block, allowed};
ghost use Rattle.tree.specs.Trees.{tree_at, levels};
ghost use Rattle.tree_source.specs.Source.{cells_of};
ghost use Rattle.tree_rules.specs.Refusals.{refusal4, refusal6, misplaced, empty_numbers, bad_output_of, bad_output, refusal11, first_of, node_refusals, refusal};
ghost use Rattle.tree_rules.specs.Passes.{first_ruled, BrokenWith, BrokenBy, counted, Counted, badly_owned, Levelled};

use super::{FEW, MANY};
use tree::form::Form;
use tree::refusal::Refusal;
use tree::sizes;
use tree::table::operand_of;
use tree_labels::form::{class_of, is_allowed};
use tree_labels::level::level_of;
use tree_places::has_bad_operands;
use tree_source::{Node, Source};

// Whether a count is 0 or above 4,096.
fn is_no_count(count: u16) -> bool
    ensures { result ≡ (eqb count 0 || ltb most_nodes count) }
{
    count == 0 || count > sizes::MOST_NODES
}

// 4: the count is 0 or above 4,096, or the table is shorter than that many nodes.
#[tactic(auto, unfolding(crate::specs::Refusals::refusal4))]
pub fn is_bad_count(count: u16, cells: usize) -> bool
    ensures { result ≡ refusal4 count cells }
{
    is_no_count(count) || cells < sizes::NODE_CELLS * usize::from(count)
}

// The same, of the nodes of a source.
#[tactic(auto, unfolding(crate::specs::Refusals::refusal4))]
pub fn has_bad_count(source: &Source, count: u16) -> bool
    ensures { result ≡ refusal4 count (length (cells_of source.now.file.now source.now.held.now)) }
{
    is_no_count(count) || source.is_short(count)
}

// ---- the rules of one node, by its numbers

fn has_bad_numbers(node: Node) -> bool
    ensures { result ≡ not (allowed node.form node.attributes node.detail node.symbol) }
{
    !is_allowed(node.form, node.attributes, node.detail, node.symbol)
}

// A present operand whose number is not above its owner's, or is above the count.
#[tactic(auto, unfolding(crate::specs::Refusals::misplaced))]
fn is_misplaced(count: u16, node: u16, operand: u16) -> bool
    ensures { result ≡ misplaced count node operand }
{
    operand != 0 && (operand <= node || operand > count)
}

fn has_bad_order(count: u16, node: u16, first: u16, second: u16) -> bool
    ensures { result ≡ (misplaced count node first || misplaced count node second) }
{
    is_misplaced(count, node, first) || is_misplaced(count, node, second)
}

fn is_empty(node: Node) -> bool
    ensures { result ≡ empty_numbers node.form node.detail }
{
    match Form::try_from(node.form) {
        Ok(Form::TypeImplTrait | Form::TypePath | Form::TypeTraitObject) => node.detail == 0,
        _ => false,
    }
}

fn is_plain_block(node: Node) -> bool
    ensures { result ≡ (eqb node.form expr_block && (eqb node.attributes 0 && eqb node.detail 0)) }
{
    node.form == Form::ExprBlock.number() && node.attributes == 0 && node.detail == 0
}

// 10, of a node with these numbers.
#[tactic(auto, unfolding(crate::specs::Refusals::plain_block))]
fn is_output_bad(source: &Source, node: Node) -> bool
    ensures { result ≡ bad_output_of (cells_of source.now.file.now source.now.held.now) node.form node.detail node.first }
{
    if node.form != Form::ExprClosure.number() || node.detail != 1 {
        return false;
    }
    !is_plain_block(source.node_at(node.first))
}

// The same, of a node.
#[tactic(auto, unfolding(crate::specs::Refusals::bad_output))]
pub fn has_bad_output(source: &Source, node: u16) -> bool
    ensures { result ≡ bad_output (cells_of source.now.file.now source.now.held.now) node }
{
    is_output_bad(source, source.node_at(node))
}

// ---- what some node breaks

#[derive(Clone, Copy, Debug)]
struct Broken {
    // 6: a number that is not allowed. Then the others are not known.
    numbers: bool,
    // 7: an operand that does not fit its place.
    operands: bool,
    // 8: an operand that does not come after its owner, or is above the count.
    order: bool,
    // 9: a path without a segment, or bounds without a bound.
    empty: bool,
    // 10: a closure with an output and without a plain block.
    output: bool,
}

// What no node breaks.
const NOTHING: Broken = Broken {
    numbers: false,
    operands: false,
    order: false,
    empty: false,
    output: false,
};

// What some node breaks, with one node more, whose numbers are allowed.
fn broken_with(broken: Broken, source: &Source, count: u16, node: u16, numbers: Node) -> Broken
    ensures { BrokenWith broken (cells_of source.now.file.now source.now.held.now) count node numbers result }
{
    let operands = has_bad_operands(source, count, numbers);
    let order = has_bad_order(count, node, numbers.first, numbers.second);
    let empty = is_empty(numbers);
    let output = is_output_bad(source, numbers);
    Broken {
        numbers: false,
        operands: broken.operands || operands,
        order: broken.order || order,
        empty: broken.empty || empty,
        output: broken.output || output,
    }
}

// One more owner for an operand.
#[tactic(auto, unfolding(crate::specs::Passes::counted, laws::specs::Choice::pick))]
fn count_owner(owners: &mut [u16], operand: u16)
    requires { get_or owners.old operand 0 < 65535 }
    ensures { owners.new ≡ counted owners.old operand }
{
    let at = usize::from(operand);
    if at < owners.len() {
        owners[at] += 1;
    }
}

// What some node breaks, and where all numbers are allowed how many owners each node has, with an array of zeros.
fn broken_rules(source: &Source, count: u16, owners: &mut [u16]) -> Broken
    requires { (count ≤ most_nodes) × Counted (cells_of source.now.file.now source.now.held.now) 0 owners.old }
    ensures numbers_value { result.numbers ≡ refusal6 (cells_of source.now.file.now source.now.held.now) count }
    ensures broken_by { result.numbers ≡ false → BrokenBy (cells_of source.now.file.now source.now.held.now) count count result × Counted (cells_of source.now.file.now source.now.held.now) count owners.new }
    ensures owners_len_unchanged { length owners.new ≡ length owners.old }
{
    let mut broken = NOTHING;
    for done in 0..count {
        let numbers = source.node_at(done + 1);
        if has_bad_numbers(numbers) {
            return Broken {
                numbers: true,
                ..NOTHING
            };
        }
        broken = broken_with(broken, source, count, done + 1, numbers);
        count_owner(owners, numbers.first);
        count_owner(owners, numbers.second);
    }
    broken
}

// Whether a node but 1 is not owned exactly once.
#[tactic(auto, unfolding(crate::specs::Passes::badly_owned))]
fn is_badly_owned(owners: &[u16], node: u16) -> bool
    requires { node < length owners.now }
    ensures { result ≡ badly_owned owners.now node }
{
    node != 1 && owners[usize::from(node)] != 1
}

fn some_badly_owned(owners: &[u16], count: u16) -> bool
    requires { count < length owners.now }
    ensures { result ≡ some (badly_owned owners.now) count }
{
    for done in 0..count {
        if is_badly_owned(owners, done + 1) {
            return true;
        }
    }
    false
}

// The first of 6 to 10 that applies, with an array of zeros.
fn first_broken(source: &Source, count: u16, owners: &mut [u16]) -> Result<(), Refusal>
    requires { (count ≤ most_nodes) × (count < length owners.old) × Counted (cells_of source.now.file.now source.now.held.now) 0 owners.old }
    ensures { result ≡ replied (first_ruled count (cells_of source.now.file.now source.now.held.now)) tt }
{
    let broken = broken_rules(source, count, owners);
    if broken.numbers {
        return Err(Refusal::Numbers);
    }
    if class_of(source.form_at(1)) != 1 {
        return Err(Refusal::Operands);
    }
    if broken.operands {
        return Err(Refusal::Operands);
    }
    if broken.order {
        return Err(Refusal::Order);
    }
    if some_badly_owned(owners, count) {
        return Err(Refusal::Order);
    }
    if broken.empty {
        return Err(Refusal::Empty);
    }
    if broken.output {
        return Err(Refusal::Output);
    }
    Ok(())
}

// The same, with an array of so many cells.
fn first_broken_by<const CELLS: usize>(source: &Source, count: u16) -> Result<(), Refusal>
    requires nodes { (count ≤ most_nodes) × (count < CELLS) }
    requires small { CELLS < 2 ^ 20 }
    ensures { result ≡ replied (first_ruled count (cells_of source.now.file.now source.now.held.now)) tt }
{
    let mut owners = [0u16; CELLS];
    first_broken(source, count, &mut owners)
}

// The same, with an array as long as it takes.
fn first_broken_of_nodes(source: &Source, count: u16) -> Result<(), Refusal>
    requires { count ≤ most_nodes }
    ensures { result ≡ replied (first_ruled count (cells_of source.now.file.now source.now.held.now)) tt }
{
    if count < 64 {
        return first_broken_by::<FEW>(source, count);
    }
    first_broken_by::<MANY>(source, count)
}

// ---- 11

// How many nodes the longest path from a node holds, from those of the nodes after it.
fn levels_at(source: &Source, count: u16, node: u16, below: &[u16]) -> u16
    requires { (1 ≤ node) × (node ≤ count) × (count ≤ most_nodes) × Levelled (cells_of source.now.file.now source.now.held.now) count node below.now }
    ensures { result ≡ levels (tree_at (cells_of source.now.file.now source.now.held.now) count node) }
{
    let numbers = source.node_at(node);
    let first = usize::from(operand_of(count, node, numbers.first));
    let second = usize::from(operand_of(count, node, numbers.second));
    level_of(numbers.form) + below[first].max(below[second])
}

// Whether a path from node 1 holds more than 128 nodes: from the last node to the first, as operands come after their owners.
fn is_too_deep(source: &Source, count: u16, below: &mut [u16]) -> bool
    requires { (1 ≤ count) × (count ≤ most_nodes) × Levelled (cells_of source.now.file.now source.now.held.now) count count below.old }
    ensures { result ≡ refusal11 (cells_of source.now.file.now source.now.held.now) count }
{
    for done in (0..count).rev() {
        let node = done + 1;
        below[usize::from(node)] = levels_at(source, count, node, below);
    }
    below[1] > sizes::MOST_LEVELS
}

// The same, with an array of so many cells.
fn is_too_deep_by<const CELLS: usize>(source: &Source, count: u16) -> bool
    requires nodes { (1 ≤ count) × (count ≤ most_nodes) × (count < CELLS) }
    requires small { CELLS < 2 ^ 20 }
    ensures { result ≡ refusal11 (cells_of source.now.file.now source.now.held.now) count }
{
    let mut below = [0u16; CELLS];
    is_too_deep(source, count, &mut below)
}

// The same, with an array as long as it takes.
fn are_too_deep(source: &Source, count: u16) -> bool
    requires { (1 ≤ count) × (count ≤ most_nodes) }
    ensures { result ≡ refusal11 (cells_of source.now.file.now source.now.held.now) count }
{
    if count < 64 {
        return is_too_deep_by::<FEW>(source, count);
    }
    is_too_deep_by::<MANY>(source, count)
}

// ---- the first that applies

// The first of 6 to 11 that applies: 6 to 10 by one pass over the nodes, 11 by another.
fn find_refusal(source: &Source, count: u16) -> Result<(), Refusal>
    requires { (1 ≤ count) × (count ≤ most_nodes) }
    ensures { result ≡ replied (first_of (node_refusals count (cells_of source.now.file.now source.now.held.now))) tt }
{
    first_broken_of_nodes(source, count)?;
    if are_too_deep(source, count) {
        return Err(Refusal::Depth);
    }
    Ok(())
}

// The first refusal that applies to a context, a count and the nodes of a source.
pub fn check(context: u16, count: u16, source: &Source) -> Result<(), Refusal>
    ensures { result ≡ replied (refusal context count (cells_of source.now.file.now source.now.held.now)) tt }
{
    if context > 3 {
        return Err(Refusal::Context);
    }
    if has_bad_count(source, count) {
        return Err(Refusal::Count);
    }
    find_refusal(source, count)
}
