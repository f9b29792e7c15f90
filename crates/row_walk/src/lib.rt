// The rows of all nodes of an accepted tree.
#![tactic(auto)]

mod handing; // handing.rt: what an owner hands to an operand

ghost use Rattle.std.specs.Prelude.{◌≡◌, not, ◌*◌, ◌≤◌, length};
ghost use Rattle.tree.specs.Sizes.{row_cells, most_levels};
ghost use Rattle.tree.specs.Replies.{replied};
ghost use Rattle.tree.specs.Trees.{tree_at};
ghost use Rattle.expr.specs.declared.order.CalleeOrder.TheVariants.{Ours};
ghost use Rattle.row_pack.specs.Packs.{packed_of};
ghost use Rattle.row.specs.Rows.{zeros, is_expression, row_of, own_context, rows_of};
ghost use Rattle.row.specs.Steps.{alone};
ghost use Rattle.row.specs.Hands.{hand_of, handed_of};
ghost use Rattle.row_walk.specs.Numbers.{reply_number};
ghost use Rattle.row_walk.specs.Stack.{within};
ghost use Rattle.row_walk.specs.Walk.{context_numbered, root_handed, row_stored, placed, walked_after, decided, rows_after};

use expr::Handed;
use expr::order::CalleeOrder;
use fixup::context::FixupContext;
use handing::{first_hand, second_hand};
use row::hand::{CONTEXTS, hand_of};
use row::{Row, decision_of, lone_row};
use tree::refusal::Refusal;
use tree::table::Table;
use tree::{columns, sizes};
use tree_labels::form::class_of;
use tree_one_pass::check;

// The entries of the walk's stack.
const ENTRIES: usize = sizes::MOST_LEVELS as usize;

// The row of a type or a link.
fn no_row() -> Row
    ensures { result ≡ zeros }
{
    Row {
        pair: 0,
        precedence: 0,
        previous: 0,
        next: 0,
        flags: 0,
    }
}

// A row into the five cells of its node.
#[tactic(auto, unfolding(crate::specs::Walk::row_stored))]
fn store(rows: &mut [u16], node: u16, row: Row)
    requires { (1 ≤ node) × (row_cells * node ≤ length rows.old) }
    ensures { rows.new ≡ row_stored node row rows.old }
{
    let at = sizes::ROW_CELLS * usize::from(node - 1);
    rows[at] = row.pair;
    rows[at + 1] = row.precedence;
    rows[at + 2] = row.previous;
    rows[at + 3] = row.next;
    rows[at + 4] = row.flags;
}

// Whether a node is a type or a link, or no node at all.
fn is_other(table: &Table, node: u16) -> bool
    ensures { result ≡ not (is_expression (tree_at table.now.cells.now table.now.count node)) }
{
    class_of(table.form_number(node)) != 1
}

// The row of a node that no owner tests, in NONE, into its cells.
fn enter_alone(table: &Table, node: u16, rows: &mut [u16])
    requires { (1 ≤ node) × (node ≤ table.now.count) × (row_cells * table.now.count ≤ length rows.old) }
    ensures { rows.new ≡ row_stored node (row_of (alone (tree_at table.now.cells.now table.now.count node)) (tree_at table.now.cells.now table.now.count node)) rows.old }
{
    if is_other(table, node) {
        store(rows, node, no_row());
        return;
    }
    store(rows, node, lone_row(table, node));
}

// The row of a node into its cells: its own context, packed; NONE is 0.
fn enter(hand: u32, table: &Table, node: u16, rows: &mut [u16]) -> u32
    requires { (1 ≤ node) × (node ≤ table.now.count) × (row_cells * table.now.count ≤ length rows.old) }
    ensures own { result ≡ packed_of (own_context (handed_of hand) (tree_at table.now.cells.now table.now.count node)) }
    ensures rows { rows.new ≡ row_stored node (row_of (handed_of hand) (tree_at table.now.cells.now table.now.count node)) rows.old }
{
    if is_other(table, node) {
        store(rows, node, no_row());
        return 0;
    }
    let decision = decision_of(hand, table, node);
    let row = decision.row;
    store(rows, node, row);
    if decision.outer {
        return 0;
    }
    hand % CONTEXTS
}

// The rows of the root and of all below it. An entry is an owner whose second operand waits while what is below its first is walked, with the owner's own context. Where `lone` holds no owner tests the node, and `hand` is not looked at; it is 0 there, because a compiler unpacks a number that stays the same before it knows whether anyone asks. Operands are numbers here, 0 for none: both are tested in each turn, and what is tested goes to the stack and the next turn as it is.
fn walk_from(order: CalleeOrder, root: u32, table: &Table, rows: &mut [u16])
    requires { (1 ≤ table.now.count) × (row_cells * table.now.count ≤ length rows.old) }
    ensures { rows.new ≡ placed table.now.cells.now table.now.count 1 (within most_levels (rows_of order (handed_of root) (tree_at table.now.cells.now table.now.count 1))) rows.old }
{
    let mut nodes = [0u16; ENTRIES];
    let mut contexts = [0u32; ENTRIES];
    let mut depth: usize = 0;
    let mut hand = root;
    let mut lone = false;
    let mut at: u16 = 1;
    loop {
        let mut own: u32 = 0;
        if lone {
            enter_alone(table, at, rows);
        } else {
            own = enter(hand, table, at, rows);
        }
        let first = table.operand_number(at, columns::FIRST);
        let second = table.operand_number(at, columns::SECOND);
        if first != 0 {
            if second != 0 && depth < ENTRIES {
                nodes[depth] = at;
                contexts[depth] = own;
                depth += 1;
            }
            if is_other(table, at) {
                lone = true;
                hand = 0;
                at = first;
                continue;
            }
            lone = false;
            hand = first_hand(order, own, table, at, first);
            at = first;
            continue;
        }
        if second != 0 {
            lone = false;
            hand = second_hand(own, table, at, second);
            at = second;
            continue;
        }
        if depth == 0 {
            break;
        }
        depth -= 1;
        let owner = nodes[depth];
        at = table.operand_number(owner, columns::SECOND);
        if is_other(table, at) {
            lone = true;
            hand = 0;
            continue;
        }
        let kept = contexts[depth];
        lone = false;
        hand = second_hand(kept, table, owner, at);
    }
}

// Document 01's contexts; NONE for every other number.
#[tactic(auto, unfolding(crate::specs::Walk::context_numbered, crate::specs::Walk::contexts, laws::specs::Choice::lookup, laws::specs::Choice::pick))]
fn context_numbered(context: u16) -> FixupContext
    ensures { result ≡ context_numbered context }
{
    match context {
        1 => FixupContext::new_stmt(),
        2 => FixupContext::new_match_arm(),
        3 => FixupContext::new_condition(),
        _ => FixupContext::none(),
    }
}

// The root has no owner, and no test.
#[tactic(auto, unfolding(expr::specs::Handed::neither, expr::specs::Handed::ungrouped))]
fn root_handed(context: u16, table: &Table) -> Handed
    ensures { result ≡ root_handed context (tree_at table.now.cells.now table.now.count 1) }
{
    let fixup = context_numbered(context);
    Handed {
        precedence: fixup.precedence(table, 1),
        fixup,
        needs_group: false,
    }
}

// That in one number; in context 0, which most trees have, without a context that is packed.
fn root_hand(context: u16, table: &Table) -> u32
    ensures { result ≡ hand_of (root_handed context (tree_at table.now.cells.now table.now.count 1)) }
{
    if context == 0 {
        let none = FixupContext::none();
        let precedence = none.precedence(table, 1);
        return CONTEXTS * u32::from(precedence.rank());
    }
    hand_of(root_handed(context, table))
}

// The rows of all nodes of a table whose rules nobody checks here; where `rows` is too short for them, it stays. A node with several owners is walked once for each path to it, and a second operand for which no entry is left is not walked: no accepted table has either.
pub fn walk(order: CalleeOrder, context: u16, count: u16, table: &[u16], rows: &mut [u16])
    ensures { rows.new ≡ walked_after order context count table.now rows.old }
{
    if rows.len() < sizes::ROW_CELLS * usize::from(count) {
        return;
    }
    if count == 0 {
        return;
    }
    let table = Table {
        cells: table,
        count,
    };
    let hand = root_hand(context, &table);
    walk_from(order, hand, &table, rows);
}

// The rows of all nodes of a table into `rows`, in a callee order, or the first refusal that applies.
pub fn decide_by(
    order: CalleeOrder,
    context: u16,
    count: u16,
    table: &[u16],
    rows: &mut [u16],
) -> Result<(), Refusal>
    ensures reply { result ≡ replied (decided context count table.now (length rows.old)) tt }
    ensures rows { rows.new ≡ rows_after order context count table.now rows.old }
{
    check(context, count, table)?;
    let nodes = usize::from(count);
    if rows.len() < sizes::ROW_CELLS * nodes {
        return Err(Refusal::Short);
    }
    walk(order, context, count, table, rows);
    Ok(())
}

// The same in our order.
pub fn decide(context: u16, count: u16, table: &[u16], rows: &mut [u16]) -> Result<(), Refusal>
    ensures reply { result ≡ replied (decided context count table.now (length rows.old)) tt }
    ensures rows { rows.new ≡ rows_after Ours context count table.now rows.old }
{
    decide_by(CalleeOrder::Ours, context, count, table, rows)
}

// A reply as one number, for callers in C: 0, or the refusal's.
pub fn reply_number(answer: Result<(), Refusal>) -> u16
    ensures { result ≡ reply_number answer }
{
    match answer {
        Ok(()) => 0,
        Err(refusal) => refusal.number(),
    }
}
