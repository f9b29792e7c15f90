// The pairs of a tree some of whose operators are not chosen yet: over all choices, which stand always, never, or as is chosen.
#![tactic(auto)]

ghost use Rattle.std.specs.Prelude.{◌≡◌, ◌+◌, ◌*◌, ◌-◌, ◌^◌, ◌≤◌, ◌<◌, length, take, replicate};
ghost use Rattle.laws.specs.Choice.{is_one_of};
ghost use Rattle.laws.specs.Lists.{over};
ghost use Rattle.tree.specs.Sizes.{node_cells, row_cells};
ghost use Rattle.tree.specs.Table.{detail_column};
ghost use Rattle.tree.specs.Replies.{replied};
ghost use Rattle.row_open.specs.Open.{entry_cells, last_binary, entry_at, entries_in, outer_in, has_outer, answer_number, nodes_of, refusal21, refusal22, entry_refusal, draft_of, open_refusal, answers_of, answers_after};
ghost use Rattle.row_open.specs.Steps.{joined, joined_to, previous, is_new, Next, Varies, Within, Room, Shallow, Taken};

use expr::order::CalleeOrder;
use row_walk::walk;
use tree::refusal::Refusal;
use tree::table::Table;
use tree::{forms, offsets, sizes};
use tree_one_pass::check;

// The numbers of an entry: its node, its lowest and its highest operator.
const ENTRY_CELLS: usize = 3;

// Where its ends stand, behind its node.
const LOWEST: usize = 1;

const HIGHEST: usize = 2;

// The most entries.
const MOST_ENTRIES: u16 = 3;

// The last operator of a Binary.
const LAST_BINARY: u16 = 27;

// The cell of a node of which no choice has been asked yet: a number, since the cells are the lent answers'.
const UNASKED: u16 = 3;

// The cells of own tables, and of own rows, for trees of fewer than 64 nodes, of fewer than 512, and for all.
const SMALL: usize = sizes::NODE_CELLS * 64;

const SMALL_ROWS: usize = sizes::ROW_CELLS * 64;

const MEDIUM: usize = sizes::NODE_CELLS * 512;

const MEDIUM_ROWS: usize = sizes::ROW_CELLS * 512;

const LARGE: usize = sizes::NODE_CELLS * (sizes::MOST_NODES as usize);

const LARGE_ROWS: usize = sizes::ROW_CELLS * (sizes::MOST_NODES as usize);

// Whether an expression has the outer pair: whatever is chosen, or not, or as is chosen.
#[derive(Clone, Copy, Debug, PartialEq, Eq)]
pub enum Answer {
    Never,
    Always,
    Depends,
}

impl Answer {
    // By a match, so that a wrong number is refused by a fact: two variants can't share one.
    pub fn number(self) -> u16
        ensures { result ≡ answer_number self }
    {
        match self {
            Answer::Never => 0,
            Answer::Always => 1,
            Answer::Depends => 2,
        }
    }
}

// ---- the entries

// An open operator: its node, and the lowest and the highest operator that it may be.
#[derive(Clone, Copy, Debug, PartialEq, Eq)]
struct Entry {
    node: u16,
    lowest: u16,
    highest: u16,
}

// The entry at a place, from 0.
fn entry_at(entries: &[u16], place: u16) -> Entry
    requires { entry_cells * place + 2 < length entries.now }
    ensures { result ≡ entry_at entries.now place }
{
    let at = ENTRY_CELLS * usize::from(place);
    Entry {
        node: entries[at],
        lowest: entries[at + LOWEST],
        highest: entries[at + HIGHEST],
    }
}

// Whether a node is one of the first entries'.
fn is_entered(node: u16, entered: u16, entries: &[u16]) -> bool
    requires { entry_cells * entered ≤ length entries.now }
    ensures { result ≡ is_one_of (nodes_of (entries_in entered entries.now)) node }
{
    for left in (0..entered).rev() {
        let entry = entry_at(entries, left);
        if entry.node == node {
            return true;
        }
    }
    false
}

// 21: whether an entry's node is no Binary or is entered twice.
fn has_wrong_node(table: &Table, entered: u16, entries: &[u16]) -> bool
    requires { entry_cells * entered ≤ length entries.now }
    ensures { result ≡ refusal21 table.now.cells.now table.now.count (entries_in entered entries.now) }
{
    for left in (0..entered).rev() {
        let entry = entry_at(entries, left);
        let node = entry.node;
        if table.form_number(node) != forms::EXPR_BINARY {
            return true;
        }
        if is_entered(node, left, entries) {
            return true;
        }
    }
    false
}

// 22: whether an entry's lowest is above its highest, or its highest is no operator.
fn has_wrong_ends(entered: u16, entries: &[u16]) -> bool
    requires { entry_cells * entered ≤ length entries.now }
    ensures { result ≡ refusal22 (entries_in entered entries.now) }
{
    for left in (0..entered).rev() {
        let entry = entry_at(entries, left);
        if entry.highest < entry.lowest {
            return true;
        }
        if LAST_BINARY < entry.highest {
            return true;
        }
    }
    false
}

// ---- buffers

// One number over the start of a buffer.
#[tactic(auto, unfolding(laws::specs::Lists::over))]
fn fill(buffer: &mut [u16], cells: usize, number: u16)
    requires { cells ≤ length buffer.old }
    ensures { buffer.new ≡ over (replicate cells number) buffer.old }
{
    buffer[..cells].fill(number);
}

// The start of one buffer over that of another.
#[tactic(auto, unfolding(laws::specs::Lists::over))]
fn copy(from: &[u16], cells: usize, to: &mut [u16])
    requires { (cells ≤ length from.now) × (cells ≤ length to.old) }
    ensures { to.new ≡ over (take cells from.now) to.old }
{
    to[..cells].copy_from_slice(&from[..cells]);
}

// ---- one choice

// A node's cell, and whether a further choice gives it the outer pair.
#[tactic(auto, unfolding(crate::specs::Steps::joined, laws::specs::Choice::pick))]
fn join(seen: u16, outer: bool) -> u16
    ensures { result ≡ joined seen outer }
{
    let own = u16::from(outer);
    if seen == UNASKED {
        return own;
    }
    if seen == own {
        return seen;
    }
    Answer::Depends.number()
}

// The pairs of one choice's rows into the cells of all nodes.
fn join_all(count: u16, rows: &[u16], answers: &mut [u16])
    requires { (row_cells * count ≤ length rows.now) × (count ≤ length answers.old) }
    ensures { answers.new ≡ joined_to count (outer_in rows.now) answers.old }
{
    let nodes = usize::from(count);
    for done in 0..nodes {
        answers[done] = join(answers[done], rows[sizes::ROW_CELLS * done] % 2 == 1);
    }
}

// One walk, and its pairs into the cells of all nodes.
fn look(
    order: CalleeOrder,
    context: u16,
    count: u16,
    table: &[u16],
    rows: &mut [u16],
    answers: &mut [u16],
)
    requires { (row_cells * count ≤ length rows.old) × (count ≤ length answers.old) × Shallow count table.now }
    ensures rows { length rows.new ≡ length rows.old }
    ensures answers { answers.new ≡ joined_to count (has_outer order context count table.now) answers.old }
{
    fill(rows, sizes::ROW_CELLS * usize::from(count), 0);
    walk(order, context, count, table, rows);
    join_all(count, rows, answers);
}

// ---- all choices

// The operator before another one in its class, or that one where it is the first.
#[tactic(auto, unfolding(crate::specs::Steps::previous, laws::specs::Choice::lookup, laws::specs::Choice::pick))]
fn previous(op: u16) -> u16
    ensures { result ≡ previous op }
{
    match op {
        4 => 3,
        14 => 12,
        18 => 18,
        _ => { if 14 < op { op - 1 } else { op } }
    }
}

// Whether none from `lowest` on is of an operator's class before it.
#[tactic(auto, unfolding(crate::specs::Steps::is_new))]
fn is_new(lowest: u16, op: u16) -> bool
    ensures { result ≡ is_new lowest op }
{
    let earlier = previous(op);
    earlier == op || earlier < lowest
}

// The next operator of a range that is the first of its class, or the number behind the range.
fn next_new(lowest: u16, highest: u16, op: u16) -> u16
    requires { (op ≤ highest) × (highest ≤ last_binary) }
    ensures { Next lowest highest op result }
{
    for next in op + 1..highest + 1 {
        if is_new(lowest, next) {
            return next;
        }
    }
    highest + 1
}

// Where a node's operator stands.
fn operator_place(node: u16) -> usize
    requires { 1 ≤ node }
    ensures { result ≡ node_cells * (node - 1) + detail_column }
{
    sizes::NODE_CELLS * usize::from(node - 1) + offsets::DETAIL
}

// A walk for each choice of classes. The table is as before afterwards. The loop goes on by `next_new`, and not by one.
fn vary(
    order: CalleeOrder,
    context: u16,
    count: u16,
    table: &mut [u16],
    rows: &mut [u16],
    entered: u16,
    entries: &[u16],
    answers: &mut [u16],
)
    requires { Room entered count (length entries.now) (length table.old) (length rows.old) (length answers.old) × Within (length table.old) (entries_in entered entries.now) × Shallow count table.old }
    ensures { Varies order context count (entries_in entered entries.now) table.old rows.old answers.old table.new rows.new answers.new }
{
    if entered == 0 {
        look(order, context, count, table, rows, answers);
        return;
    }
    let others = entered - 1;
    let entry = entry_at(entries, others);
    let lowest = entry.lowest;
    let highest = entry.highest;
    let place = operator_place(entry.node);
    let own = table[place];
    let mut op = lowest;
    while op <= highest {
        table[place] = op;
        vary(order, context, count, table, rows, others, entries, answers);
        op = next_new(lowest, highest, op);
    }
    table[place] = own;
}

// All answers, with an array for the table of each choice and one for its rows.
fn tell(
    order: CalleeOrder,
    context: u16,
    count: u16,
    table: &[u16],
    own: &mut [u16],
    rows: &mut [u16],
    entered: u16,
    entries: &[u16],
    answers: &mut [u16],
)
    requires { Room entered count (length entries.now) (length own.old) (length rows.old) (length answers.old) × Taken count table.now entered entries.now }
    ensures { answers.new ≡ answers_of (draft_of order context count table.now entered entries.now) answers.old }
{
    let nodes = usize::from(count);
    copy(table, sizes::NODE_CELLS * nodes, own);
    fill(answers, nodes, UNASKED);
    vary(order, context, count, own, rows, entered, entries, answers);
}

// The same with arrays of its own, no longer than the count needs, so that they are quickly made.
fn tell_by<const CELLS: usize, const ROWS: usize>(
    order: CalleeOrder,
    context: u16,
    count: u16,
    table: &[u16],
    entered: u16,
    entries: &[u16],
    answers: &mut [u16],
)
    requires { (node_cells * count ≤ CELLS) × (row_cells * count ≤ ROWS) × (CELLS < 2 ^ 20) × (ROWS < 2 ^ 20) × (count ≤ length answers.old) × Taken count table.now entered entries.now }
    ensures { answers.new ≡ answers_of (draft_of order context count table.now entered entries.now) answers.old }
{
    let mut own = [0u16; CELLS];
    let mut rows = [0u16; ROWS];
    tell(
        order, context, count, table, &mut own, &mut rows, entered, entries, answers,
    );
}

// The first refusal of a checked table's entries.
fn refused_entries(
    table: &Table,
    entered: u16,
    entries: &[u16],
    answers: usize,
) -> Result<(), Refusal>
    ensures { result ≡ replied (entry_refusal table.now.count table.now.cells.now entered entries.now answers) tt }
{
    if answers < usize::from(table.count) {
        return Err(Refusal::Short);
    }
    if entries.len() < ENTRY_CELLS * usize::from(entered) {
        return Err(Refusal::Short);
    }
    if MOST_ENTRIES < entered {
        return Err(Refusal::Entries);
    }
    if has_wrong_node(table, entered, entries) {
        return Err(Refusal::EntryNode);
    }
    if has_wrong_ends(entered, entries) {
        return Err(Refusal::EntryEnds);
    }
    Ok(())
}

// For each node whether it has the outer pair always, never, or as operators are chosen at the entered nodes; or the first refusal that applies.
pub fn decide_open(
    order: CalleeOrder,
    context: u16,
    count: u16,
    table: &[u16],
    entered: u16,
    entries: &[u16],
    answers: &mut [u16],
) -> Result<(), Refusal>
    ensures reply { result ≡ replied (open_refusal (draft_of order context count table.now entered entries.now) (length answers.old)) tt }
    ensures answers { answers.new ≡ answers_after (draft_of order context count table.now entered entries.now) answers.old }
{
    check(context, count, table)?;
    let cells = Table {
        cells: table,
        count,
    };
    refused_entries(&cells, entered, entries, answers.len())?;
    if count < 64 {
        tell_by::<SMALL, SMALL_ROWS>(order, context, count, table, entered, entries, answers);
        return Ok(());
    }
    if count < 512 {
        tell_by::<MEDIUM, MEDIUM_ROWS>(order, context, count, table, entered, entries, answers);
        return Ok(());
    }
    tell_by::<LARGE, LARGE_ROWS>(order, context, count, table, entered, entries, answers);
    Ok(())
}
