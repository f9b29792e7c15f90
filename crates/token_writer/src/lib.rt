// The tokens of a plain tree, with the pairs that its rows have.
#![tactic(auto)]

mod levels; // levels.rt: which nodes get pairs
mod plainness; // plainness.rt: whether a table is plain
mod signs; // signs.rt: a node's own tokens

ghost use Rattle.std.specs.Prelude.{◌≡◌, not, ◌&&◌, [], ◌∷◌, ◌+◌, ◌*◌, ◌/◌, ◌≤◌, ◌<◌, eqb, length, get_or, set};
ghost use Rattle.laws.specs.Choice.{pick};
ghost use Rattle.laws.specs.Lists.{over};
ghost use Rattle.laws.specs.Puts.{Put};
ghost use Rattle.tree.specs.Sizes.{node_cells, token_cells, most_nodes, most_tokens};
ghost use Rattle.tree.specs.Forms.{expr_binary, link};
ghost use Rattle.tree.specs.Replies.{replied};
ghost use Rattle.tree.specs.Table.{cell_at, form_at, first_at, second_at, symbol_at};
ghost use Rattle.token_writer.specs.Puts.{spelled, symbol_on, cells_with};
ghost use Rattle.token_writer.specs.Tasks.{task_of, between_task, behind_task, last_task, code_task, cells_by, pairs_at, sign_cells, task_cells, enter_work, task_work, laid, laid_three, waiting, Turned, TurnedOnly, root_in, tasks_for};
ghost use Rattle.token_writer.specs.Writes.{takes_context, counted, answered, tokens_after};

use levels::{
    CONDITIONAL, OPENING, condition_in, first_place, level_of, needs_pair, opens_in, second_place,
};
use plainness::is_plain_table;
use signs::{Few, one_if, operator_code, signs_at};
use token_grammar::{codes, context};
use tree::refusal::Refusal;
use tree::table::{Table, operand_of};
use tree::{columns, forms, sizes};
use tree_one_pass::check;

// The cells of the tokens that the writer asks room for, a node.
const NODE_TOKENS: usize = sizes::TOKEN_CELLS * sizes::TOKENS_PER_NODE;

// How many pairs were added, and how many tokens the lent buffer now holds, two cells each.
#[derive(Clone, Copy, Debug, PartialEq, Eq)]
pub struct Written {
    pub pairs: u16,
    pub tokens: u16,
}

// The buffer and the place in it stay two, and so do the stack and its depth: a struct that holds a lent buffer needs a clause
// in each of these functions that says which it still holds.
//
// What a turn leaves: how many tasks wait, the place behind what is written, and the pairs that it opened.
#[derive(Clone, Copy)]
pub struct Turn {
    pub depth: usize,
    pub at: usize,
    pub pairs: u16,
}

// One number and no enum, which is slower (docs/PERFORMANCE.md). A task is a node's number, and so many steps more for what is to be done: its tree written at a place, or what stands between its operands put, or behind them, or with the end of its pair.
const TASK_STEP: u32 = 65_536;

const BETWEEN: u16 = 256;

const BEHIND: u16 = 257;

const LAST: u16 = 258;

// From here on a code without a symbol is to be put.
const CODE: u16 = 512;

// How many tasks wait at most, by the nodes of the tree: small trees get a small stack.
const FEW_NODES: u16 = 64;

const FEW_TASKS: usize = 1 + 4 * (FEW_NODES as usize);

const MOST_TASKS: usize = 1 + 4 * (sizes::MOST_NODES as usize);

// The symbol beside a code: the node's on a name, a literal or a numbered member.
#[tactic(auto, unfolding(crate::specs::Puts::symbol_on, crate::specs::Puts::symbol_lines, laws::specs::Choice::lookup, laws::specs::Choice::pick))]
fn symbol_on(code: u16, symbol: u16) -> u16
    ensures { result ≡ symbol_on code symbol }
{
    match code {
        codes::NAME | codes::NUMBERED_MEMBER => symbol,
        codes::LITERAL => symbol,
        _ => 0,
    }
}

// A token at `at`: its code, and beside it the node's symbol where it has one; answers the place behind it.
fn put_token(tokens: &mut [u16], at: usize, code: u16, symbol: u16) -> usize
    requires { at + token_cells ≤ length tokens.old }
    ensures { Put tokens.old at (cells_with symbol (code ∷ [])) tokens.new result }
{
    let beside = symbol_on(code, symbol);
    tokens[at] = code;
    tokens[at + 1] = beside;
    at + 2
}

// Up to three tokens of a node from `at` on; answers the place behind them.
fn put(tokens: &mut [u16], at: usize, few: Few, symbol: u16) -> usize
    requires { at + length (cells_with symbol (spelled few)) ≤ length tokens.old }
    ensures { Put tokens.old at (cells_with symbol (spelled few)) tokens.new result }
{
    match few {
        Few::Nothing => at,
        Few::One(a) => put_token(tokens, at, a, symbol),
        Few::Two(a, b) => {
            let second = put_token(tokens, at, a, symbol);
            put_token(tokens, second, b, symbol)
        }
        Few::Three(a, b, c) => {
            let second = put_token(tokens, at, a, symbol);
            let third = put_token(tokens, second, b, symbol);
            put_token(tokens, third, c, symbol)
        }
    }
}

// A code that has no symbol at `at`; answers the place behind it.
fn put_code(tokens: &mut [u16], at: usize, code: u16) -> usize
    requires { at + token_cells ≤ length tokens.old }
    ensures { Put tokens.old at (code ∷ 0 ∷ []) tokens.new result }
{
    tokens[at] = code;
    tokens[at + 1] = 0;
    at + 2
}

// `as` widens here and in `at_cell`: these numbers stand in the clauses and the lemmas as they are.
//
// A task on top of the stack; answers how many there are now.
fn push(stack: &mut [u32], depth: usize, node: u16, what: u16) -> usize
    requires { depth < length stack.old }
    ensures { (stack.new ≡ set stack.old depth (task_of node what)) × (result ≡ 1 + depth) × (length stack.new ≡ length stack.old) }
{
    stack[depth] = (node as u32) + TASK_STEP * (what as u32);
    depth + 1
}

// What waits of a node: its first operand first, at its place, then what stands between the two, the second, and what stands behind it.
fn lay(
    stack: &mut [u32],
    depth: usize,
    node: u16,
    last: u16,
    second: u16,
    after: u16,
    first: u16,
    ahead: u16,
) -> usize
    requires { 4 + depth ≤ length stack.old }
    ensures { (stack.new ≡ laid stack.old depth (task_of node last) (task_of second after) (task_of node between_task) (task_of first ahead)) × (result ≡ 4 + depth) }
{
    let one = push(stack, depth, node, last);
    let two = push(stack, one, second, after);
    let three = push(stack, two, node, BETWEEN);
    push(stack, three, first, ahead)
}

// The last task of a node: with the end of its pair, if it has one.
#[tactic(auto, unfolding(laws::specs::Choice::pick))]
fn last_of(pair: bool) -> u16
    ensures { result ≡ pick pair last_task behind_task }
{
    if pair { LAST } else { BEHIND }
}

// What holds at a place, within the node's own pair if it has one: nothing any more.
fn kept(flag: bool, pair: bool) -> bool
    ensures { result ≡ (flag && not pair) }
{
    flag && !pair
}

// The same with what the node hands down from its place.
fn wait(table: &Table, node: u16, here: u16, pair: bool, stack: &mut [u32], depth: usize) -> usize
    requires { 4 + depth ≤ length stack.old }
    ensures { (stack.new ≡ waiting table.now.cells.now table.now.count node here pair stack.old depth) × (result ≡ 4 + depth) }
{
    let form = table.cell(node, columns::FORM);
    let detail = table.detail(node);
    let opens = kept(opens_in(here), pair);
    let condition = kept(condition_in(here), pair);
    let first = table.operand_number(node, columns::FIRST);
    let second = table.operand_number(node, columns::SECOND);
    let ahead = first_place(form, detail, opens, condition);
    let after = second_place(form, detail, opens, condition);
    lay(
        stack,
        depth,
        node,
        last_of(pair),
        second,
        after,
        first,
        ahead,
    )
}

// The tree at a node is to be written at a place: what stands before its first operand, and the rest waits.
fn enter_other(
    table: &Table,
    node: u16,
    here: u16,
    stack: &mut [u32],
    depth: usize,
    tokens: &mut [u16],
    at: usize,
) -> Turn
    requires { (here < between_task) × (depth + enter_work table.now.cells.now table.now.count node ≤ length stack.old) × (at + length (cells_by table.now.cells.now table.now.count here node) ≤ length tokens.old) × (1 ≤ node) × (node ≤ table.now.count) × (table.now.count < 65536) }
    ensures { Turned table.now.cells.now table.now.count (task_of node here) stack.old depth tokens.old at stack.new tokens.new result }
{
    let symbol = table.symbol(node);
    let pair = needs_pair(table, node, here);
    let signs = signs_at(table, node);
    let before = signs.before;
    let open = put(tokens, at, one_if(pair, codes::LEFT_PAREN), symbol);
    let next = put(tokens, open, before, symbol);
    let top = wait(table, node, here, pair, stack, depth);
    Turn {
        depth: top,
        at: next,
        pairs: u16::from(pair),
    }
}

// With no test, unlike Table::cell: its requirements hold where the writer reads (docs/PERFORMANCE.md).
//
// The number at a place of a node of the table.
fn at_cell(table: &Table, node: u16, place: u16) -> u16
    requires { (1 ≤ node) × (node_cells * node ≤ length table.now.cells.now) × (place < node_cells) }
    ensures { result ≡ cell_at table.now.cells.now node place }
{
    table.cells[sizes::NODE_CELLS * ((node - 1) as usize) + (place as usize)]
}

// Whether a node has no operands.
fn is_bare(table: &Table, node: u16) -> bool
    requires { (1 ≤ node) × (node_cells * node ≤ length table.now.cells.now) }
    ensures { result ≡ (eqb (first_at table.now.cells.now node) 0 && eqb (second_at table.now.cells.now node) 0) }
{
    at_cell(table, node, columns::FIRST) == 0 && at_cell(table, node, columns::SECOND) == 0
}

// A code with the node's symbol.
fn put_name(table: &Table, node: u16, code: u16, tokens: &mut [u16], at: usize) -> usize
    requires { (1 ≤ node) × (node_cells * node ≤ length table.now.cells.now) × (at + token_cells ≤ length tokens.old) }
    ensures { Put tokens.old at (code ∷ symbol_at table.now.cells.now node ∷ []) tokens.new result }
{
    let symbol = at_cell(table, node, columns::SYMBOL);
    tokens[at] = code;
    tokens[at + 1] = symbol;
    at + 2
}

// Of an owner whose own tokens are one code between its operands.
fn lay_three(
    stack: &mut [u32],
    depth: usize,
    second: u16,
    after: u16,
    code: u16,
    first: u16,
    ahead: u16,
) -> usize
    requires { (3 + depth ≤ length stack.old) × (code < code_task) }
    ensures { (stack.new ≡ laid_three stack.old depth (task_of second after) (task_of 0 (code_task + code)) (task_of first ahead)) × (result ≡ 3 + depth) }
{
    let one = push(stack, depth, second, after);
    let two = push(stack, one, 0, CODE + code);
    push(stack, two, first, ahead)
}

// A Binary.
fn enter_binary(
    table: &Table,
    node: u16,
    here: u16,
    stack: &mut [u32],
    depth: usize,
    tokens: &mut [u16],
    at: usize,
) -> Turn
    requires { (here < between_task) × (depth + enter_work table.now.cells.now table.now.count node ≤ length stack.old) × (at + length (cells_by table.now.cells.now table.now.count here node) ≤ length tokens.old) × (node_cells * table.now.count ≤ length table.now.cells.now) × (1 ≤ node) × (node ≤ table.now.count) × (form_at table.now.cells.now node ≡ expr_binary) }
    ensures { Turned table.now.cells.now table.now.count (task_of node here) stack.old depth tokens.old at stack.new tokens.new result }
{
    let detail = at_cell(table, node, columns::DETAIL);
    let first = operand_of(table.count, node, at_cell(table, node, columns::FIRST));
    let second = operand_of(table.count, node, at_cell(table, node, columns::SECOND));
    let code = operator_code(detail);
    if level_of(detail) < here % OPENING {
        let ahead = first_place(forms::EXPR_BINARY, detail, false, false);
        let after = second_place(forms::EXPR_BINARY, detail, false, false);
        let next = put_code(tokens, at, codes::LEFT_PAREN);
        let one = push(stack, depth, 0, CODE + codes::RIGHT_PAREN);
        let top = lay_three(stack, one, second, after, code, first, ahead);
        return Turn {
            depth: top,
            at: next,
            pairs: 1,
        };
    }
    let opens = opens_in(here);
    let condition = condition_in(here);
    let ahead = first_place(forms::EXPR_BINARY, detail, opens, condition);
    let after = second_place(forms::EXPR_BINARY, detail, opens, condition);
    Turn {
        depth: lay_three(stack, depth, second, after, code, first, ahead),
        at,
        pairs: 0,
    }
}

// A link: its item, and the next link behind a comma.
fn enter_link(
    table: &Table,
    node: u16,
    here: u16,
    stack: &mut [u32],
    depth: usize,
    at: usize,
) -> Turn
    requires { (here < between_task) × (depth + enter_work table.now.cells.now table.now.count node ≤ length stack.old) × (node_cells * table.now.count ≤ length table.now.cells.now) × (1 ≤ node) × (node ≤ table.now.count) × (form_at table.now.cells.now node ≡ link) }
    ensures { TurnedOnly table.now.cells.now table.now.count (task_of node here) stack.old depth at stack.new result }
{
    let first = operand_of(table.count, node, at_cell(table, node, columns::FIRST));
    let second = operand_of(table.count, node, at_cell(table, node, columns::SECOND));
    if second == 0 {
        return Turn {
            depth: push(stack, depth, first, 0),
            at,
            pairs: 0,
        };
    }
    Turn {
        depth: lay_three(stack, depth, second, 0, codes::COMMA, first, 0),
        at,
        pairs: 0,
    }
}

// The same for any number, 0 for an operand that is absent; names, literals, Binaries and links, which most nodes are, have their own way.
fn enter(
    table: &Table,
    node: u16,
    here: u16,
    stack: &mut [u32],
    depth: usize,
    tokens: &mut [u16],
    at: usize,
) -> Turn
    requires { (here < between_task) × (depth + enter_work table.now.cells.now table.now.count node ≤ length stack.old) × (at + length (cells_by table.now.cells.now table.now.count here node) ≤ length tokens.old) × (node_cells * table.now.count ≤ length table.now.cells.now) }
    ensures { Turned table.now.cells.now table.now.count (task_of node here) stack.old depth tokens.old at stack.new tokens.new result }
{
    if node == 0 {
        return Turn {
            depth,
            at,
            pairs: 0,
        };
    }
    if table.count < node {
        return Turn {
            depth,
            at,
            pairs: 0,
        };
    }
    let form = at_cell(table, node, columns::FORM);
    if is_bare(table, node) {
        if form == forms::EXPR_PATH {
            return Turn {
                depth,
                at: put_name(table, node, codes::NAME, tokens, at),
                pairs: 0,
            };
        }
        if form == forms::EXPR_LIT {
            return Turn {
                depth,
                at: put_name(table, node, codes::LITERAL, tokens, at),
                pairs: 0,
            };
        }
    }
    if form == forms::EXPR_BINARY {
        return enter_binary(table, node, here, stack, depth, tokens, at);
    }
    if form == forms::LINK {
        return enter_link(table, node, here, stack, depth, at);
    }
    enter_other(table, node, here, stack, depth, tokens, at)
}

// A node's own tokens between its operands, or behind them.
fn settle(table: &Table, node: u16, what: u16, tokens: &mut [u16], at: usize) -> usize
    requires { at + length (sign_cells table.now.cells.now table.now.count what node) ≤ length tokens.old }
    ensures { Put tokens.old at (sign_cells table.now.cells.now table.now.count what node) tokens.new result }
{
    let symbol = table.symbol(node);
    let signs = signs_at(table, node);
    let between = signs.between;
    let behind = signs.behind;
    if what == BETWEEN {
        return put(tokens, at, between, symbol);
    }
    let end = put(tokens, at, behind, symbol);
    put(
        tokens,
        end,
        one_if(what == LAST, codes::RIGHT_PAREN),
        symbol,
    )
}

// The task that lies `depth` deep, on top of the others, is done, or a part of it.
fn take(table: &Table, stack: &mut [u32], depth: usize, tokens: &mut [u16], at: usize) -> Turn
    requires { (depth < length stack.old) × (depth + task_work table.now.cells.now table.now.count (get_or stack.old depth 0) ≤ length stack.old) × (at + length (task_cells table.now.cells.now table.now.count (get_or stack.old depth 0)) ≤ length tokens.old) × (node_cells * table.now.count ≤ length table.now.cells.now) }
    ensures { Turned table.now.cells.now table.now.count (get_or stack.old depth 0) stack.old depth tokens.old at stack.new tokens.new result }
{
    let task = stack[depth];
    let what = (task / TASK_STEP) as u16;
    let node = (task % TASK_STEP) as u16;
    if what < BETWEEN {
        return enter(table, node, what, stack, depth, tokens, at);
    }
    if what < CODE {
        return Turn {
            depth,
            at: settle(table, node, what, tokens, at),
            pairs: 0,
        };
    }
    Turn {
        depth,
        at: put_code(tokens, at, what - CODE),
        pairs: 0,
    }
}

// The tokens of the tree at node 1, which stands at a place: turn by turn, until nothing waits.
fn write_tree(table: &Table, here: u16, stack: &mut [u32], tokens: &mut [u16]) -> Turn
    requires { (here < between_task) × (enter_work table.now.cells.now table.now.count 1 ≤ length stack.old) × (length (cells_by table.now.cells.now table.now.count here 1) ≤ length tokens.old) × (pairs_at table.now.cells.now table.now.count here 1 ≤ most_nodes) × (node_cells * table.now.count ≤ length table.now.cells.now) }
    ensures { Put tokens.old 0 (cells_by table.now.cells.now table.now.count here 1) tokens.new result.at × (result.pairs ≡ pairs_at table.now.cells.now table.now.count here 1) }
{
    let mut at: usize = 0;
    let mut pairs: u16 = 0;
    let mut depth: usize = push(stack, 0, 1, here);
    // It goes by what waits, and counts nothing.
    while 0 < depth {
        let next = take(table, stack, depth - 1, tokens, at);
        at = next.at;
        pairs += next.pairs;
        depth = next.depth;
    }
    Turn { depth, at, pairs }
}

// The place of the root.
fn root_place(context: u16) -> u16
    ensures { (result ≡ root_in context) × (result < between_task) }
{
    CONDITIONAL * u16::from(context == context::CONDITION)
}

// What was written in all.
fn told(turn: Turn) -> Written
    requires { turn.at ≤ token_cells * most_tokens }
    ensures { result ≡ counted turn.pairs (turn.at / token_cells) }
{
    Written {
        pairs: turn.pairs,
        tokens: (turn.at / sizes::TOKEN_CELLS) as u16,
    }
}

// The tokens of an accepted plain table, with a stack for so many tasks.
fn write_within<const TASKS: usize>(context: u16, table: &Table, tokens: &mut [u16]) -> Written
    requires { (enter_work table.now.cells.now table.now.count 1 ≤ TASKS) × (table.now.count ≤ most_nodes) × (pairs_at table.now.cells.now table.now.count (root_in context) 1 ≤ most_nodes) × (length (cells_by table.now.cells.now table.now.count (root_in context) 1) ≤ length tokens.old) × (length (cells_by table.now.cells.now table.now.count (root_in context) 1) ≤ token_cells * most_tokens) × (node_cells * table.now.count ≤ length table.now.cells.now) × (TASKS ≤ tasks_for most_nodes) }
    ensures reply { result ≡ counted (pairs_at table.now.cells.now table.now.count (root_in context) 1) (length (cells_by table.now.cells.now table.now.count (root_in context) 1) / token_cells) }
    ensures tokens { tokens.new ≡ over (cells_by table.now.cells.now table.now.count (root_in context) 1) tokens.old }
{
    let here = root_place(context);
    let mut stack = [0u32; TASKS];
    told(write_tree(table, here, &mut stack, tokens))
}

// The tokens of an accepted plain table.
fn write_plain(context: u16, table: &Table, tokens: &mut [u16]) -> Written
    requires { (enter_work table.now.cells.now table.now.count 1 ≤ tasks_for table.now.count) × (table.now.count ≤ most_nodes) × (pairs_at table.now.cells.now table.now.count (root_in context) 1 ≤ most_nodes) × (length (cells_by table.now.cells.now table.now.count (root_in context) 1) ≤ length tokens.old) × (length (cells_by table.now.cells.now table.now.count (root_in context) 1) ≤ token_cells * most_tokens) × (node_cells * table.now.count ≤ length table.now.cells.now) }
    ensures reply { result ≡ counted (pairs_at table.now.cells.now table.now.count (root_in context) 1) (length (cells_by table.now.cells.now table.now.count (root_in context) 1) / token_cells) }
    ensures tokens { tokens.new ≡ over (cells_by table.now.cells.now table.now.count (root_in context) 1) tokens.old }
{
    if table.count <= FEW_NODES {
        write_within::<FEW_TASKS>(context, table, tokens)
    } else {
        write_within::<MOST_TASKS>(context, table, tokens)
    }
}

// Whether the tokens of a tree in this context are written.
#[tactic(auto, unfolding(crate::specs::Writes::takes_context))]
fn takes(context: u16) -> bool
    ensures { result ≡ takes_context context }
{
    matches!(context, context::NONE | context::CONDITION)
}

// The tokens of a plain table into `tokens`: how many pairs and tokens there are, or the first refusal that applies.
pub fn write(
    context: u16,
    count: u16,
    table: &[u16],
    tokens: &mut [u16],
) -> Result<Written, Refusal>
    ensures reply { result ≡ answered context count table.now (length tokens.old) }
    ensures tokens { tokens.new ≡ tokens_after context count table.now tokens.old }
{
    check(context, count, table)?;
    let nodes = usize::from(count);
    if tokens.len() < NODE_TOKENS * nodes {
        return Err(Refusal::Short);
    }
    if !takes(context) {
        return Err(Refusal::NotPlain);
    }
    let table = Table {
        cells: table,
        count,
    };
    if !is_plain_table(&table) {
        return Err(Refusal::NotPlain);
    }
    Ok(write_plain(context, &table, tokens))
}
