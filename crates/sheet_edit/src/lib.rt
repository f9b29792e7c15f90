// An open sheet's edit: the expression at a named node is replaced by another accepted tree. And a look before the edit.
#![tactic(auto)]

ghost use Rattle.std.specs.Prelude.{◌≡◌, not, ◌&&◌, ◌+◌, ◌*◌, ◌^◌, ◌<◌, ◌≤◌, min, ltb, length, take};
ghost use Rattle.laws.specs.Each.{some};
ghost use Rattle.laws.specs.Lists.{over};
ghost use Rattle.tree.specs.Sizes.{node_cells, most_nodes, most_levels};
ghost use Rattle.tree.specs.Trees.{tree_at, levels};
ghost use Rattle.tree.specs.Replies.{replied};
ghost use Rattle.tree_rules.specs.Refusals.{refusal, plain_block};
ghost use Rattle.tree_numbering.specs.Numbered.{size};
ghost use Rattle.tree_numbering.specs.Replaced.{replaced_at};
ghost use Rattle.sheet_edit.specs.Edits.{edit_of, edit_refusal, edit_reply, table_after, edited_rows};
ghost use Rattle.sheet_edit.specs.Previews.{preview_reply, preview_table, preview_rows};
ghost use Rattle.sheet_edit.specs.Steps.{joined, owns_output, FitsIn, Numbers};

use expr::order::CalleeOrder;
use row_walk::walk;
use tree::form::Form;
use tree::refusal::Refusal;
use tree::table::Table;
use tree::{columns, sizes};
use tree_labels::form::class_of;
use tree_labels::level::{larger, own_level};
use tree_numbering::edited::number;
use tree_numbering::{levels_at, room_after};
use tree_one_pass::check;

// The cells of own tables, for results of fewer than 64 nodes, of fewer than 512, and for all.
const SMALL: usize = sizes::NODE_CELLS * 64;

const MEDIUM: usize = sizes::NODE_CELLS * 512;

const LARGE: usize = sizes::NODE_CELLS * (sizes::MOST_NODES as usize);

// ---- how deep the result is

// How many nodes the longest path of the result from a node holds, list links not counted; `deep` is that of the second tree.
fn levels_edited(table: &Table, place: u16, second: &Table, deep: u16, node: u16) -> u16
    requires { (table.now.count ≤ most_nodes) × (deep ≤ most_nodes) × (deep ≡ levels (tree_at second.now.cells.now second.now.count 1)) }
    ensures { result ≡ levels (replaced_at table.now.cells.now table.now.count place (tree_at second.now.cells.now second.now.count 1) node) }
{
    if node == 0 {
        return 0;
    }
    if table.count < node {
        return 0;
    }
    if node == place {
        return deep;
    }
    let first = table.operand_number(node, columns::FIRST);
    let one = levels_edited(table, place, second, deep, first);
    let other = table.operand_number(node, columns::SECOND);
    let two = levels_edited(table, place, second, deep, other);
    own_level(table, node) + larger(one, two)
}

// Whether a path of the result holds too many nodes. None does where the two trees have no more together.
fn is_deep(table: &Table, place: u16, second: &Table) -> bool
    requires { (table.now.count ≤ most_nodes) × (second.now.count ≤ most_nodes) }
    ensures { result ≡ ltb most_levels (levels (replaced_at table.now.cells.now table.now.count place (tree_at second.now.cells.now second.now.count 1) 1)) }
{
    if table.count + second.count <= sizes::MOST_LEVELS {
        return false;
    }
    let deep = levels_at(second, 1);
    levels_edited(table, place, second, deep, 1) > sizes::MOST_LEVELS
}

// ---- copying

// The first cells of the own array, over the start of the lent table.
#[tactic(auto, unfolding(laws::specs::Lists::over))]
fn copy(own: &[u16], cells: usize, table: &mut [u16])
    requires { (cells ≤ length own.now) × (cells ≤ length table.old) }
    ensures { table.new ≡ over (take cells own.now) table.old }
{
    table[..cells].copy_from_slice(&own[..cells]);
}

// ---- 10, of the result

#[tactic(auto, unfolding(tree_rules::specs::Refusals::plain_block))]
fn is_plain_block(table: &Table, node: u16) -> bool
    ensures { result ≡ plain_block table.now.cells.now node }
{
    table.cell(node, columns::FORM) == Form::ExprBlock.number()
        && table.attributes(node) == 0
        && table.detail(node) == 0
}

// Whether a node is a closure with a written output that has the named node for its body.
#[tactic(auto, unfolding(crate::specs::Steps::owns_output))]
fn owns_output(table: &Table, place: u16, node: u16) -> bool
    ensures { result ≡ owns_output table.now.cells.now place node }
{
    table.cell(node, columns::FORM) == Form::ExprClosure.number()
        && table.detail(node) == 1
        && table.cell(node, columns::FIRST) == place
}

#[tactic(auto, unfolding(laws::specs::Each::some))]
fn some_output(table: &Table, place: u16) -> bool
    ensures { result ≡ some (owns_output table.now.cells.now place) table.now.count }
{
    for done in 0..table.count {
        if owns_output(table, place, done + 1) {
            return true;
        }
    }
    false
}

// Whether the result has a closure with a written output and another body than a plain block: only the named node's owner can be one.
fn breaks_output(table: &Table, place: u16, second: &Table) -> bool
    ensures { result ≡ (some (owns_output table.now.cells.now place) table.now.count && not (plain_block second.now.cells.now 1)) }
{
    some_output(table, place) && !is_plain_block(second, 1)
}

// ---- the edit

// The first refusal that applies to an edit, where the table for the result and its rows have so many cells. The result's size is known from the two counts and what is replaced.
fn first_refusal(
    context: u16,
    table: &Table,
    place: u16,
    other: u16,
    second: &Table,
    cells: usize,
    rows: usize,
) -> Result<(), Refusal>
    ensures { result ≡ replied (edit_refusal (edit_of context table.now.count table.now.cells.now place other second.now.count second.now.cells.now) cells rows) tt }
{
    check(context, table.count, table.cells)?;
    check(other, second.count, second.cells)?;
    if class_of(table.form_number(place)) != 1 {
        return Err(Refusal::NoExpression);
    }
    let result = room_after(table, place, table.count) + second.count;
    if result > sizes::MOST_NODES {
        return Err(Refusal::Replaced);
    }
    if breaks_output(table, place, second) {
        return Err(Refusal::Replaced);
    }
    if is_deep(table, place, second) {
        return Err(Refusal::Replaced);
    }
    if cells < sizes::NODE_CELLS * usize::from(result) {
        return Err(Refusal::Short);
    }
    if rows < sizes::ROW_CELLS * usize::from(result) {
        return Err(Refusal::Short);
    }
    Ok(())
}

// The result over the table, numbered; how many nodes there are. It is numbered into an array of its own, since the sheet is read meanwhile.
fn replace_by(
    table: &mut [u16],
    count: u16,
    place: u16,
    second: &[u16],
    nodes: u16,
    own: &mut [u16],
) -> u16
    requires { FitsIn (joined table.old count place second.now nodes) nodes (length own.old) (length table.old) }
    ensures { Numbers (joined table.old count place second.now nodes) table.old result table.new }
{
    let sheet = Table {
        cells: table,
        count,
    };
    let other = Table {
        cells: second,
        count: nodes,
    };
    let done = number(&sheet, place, &other, own).unwrap_or(0);
    copy(own, sizes::NODE_CELLS * usize::from(done), table);
    done
}

// The same with an array of its own, no longer than both trees need, so that it is quickly made.
fn replace_in<const CELLS: usize>(
    table: &mut [u16],
    count: u16,
    place: u16,
    second: &[u16],
    nodes: u16,
) -> u16
    requires { (CELLS < 2 ^ 20) × FitsIn (joined table.old count place second.now nodes) nodes CELLS (length table.old) }
    ensures { Numbers (joined table.old count place second.now nodes) table.old result table.new }
{
    let mut own = [0u16; CELLS];
    replace_by(table, count, place, second, nodes, &mut own)
}

// The same, with an array for as many nodes as both trees have.
fn replace(table: &mut [u16], count: u16, place: u16, second: &[u16], nodes: u16) -> u16
    requires { (size (joined table.old count place second.now nodes) ≤ count + nodes) × (count ≤ most_nodes) × (nodes ≤ most_nodes) × FitsIn (joined table.old count place second.now nodes) nodes (node_cells * most_nodes) (length table.old) }
    ensures { Numbers (joined table.old count place second.now nodes) table.old result table.new }
{
    let most = count + nodes;
    if most < 64 {
        return replace_in::<SMALL>(table, count, place, second, nodes);
    }
    if most < 512 {
        return replace_in::<MEDIUM>(table, count, place, second, nodes);
    }
    replace_in::<LARGE>(table, count, place, second, nodes)
}

// The expression at a node of an open sheet replaced by another accepted tree: the sheet's context, count, callee order, table and rows, the node, and the second tree.
pub fn edit(
    context: u16,
    count: u16,
    order: CalleeOrder,
    table: &mut [u16],
    rows: &mut [u16],
    node: u16,
    second_context: u16,
    second_count: u16,
    second: &[u16],
) -> Result<u16, Refusal>
    ensures reply { result ≡ edit_reply (edit_of context count table.old node second_context second_count second.now) (length table.old) (length rows.old) }
    ensures table { table.new ≡ table_after (edit_of context count table.old node second_context second_count second.now) (length rows.old) }
    ensures rows { rows.new ≡ edited_rows order (edit_of context count table.old node second_context second_count second.now) rows.old }
{
    let sheet = Table {
        cells: table,
        count,
    };
    let other = Table {
        cells: second,
        count: second_count,
    };
    first_refusal(
        context,
        &sheet,
        node,
        second_context,
        &other,
        table.len(),
        rows.len(),
    )?;
    let done = replace(table, count, node, second, second_count);
    walk(order, context, done, table, rows);
    Ok(done)
}

// ---- the preview

// What an edit would give: the same answer, and the result's table and rows in lent buffers. The open sheet is only read, so that nothing is copied.
pub fn preview(
    context: u16,
    count: u16,
    order: CalleeOrder,
    table: &[u16],
    rows: &[u16],
    node: u16,
    second_context: u16,
    second_count: u16,
    second: &[u16],
    result_table: &mut [u16],
    result_rows: &mut [u16],
) -> Result<u16, Refusal>
    ensures reply { result ≡ preview_reply (edit_of context count table.now node second_context second_count second.now) (length rows.now) (length result_table.old) (length result_rows.old) }
    ensures table { result_table.new ≡ preview_table (edit_of context count table.now node second_context second_count second.now) (length rows.now) result_table.old (length result_rows.old) }
    ensures rows { result_rows.new ≡ preview_rows order (edit_of context count table.now node second_context second_count second.now) (length rows.now) result_table.old result_rows.old }
{
    let cells = table.len().min(result_table.len());
    let lent = rows.len().min(result_rows.len());
    let sheet = Table {
        cells: table,
        count,
    };
    let other = Table {
        cells: second,
        count: second_count,
    };
    first_refusal(context, &sheet, node, second_context, &other, cells, lent)?;
    let done = number(&sheet, node, &other, result_table).unwrap_or(0);
    walk(order, context, done, result_table, result_rows);
    Ok(done)
}
