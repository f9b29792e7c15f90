// Rearranged files: the numbers of a tree file in columns, a form as its difference from the form before it and an operand as its distance from its owner.
#![tactic(auto)]

ghost use Rattle.std.specs.Prelude.{◌≡◌, false, ◌||◌, [], ◌∷◌, suc, ◌+◌, ◌*◌, ◌≤◌, ◌<◌, ◌^◌, ltb, length, take};
ghost use Rattle.laws.specs.Lists.{over};
ghost use Rattle.laws.specs.Puts.{Put};
ghost use Rattle.tree.specs.Sizes.{node_cells, most_nodes};
ghost use Rattle.tree.specs.Table.{attributes_column, detail_column, first_column, second_column, symbol_column};
ghost use Rattle.tree.specs.Replies.{replied};
ghost use Rattle.tree_rules.specs.Refusals.{refusal, refusal4, Accepted};
ghost use Rattle.file_loader.specs.Files.{count_in};
ghost use Rattle.file_bytes.specs.Bytes.{all_bytes};
ghost use Rattle.file_save.specs.Saves.{stored, stored_after};
ghost use Rattle.file_columns.specs.Columns.{held_difference, held_operand, held_at, held_column, arranged, columns_of, column_at, rise, fall, restored_operand, operand_in, most_restored};
ghost use Rattle.file_columns.specs.Rearranged.{to_columns, to_columns_after, from_columns, from_columns_after, columns_loaded, columns_table};
ghost use Rattle.file_columns.specs.Steps.{FewForms, Room, RestoredIn, Arrays};

use file_loader::{Header, Loaded};
use file_save::{FEW_CELLS, MOST_CELLS, SOME_CELLS};
use tree::refusal::Refusal;
use tree::table::cell;
use tree::{offsets, sizes};
use tree_one_pass::check;

// ---- from nodes to columns

// A number's difference from the one before it, as it is held.
fn difference(before: u16, number: u16) -> u16
    requires { (before < 64) × (number < 64) }
    ensures { result ≡ held_difference before number }
{
    if before <= number {
        return 2 * (number - before);
    }
    2 * (before - number) - 1
}

// An operand's distance from its owner; 0 where it is absent, or not behind it.
fn distance(owner: u16, operand: u16) -> u16
    ensures { result ≡ held_operand owner operand }
{
    if operand <= owner {
        return 0;
    }
    operand - owner
}

// What is held of a number of a node.
fn held_at(cells: &[u16], node: u16, column: u16) -> u16
    requires { (1 ≤ node) × FewForms cells.now }
    ensures { result ≡ held_at cells.now column node }
{
    let number = cell(cells, node, column);
    if column == tree::columns::FORM {
        let before = cell(cells, node - 1, tree::columns::FORM);
        return difference(before, number);
    }
    if column == tree::columns::FIRST {
        return distance(node, number);
    }
    if column == tree::columns::SECOND {
        return distance(node, number);
    }
    number
}

// A column from a place of the array on; answers the place behind it.
fn put_column(cells: &[u16], count: u16, column: u16, held: &mut [u16], from: usize) -> usize
    requires { (from + count ≤ length held.old) × FewForms cells.now }
    ensures { Put held.old from (held_column count cells.now column) held.new result }
{
    let mut at = from;
    for node in 0..count {
        held[at] = held_at(cells, node + 1, column);
        at += 1;
    }
    at
}

// All columns over the start of the array.
fn arrange(cells: &[u16], count: u16, held: &mut [u16])
    requires { (node_cells * count ≤ length held.old) × FewForms cells.now }
    ensures { held.new ≡ over (arranged count cells.now) held.old }
{
    let attributes = put_column(cells, count, tree::columns::FORM, held, 0);
    let detail = put_column(cells, count, tree::columns::ATTRIBUTES, held, attributes);
    let first = put_column(cells, count, tree::columns::DETAIL, held, detail);
    let second = put_column(cells, count, tree::columns::FIRST, held, first);
    let symbol = put_column(cells, count, tree::columns::SECOND, held, second);
    put_column(cells, count, tree::columns::SYMBOL, held, symbol);
}

// ---- from columns to nodes

// The highest number that is restored.
const MOST_RESTORED: u16 = 65_535;

// Whether a difference that is held leads from a form to a number outside.
fn leaves(form: u16, held: u16) -> bool
    ensures { result ≡ (ltb (form + rise held) (fall held) || ltb (fall held + most_restored) (form + rise held)) }
{
    let half = held / 2;
    if held % 2 == 0 {
        return MOST_RESTORED - form < half;
    }
    form <= half
}

// The form that it leads to.
fn moved(form: u16, held: u16) -> u16
    requires { (ltb (form + rise held) (fall held) || ltb (fall held + most_restored) (form + rise held)) ≡ false }
    ensures { result + fall held ≡ form + rise held }
{
    let half = held / 2;
    if held % 2 == 0 {
        return form + half;
    }
    form - half - 1
}

// Whether a distance leads from an owner to a number outside.
fn is_far(owner: u16, distance: u16) -> bool
    ensures { result ≡ ltb most_restored (restored_operand owner distance) }
{
    MOST_RESTORED - owner < distance
}

// The operand that it leads to.
fn operand(owner: u16, distance: u16) -> u16
    requires { ltb most_restored (restored_operand owner distance) ≡ false }
    ensures { result ≡ restored_operand owner distance }
{
    if distance == 0 {
        return 0;
    }
    owner + distance
}

// What a column holds for a node, counted from 0.
fn column_at(held: &[u16], count: u16, column: usize, index: u16) -> u16
    requires { count * column + index < length held.now }
    ensures { result ≡ column_at count held.now column (suc index) }
{
    held[(count as usize) * column + (index as usize)]
}

// Whether an operand of a node, counted from 0, is outside.
fn has_far_operand(held: &[u16], count: u16, index: u16) -> bool
    requires { (index < count) × (count ≤ most_nodes) × (node_cells * count ≤ length held.now) }
    ensures { result ≡ (ltb most_restored (operand_in count held.now first_column (suc index)) || ltb most_restored (operand_in count held.now second_column (suc index))) }
{
    if is_far(index + 1, column_at(held, count, offsets::FIRST, index)) {
        return true;
    }
    is_far(index + 1, column_at(held, count, offsets::SECOND, index))
}

// A node, counted from 0, with its form, into its place of the array.
fn put_node(held: &[u16], count: u16, index: u16, form: u16, cells: &mut [u16])
    requires index_lt_count { (index < count) × (count ≤ most_nodes) × (node_cells * count ≤ length held.now) × (node_cells * count ≤ length cells.old) }
    requires index_value { (ltb most_restored (operand_in count held.now first_column (suc index)) || ltb most_restored (operand_in count held.now second_column (suc index))) ≡ false }
    ensures { Put cells.old (node_cells * index) (form ∷ column_at count held.now attributes_column (suc index) ∷ column_at count held.now detail_column (suc index) ∷ operand_in count held.now first_column (suc index) ∷ operand_in count held.now second_column (suc index) ∷ column_at count held.now symbol_column (suc index) ∷ []) cells.new (node_cells * index + node_cells) }
{
    let at = sizes::NODE_CELLS * (index as usize);
    cells[at] = form;
    cells[at + offsets::ATTRIBUTES] = column_at(held, count, offsets::ATTRIBUTES, index);
    cells[at + offsets::DETAIL] = column_at(held, count, offsets::DETAIL, index);
    cells[at + offsets::FIRST] = operand(index + 1, column_at(held, count, offsets::FIRST, index));
    cells[at + offsets::SECOND] = operand(
        index + 1,
        column_at(held, count, offsets::SECOND, index),
    );
    cells[at + offsets::SYMBOL] = column_at(held, count, offsets::SYMBOL, index);
}

// The nodes over the start of the array, where no form or operand is outside.
fn restore(held: &[u16], count: u16, cells: &mut [u16]) -> Result<(), Refusal>
    requires { (count ≤ most_nodes) × (node_cells * count ≤ length held.now) × (node_cells * count ≤ length cells.old) }
    ensures { RestoredIn count held.now cells.old cells.new result }
{
    let mut form: u16 = 0;
    for done in 0..count {
        let difference = column_at(held, count, offsets::FORM, done);
        if leaves(form, difference) || has_far_operand(held, count, done) {
            return Err(Refusal::Columns);
        }
        form = moved(form, difference);
        put_node(held, count, done, form, cells);
    }
    Ok(())
}

// ---- files

// The count in a file's header; 0 where the header is malformed.
fn count_in(file: &[u8]) -> u16
    ensures { result ≡ count_in file.now }
{
    match Header::read(file) {
        Some(header) => header.count,
        None => 0,
    }
}

// An accepted table's columns into a buffer, by an array for their numbers.
fn store_columns(
    context: u16,
    count: u16,
    cells: &[u16],
    held: &mut [u16],
    columns: &mut [u8],
) -> Result<u16, Refusal>
    requires { Accepted context count (take (node_cells * count) cells.now) × (node_cells * count ≤ length held.old) }
    ensures value { result ≡ stored (columns_of context count (take (node_cells * count) cells.now)) (length columns.old) }
    ensures columns_after { columns.new ≡ stored_after (columns_of context count (take (node_cells * count) cells.now)) (length columns.old) columns.old }
{
    let numbers = sizes::NODE_CELLS * (count as usize);
    arrange(&cells[..numbers], count, held);
    file_save::store(context, count, &held[..numbers], columns)
}

// An accepted table's file into a buffer, its nodes numbered as they are.
fn store_nodes(context: u16, count: u16, cells: &[u16], file: &mut [u8]) -> Result<u16, Refusal>
    requires { Accepted context count (take (node_cells * count) cells.now) }
    ensures value { result ≡ stored (all_bytes (context ∷ count ∷ take (node_cells * count) cells.now)) (length file.old) }
    ensures file_after { file.new ≡ stored_after (all_bytes (context ∷ count ∷ take (node_cells * count) cells.now)) (length file.old) file.old }
{
    let numbers = sizes::NODE_CELLS * (count as usize);
    file_save::store(context, count, &cells[..numbers], file)
}

// The nodes of a rearranged file, by two arrays, the first as long as the table that is lent for them: 1 to 5, 19, 6 to 11.
fn restore_file(columns: &[u8], held: &mut [u16], cells: &mut [u16]) -> Result<Loaded, Refusal>
    requires { length held.old ≤ length cells.old }
    ensures value { result ≡ columns_loaded columns.now (length held.old) }
    ensures arrays { Arrays columns.now held.old cells.old held.new cells.new }
{
    let loaded = file_loader::load_numbers(columns, held)?;
    let numbers = sizes::NODE_CELLS * usize::from(loaded.count);
    restore(&held[..numbers], loaded.count, cells)?;
    check(loaded.context, loaded.count, &cells[..numbers])?;
    Ok(loaded)
}

// A tree file to columns, by two arrays that are equally long.
fn to_with(
    file: &[u8],
    cells: &mut [u16],
    held: &mut [u16],
    columns: &mut [u8],
) -> Result<u16, Refusal>
    requires { Room file.now (length cells.old) × (length cells.old ≡ length held.old) }
    ensures value { result ≡ to_columns file.now (length columns.old) }
    ensures columns_after { columns.new ≡ to_columns_after file.now columns.old }
{
    let loaded = file_loader::load(file, cells)?;
    store_columns(loaded.context, loaded.count, cells, held, columns)
}

// And back.
fn from_with(
    columns: &[u8],
    held: &mut [u16],
    cells: &mut [u16],
    file: &mut [u8],
) -> Result<u16, Refusal>
    requires { Room columns.now (length held.old) × (length held.old ≡ length cells.old) }
    ensures value { result ≡ from_columns columns.now (length file.old) }
    ensures file_after { file.new ≡ from_columns_after columns.now file.old }
{
    let loaded = restore_file(columns, held, cells)?;
    store_nodes(loaded.context, loaded.count, cells, file)
}

// The start of an array over that of the lent table. By a loop: `copy_from_slice` becomes a call of memmove here, which
// the archive for C would then need from outside.
fn copy(cells: &[u16], numbers: usize, table: &mut [u16])
    requires own { numbers ≤ length cells.now }
    requires lent { numbers ≤ length table.old }
    ensures { table.new ≡ over (take numbers cells.now) table.old }
{
    for done in 0..numbers {
        table[done] = cells[done];
    }
}

// A rearranged file into a lent table, by two arrays, the first of them no better than the table for 4.
fn load_in(
    columns: &[u8],
    held: &mut [u16],
    cells: &mut [u16],
    table: &mut [u16],
) -> Result<Loaded, Refusal>
    requires { (length held.old ≤ length cells.old) × (length held.old ≤ length table.old) × (refusal4 (count_in columns.now) (length held.old) ≡ refusal4 (count_in columns.now) (length table.old)) }
    ensures value { result ≡ columns_loaded columns.now (length table.old) }
    ensures table_after { table.new ≡ columns_table columns.now table.old }
{
    let loaded = restore_file(columns, held, cells)?;
    copy(cells, sizes::NODE_CELLS * usize::from(loaded.count), table);
    Ok(loaded)
}

// The same by two arrays that are equally long: of the first no more is used than the table has.
fn load_with(
    columns: &[u8],
    held: &mut [u16],
    cells: &mut [u16],
    table: &mut [u16],
) -> Result<Loaded, Refusal>
    requires { Room columns.now (length held.old) × (length held.old ≡ length cells.old) }
    ensures value { result ≡ columns_loaded columns.now (length table.old) }
    ensures table_after { table.new ≡ columns_table columns.now table.old }
{
    if held.len() <= table.len() {
        return load_in(columns, held, cells, table);
    }
    let room = table.len();
    load_in(columns, &mut held[..room], cells, table)
}

// ---- arrays by the count: those for fewer than 64 nodes are quickly made, and those for fewer than 512 more quickly than those for all

fn to_by<const CELLS: usize>(file: &[u8], columns: &mut [u8]) -> Result<u16, Refusal>
    requires room { Room file.now CELLS }
    requires small { CELLS < 2 ^ 20 }
    ensures value { result ≡ to_columns file.now (length columns.old) }
    ensures columns_after { columns.new ≡ to_columns_after file.now columns.old }
{
    let mut cells = [0u16; CELLS];
    let mut held = [0u16; CELLS];
    to_with(file, &mut cells, &mut held, columns)
}

fn from_by<const CELLS: usize>(columns: &[u8], file: &mut [u8]) -> Result<u16, Refusal>
    requires room { Room columns.now CELLS }
    requires small { CELLS < 2 ^ 20 }
    ensures value { result ≡ from_columns columns.now (length file.old) }
    ensures file_after { file.new ≡ from_columns_after columns.now file.old }
{
    let mut held = [0u16; CELLS];
    let mut cells = [0u16; CELLS];
    from_with(columns, &mut held, &mut cells, file)
}

fn load_by<const CELLS: usize>(columns: &[u8], table: &mut [u16]) -> Result<Loaded, Refusal>
    requires room { Room columns.now CELLS }
    requires small { CELLS < 2 ^ 20 }
    ensures value { result ≡ columns_loaded columns.now (length table.old) }
    ensures table_after { table.new ≡ columns_table columns.now table.old }
{
    let mut held = [0u16; CELLS];
    let mut cells = [0u16; CELLS];
    load_with(columns, &mut held, &mut cells, table)
}

// ---- what callers get

// A tree file's rearranged file in a lent buffer: how many bytes it has, or the first refusal that applies, 1 to 11 and then 12.
pub fn to_columns(file: &[u8], columns: &mut [u8]) -> Result<u16, Refusal>
    ensures reply { result ≡ to_columns file.now (length columns.old) }
    ensures columns { columns.new ≡ to_columns_after file.now columns.old }
{
    match count_in(file) {
        0..=63 => to_by::<FEW_CELLS>(file, columns),
        64..=511 => to_by::<SOME_CELLS>(file, columns),
        _ => to_by::<MOST_CELLS>(file, columns),
    }
}

// A rearranged file's tree file in a lent buffer: how many bytes it has, or the first refusal that applies, 1 to 5, 19, 6 to 11 and then 12.
pub fn from_columns(columns: &[u8], file: &mut [u8]) -> Result<u16, Refusal>
    ensures reply { result ≡ from_columns columns.now (length file.old) }
    ensures file { file.new ≡ from_columns_after columns.now file.old }
{
    match count_in(columns) {
        0..=63 => from_by::<FEW_CELLS>(columns, file),
        64..=511 => from_by::<SOME_CELLS>(columns, file),
        _ => from_by::<MOST_CELLS>(columns, file),
    }
}

// A rearranged file into a lent table: the context and the count, or the first refusal that applies, 1 to 5, 19, 6 to 11.
pub fn load_columns(columns: &[u8], table: &mut [u16]) -> Result<Loaded, Refusal>
    ensures reply { result ≡ columns_loaded columns.now (length table.old) }
    ensures table { table.new ≡ columns_table columns.now table.old }
{
    match count_in(columns) {
        0..=63 => load_by::<FEW_CELLS>(columns, table),
        64..=511 => load_by::<SOME_CELLS>(columns, table),
        _ => load_by::<MOST_CELLS>(columns, table),
    }
}
