// Reads a tree file on standard input, and prints the count of its nodes and the row of each
// expression, or the number of the refusal.
#![tactic(auto)]

ghost use Rattle.std.specs.Prelude.{◌≡◌, ◌+◌, ◌*◌, ◌≤◌, length, take};
ghost use Rattle.tree.specs.Sizes.{row_cells, most_nodes};
ghost use Rattle.tree_rules.specs.Refusals.{refusal};
ghost use Rattle.text.specs.Counts.{IsPrefixLen};
ghost use Rattle.text.specs.Growth.{Grown, Added};
ghost use Rattle.parens.specs.Text.{node_text, lines_of, all_lines, accepted_text, printed};

use std::io;
use text::input::read_full;
use text::{put_no, put_ok, put_row};
use tree::sizes;
use tree::table::Table;
use tree_labels::form::class_of;

// One byte more than the longest file, so that a longer one shows.
const FILE: usize = sizes::MOST_FILE_BYTES + 1;

// The cells of the most nodes: in the table, and in the rows.
const CELLS: usize = sizes::NODE_CELLS * (sizes::MOST_NODES as usize);

const ROWS: usize = sizes::ROW_CELLS * (sizes::MOST_NODES as usize);

// The cells of a row, behind the node's number in a line.
const WIDTH: u16 = sizes::ROW_CELLS as u16;

// The most bytes that are printed: a first line of 9, and for each node six for its number and for each cell of its row.
const TEXT: usize = 9 + 6 * (sizes::ROW_CELLS + 1) * (sizes::MOST_NODES as usize);

// ---- lines

// The line of an expression, its number and the five cells of its row; nothing for another node.
fn put_node(out: &mut [u8], end: usize, table: &Table, rows: &[u16], node: u16) -> usize
    ensures { Grown out.old end (node_text table.now.count table.now.cells.now rows.now node) out.new result }
{
    if class_of(table.form_number(node)) != 1 {
        return end;
    }
    put_row(out, end, node, WIDTH, rows)
}

fn put_lines(out: &mut [u8], end: usize, table: &Table, rows: &[u16]) -> usize
    ensures { Grown out.old end (lines_of table.now.count table.now.cells.now rows.now table.now.count) out.new result }
{
    let mut at = end;
    for done in 0..table.count {
        at = put_node(out, at, table, rows, done + 1);
    }
    at
}

// The first line, and the lines of all nodes.
fn put_all(out: &mut [u8], table: &Table, rows: &[u16]) -> usize
    requires { (table.now.count ≤ most_nodes) × (9 + 6 * (row_cells + 1) * most_nodes ≤ length out.old) }
    ensures { Added out.old 0 (all_lines table.now.count table.now.cells.now rows.now) out.new result }
{
    let end = put_ok(out, table.count);
    put_lines(out, end, table, rows)
}

// ---- files

// What is printed for an accepted table. It is not refused again: the walk's reply is 0.
fn put_rows(out: &mut [u8], context: u16, count: u16, table: &[u16]) -> usize
    requires { (refusal context count table.now ≡ 0) × (count ≤ most_nodes) × (9 + 6 * (row_cells + 1) * most_nodes ≤ length out.old) }
    ensures { Added out.old 0 (accepted_text context count table.now) out.new result }
{
    let mut rows = [0u16; ROWS];
    let _ = row_walk::decide(context, count, table, &mut rows);
    let table = Table {
        cells: table,
        count,
    };
    put_all(out, &table, &rows)
}

// What is printed for a file, at the start of `out`.
fn report(file: &[u8], out: &mut [u8; TEXT]) -> usize
    ensures prefix_len { IsPrefixLen result out.new }
    ensures out_after { take result out.new ≡ printed file.now }
{
    let mut table = [0u16; CELLS];
    match file_loader::load(file, &mut table) {
        Err(refusal) => put_no(out, refusal.number()),
        Ok(loaded) => {
            let cells = sizes::NODE_CELLS * ((loaded.count as usize));
            put_rows(out, loaded.context, loaded.count, &table[..cells])
        }
    }
}

fn main(rt: HostRuntime) -> io::Result<()> {
    let mut file = [0u8; FILE];
    let n = read_full(&mut rt.stdin(), &mut file)?;
    let mut out = [0u8; TEXT];
    let end = report(&file[..n], &mut out);
    rt.write_all(&out[..end])
}
