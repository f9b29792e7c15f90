// Reads a token list on standard input, all numbers in seven-bit groups: the context, and then two for each token, its
// code and its symbol. Prints how many nodes the list's reading has and the six numbers of each, or the number of the
// refusal.
#![tactic(auto)]

ghost use Rattle.std.specs.Prelude.{◌+◌, ◌*◌, ◌≤◌, length, take};
ghost use Rattle.tree.specs.Sizes.{node_cells, most_nodes, most_tokens};
ghost use Rattle.text.specs.Counts.{IsPrefixLen};
ghost use Rattle.text.specs.Growth.{Grown, Added};
ghost use Rattle.reading.specs.Text.{numbers_in, tokens_in, nodes_text, table_text, Answered, Printed};
ghost use Rattle.reading.specs.Gathering.{Gathered};

use file_numbers::number_at;
use std::io;
use text::input::read_full;
use text::{put_no, put_ok, put_row};
use tree::sizes;

// One byte more than a context that the reader takes and the longest token list, so that a longer one shows: of each
// token one byte for its code and three for its symbol. What is longer has a context of two bytes, which is 3 or
// malformed, a code of two bytes, more than 24,576 tokens or a malformed number, all 14.
const FILE: usize = 4 * sizes::MOST_TOKENS + 2;

// The cells of the most nodes.
const CELLS: usize = sizes::NODE_CELLS * (sizes::MOST_NODES as usize);

// The numbers of a node, behind its own in a line.
const WIDTH: u16 = sizes::NODE_CELLS as u16;

// The most bytes that are printed: a first line of 9, and for each node six for its number and for each of its cells.
const TEXT: usize = 9 + 6 * (sizes::NODE_CELLS + 1) * (sizes::MOST_NODES as usize);

// The cells of the tokens that stand in a file from `start` on, at the start of `cells`: how many they are. Where a
// number is malformed, it is one cell by itself, which is no token.
fn gather(file: &[u8], start: usize, cells: &mut [u16]) -> usize
    requires { length file.now ≤ length cells.old }
    ensures { Gathered file.now start cells.old cells.new result }
{
    let mut at = start;
    let mut count = 0;
    while at < file.len() {
        match number_at(file, at) {
            None => {
                cells[0] = 0;
                return 1;
            }
            Some((value, next)) => {
                cells[count] = value;
                count += 1;
                at = next;
            }
        }
    }
    count
}

// The lines of all nodes: of each its number, and its six numbers.
fn put_nodes(out: &mut [u8], end: usize, count: u16, table: &[u16]) -> usize
    ensures { Grown out.old end (nodes_text table.now count) out.new result }
{
    let mut at = end;
    for done in 0..count {
        at = put_row(out, at, done + 1, WIDTH, table);
    }
    at
}

// What is printed for a reading, whose nodes stand in the table.
fn put_table(out: &mut [u8], count: u16, table: &[u16]) -> usize
    requires { (count ≤ most_nodes) × (9 + 6 * (node_cells + 1) * most_nodes ≤ length out.old) }
    ensures { Added out.old 0 (table_text table.now count) out.new result }
{
    let end = put_ok(out, count);
    put_nodes(out, end, count, table)
}

// What is printed for the cells of tokens in a context, at the start of `out`.
fn put_reply(context: u16, cells: &[u16], out: &mut [u8; TEXT]) -> usize
    ensures prefix_len { IsPrefixLen result out.new }
    ensures answered { Answered context cells.now (take result out.new) }
{
    let mut table = [0u16; CELLS];
    match token_reader::read(context, cells, &mut table) {
        Err(refusal) => put_no(out, refusal.number()),
        Ok(count) => put_table(out, count, &table),
    }
}

// What is printed for the tokens of a file from `start` on in a context, at the start of `out`.
fn put_tokens(context: u16, file: &[u8], start: usize, out: &mut [u8; TEXT]) -> usize
    requires { length file.now ≤ 4 * most_tokens + 2 }
    ensures prefix_len { IsPrefixLen result out.new }
    ensures answered { Answered context (tokens_in (numbers_in file.now start)) (take result out.new) }
{
    let mut cells = [0u16; FILE];
    let n = gather(file, start, &mut cells);
    put_reply(context, &cells[..n], out)
}

// What is printed for a file, at the start of `out`.
fn report(file: &[u8], out: &mut [u8; TEXT]) -> usize
    requires { length file.now ≤ 4 * most_tokens + 2 }
    ensures prefix_len { IsPrefixLen result out.new }
    ensures printed { Printed file.now (take result out.new) }
{
    match number_at(file, 0) {
        None => put_no(out, 14),
        Some((context, next)) => put_tokens(context, file, next, out),
    }
}

fn main(rt: HostRuntime) -> io::Result<()> {
    let mut file = [0u8; FILE];
    let n = read_full(&mut rt.stdin(), &mut file)?;
    let mut out = [0u8; TEXT];
    let end = report(&file[..n], &mut out);
    rt.write_all(&out[..end])
}
