// Reads a tree file on standard input, and prints how many tokens its tree has, their codes and their symbols, or the
// number of the refusal.
#![tactic(auto)]

ghost use Rattle.std.specs.Prelude.{◌≡◌, ◌+◌, ◌*◌, ◌≤◌, length, take, drop};
ghost use Rattle.tree.specs.Sizes.{token_cells, most_tokens};
ghost use Rattle.text.specs.Numbers.{spaced};
ghost use Rattle.text.specs.Counts.{IsPrefixLen};
ghost use Rattle.text.specs.Growth.{Grown, Added};
ghost use Rattle.tokens.specs.Text.{parted, evens, listed, table_text, printed};

use std::io;
use text::input::read_full;
use text::{put_byte, put_no, put_number, put_ok};
use tree::sizes;

// One byte more than the longest file, so that a longer one shows.
const FILE: usize = sizes::MOST_FILE_BYTES + 1;

// The cells of the most nodes in the table, and of the tokens.
const CELLS: usize = sizes::NODE_CELLS * (sizes::MOST_NODES as usize);

const TOKENS: usize = sizes::TOKEN_CELLS * sizes::MOST_TOKENS;

// The most bytes that are printed: a first line of 9, six for each code and each symbol, and two lines' ends.
const TEXT: usize = 9 + 6 * TOKENS + 2;

// Of the numbers from a place on the first of each two, with a space before each.
fn put_every(out: &mut [u8], end: usize, numbers: &[u16], from: usize) -> usize
    requires { from ≤ 3 }
    ensures { Grown out.old end (spaced (evens (drop from numbers.now))) out.new result }
{
    let mut at = end;
    let mut done = from;
    while done < numbers.len() {
        let next = put_byte(out, at, b' ');
        at = put_number(out, next, numbers[done]);
        done += sizes::TOKEN_CELLS;
    }
    at
}

// The same with a space between two.
fn put_column(out: &mut [u8], end: usize, numbers: &[u16], from: usize) -> usize
    requires { from ≤ 1 }
    ensures { Grown out.old end (parted (evens (drop from numbers.now))) out.new result }
{
    if numbers.len() <= from {
        return end;
    }
    let first = put_number(out, end, numbers[from]);
    put_every(out, first, numbers, from + sizes::TOKEN_CELLS)
}

// What is printed for tokens.
fn put_tokens(out: &mut [u8], cells: &[u16]) -> usize
    requires { (length cells.now ≤ token_cells * most_tokens) × (9 + 6 * (token_cells * most_tokens) + 2 ≤ length out.old) }
    ensures { Added out.old 0 (listed cells.now) out.new result }
{
    let head = put_ok(out, (cells.len() / sizes::TOKEN_CELLS) as u16);
    let codes = put_column(out, head, cells, 0);
    let line = put_byte(out, codes, b'\n');
    let symbols = put_column(out, line, cells, 1);
    put_byte(out, symbols, b'\n')
}

// What is printed for a table.
fn put_table(out: &mut [u8], context: u16, count: u16, table: &[u16]) -> usize
    requires { 9 + 6 * (token_cells * most_tokens) + 2 ≤ length out.old }
    ensures { Added out.old 0 (table_text context count table.now) out.new result }
{
    let mut tokens = [0u16; TOKENS];
    match token_writer::write(context, count, table, &mut tokens) {
        Err(refusal) => put_no(out, refusal.number()),
        Ok(written) => {
            let end = sizes::TOKEN_CELLS * (written.tokens as usize);
            put_tokens(out, &tokens[..end])
        }
    }
}

// What is printed for a file, at the start of `out`.
fn report(file: &[u8], out: &mut [u8; TEXT]) -> usize
    ensures prefix_len { IsPrefixLen result out.new }
    ensures out_after { take result out.new ≡ printed file.now }
{
    let mut table = [0u16; CELLS];
    match file_loader::load(file, &mut table) {
        Err(refusal) => put_no(out, refusal.number()),
        Ok(loaded) => {
            let cells = sizes::NODE_CELLS * (loaded.count as usize);
            put_table(out, loaded.context, loaded.count, &table[..cells])
        }
    }
}

fn main(rt: HostRuntime) -> io::Result<()> {
    let mut file = [0u8; FILE];
    let n = read_full(&mut rt.stdin(), &mut file)?;
    let mut out = [0u8; TEXT];
    let end = report(&file[..n], &mut out);
    rt.write_all(&out[..end])
}
