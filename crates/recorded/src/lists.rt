// The token list of one record is read anew, and the answer is compared with the recorded one.
ghost use Rattle.std.specs.Prelude.{◌*◌, ◌≤◌, length};
ghost use Rattle.tree.specs.Sizes.{token_cells, most_tokens};

use crate::cells::{BYTES, TABLE};
use crate::record::{FILE, Header, Sizes};
use crate::{cells, record};
use tree::refusal::Refusal;

// The most cells of a list: two bytes of a file each.
pub(crate) const CODES: usize = 50_000;

// The codes that stand in the first `2 * n` bytes.
pub(crate) fn gather(file: &[u8; FILE], codes: &mut [u16], n: usize)
    requires n_bound { n ≤ 50_000 }
    requires n_in_bounds { n ≤ length codes.old }
{
    for at in 0..n {
        codes[at] = record::pair(file[2 * at], file[2 * at + 1]);
    }
}

// The answer to the first `n` codes in a context, with the first `lent` cells of a table lent.
fn read_parts(
    context: u16,
    codes: &[u16],
    n: usize,
    table: &mut [u16],
    lent: usize,
) -> Result<u16, Refusal>
    requires n_in_bounds { n ≤ length codes.now }
    requires lent_in_bounds { lent ≤ length table.old }
{
    token_reader::read(context, &codes[0..n], &mut table[0..lent])
}

// The answer to the codes in the first `size` bytes, in the header's context.
fn read(
    h: Header,
    file: &[u8; FILE],
    size: usize,
    table: &mut [u16; TABLE],
    lent: usize,
) -> Result<u16, Refusal>
    requires size_bound { size ≤ 100_000 }
    requires lent_bound { lent ≤ 65_535 }
{
    let mut codes = [0u16; CODES];
    let n = size / 2;
    gather(file, &mut codes, n);
    read_parts(h.context, &codes, n, table, lent)
}

// Whether the reader's answer is the recorded one, apart from the table.
fn found(answer: Result<u16, Refusal>, h: Header) -> bool {
    match answer {
        Err(refusal) => record::refuses(h, refusal.number()),
        Ok(count) => record::counts(h, count),
    }
}

// Whether a token list reads as recorded.
pub(crate) fn reads(file: &[u8; FILE], h: Header, cells: &[u8; BYTES], s: Sizes) -> bool
    requires { (s.file ≤ 100_000) × (s.lent ≤ 65_535) × (s.written ≤ 2 * token_cells * most_tokens) }
{
    let mut table = [0u16; TABLE];
    cells::fill(&mut table);
    let answer = read(h, file, s.file, &mut table, s.lent);
    found(answer, h) && cells::written(&table, cells, s.written / 2)
}
