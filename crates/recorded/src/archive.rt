// The tree of one record's table is saved anew, or its two files are compared anew, and the answer is compared with the
// recorded one.
ghost use Rattle.std.specs.Prelude.{◌*◌, ◌≤◌, length};
ghost use Rattle.tree.specs.Sizes.{token_cells, most_tokens};

use crate::cells::{BYTE, BYTES, TABLE};
use crate::lists::CODES;
use crate::record::{FILE, Header, Sizes};
use crate::{cells, lists, record};
use std::cmp::Ordering;
use tree::refusal::Refusal;

// ---- saving

// The answer to `n` numbers, a context, a count and the cells of a table, with the first `lent` bytes of a buffer lent.
fn save_parts(numbers: &[u16], n: usize, own: &mut [u8], lent: usize) -> Result<u16, Refusal>
    requires le_n { 2 ≤ n }
    requires n_in_bounds { n ≤ length numbers.now }
    requires lent_in_bounds { lent ≤ length own.old }
{
    file_save::save(numbers[0], numbers[1], &numbers[2..n], &mut own[0..lent])
}

// The answer to the numbers in the first `size` bytes; none where there are not even two.
fn save(
    file: &[u8; FILE],
    size: usize,
    own: &mut [u8; TABLE],
    lent: usize,
) -> Option<Result<u16, Refusal>>
    requires size_bound { size ≤ 100_000 }
    requires lent_bound { lent ≤ 65_535 }
{
    let mut numbers = [0u16; CODES];
    let n = size / 2;
    lists::gather(file, &mut numbers, n);
    if n < 2 {
        return None;
    }
    Some(save_parts(&numbers, n, own, lent))
}

// Whether the answer is the recorded one, apart from the bytes.
pub(crate) fn saved(answer: Result<u16, Refusal>, h: Header) -> bool {
    match answer {
        Err(refusal) => record::refuses(h, refusal.number()),
        Ok(n) => record::counts(h, n),
    }
}

// Whether a table is saved as recorded.
pub(crate) fn saves(file: &[u8; FILE], h: Header, bytes: &[u8; BYTES], s: Sizes) -> bool
    requires { (s.file ≤ 100_000) × (s.lent ≤ 65_535) × (s.written ≤ 2 * token_cells * most_tokens) }
{
    let mut own = [BYTE; TABLE];
    let Some(answer) = save(file, s.file, &mut own, s.lent) else {
        return false;
    };
    saved(answer, h) && cells::saved(&own, bytes, s.written)
}

// ---- comparing

// How what stands in `file` from place 4 up to `first` stands to what stands behind it up to `size`.
fn compare_parts(file: &[u8], first: usize, size: usize) -> Result<Ordering, Refusal>
    requires le_first { 4 ≤ first }
    requires first_le_size { first ≤ size }
    requires size_in_bounds { size ≤ length file.now }
{
    file_order::compare(&file[4..first], &file[first..size])
}

// The answer to the first `size` bytes: the length of the first file, and both files; none where there are fewer.
fn compare(file: &[u8; FILE], size: usize) -> Option<Result<Ordering, Refusal>>
    requires { size ≤ 100_000 }
{
    let long = record::long(
        record::pair(file[0], file[1]),
        record::pair(file[2], file[3]),
    );
    let first = 4 + long;
    if size < first {
        return None;
    }
    Some(compare_parts(file, first, size))
}

// The number of an order in a record.
fn number(order: Ordering) -> u16 {
    match order {
        Ordering::Less => 0,
        Ordering::Equal => 1,
        Ordering::Greater => 2,
    }
}

// Whether two files stand to each other as recorded.
pub(crate) fn orders(file: &[u8; FILE], h: Header, size: usize) -> bool
    requires { size ≤ 100_000 }
{
    match compare(file, size) {
        None => false,
        Some(Err(refusal)) => record::refuses(h, refusal.number()),
        Some(Ok(order)) => record::counts(h, number(order)),
    }
}
