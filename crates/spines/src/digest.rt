// Digests of rows. A block's digest is recorded from the crate's own rows by the same steps.
ghost use Rattle.std.specs.Prelude.{◌<◌, ◌≤◌};

use crate::stems::ROWS;
use tree::sizes;

// A prime below 2^46, so that no step passes 64 bits.
const PRIME: u64 = 70_368_744_177_643;

// The digest with one more number.
pub(crate) fn add(digest: u64, number: u64) -> u64
    requires digest_bound { digest < 70_368_744_177_643 }
    requires number_bound { number ≤ 140_000_000_000_000 }
    ensures { result < 70_368_744_177_643 }
{
    (digest * 65_599 + number) % PRIME
}

// A row as one number: no number of a row reaches 64, and flags do not reach 4,096.
fn row(pair: u64, precedence: u64, previous: u64, next: u64, flags: u64) -> u64
    requires pair_bound { pair ≤ 65_535 }
    requires precedence_bound { precedence ≤ 65_535 }
    requires previous_bound { previous ≤ 65_535 }
    requires next_bound { next ≤ 65_535 }
    requires flags_bound { flags ≤ 65_535 }
    ensures { result ≤ 140_000_000_000_000 }
{
    (((pair * 64 + precedence) * 64 + previous) * 64 + next) * 4_096 + flags
}

// The row that begins at a cell.
fn row_at(rows: &[u16; ROWS], at: usize) -> u64
    requires { at ≤ 95 }
    ensures { result ≤ 140_000_000_000_000 }
{
    row(
        u64::from(rows[at]),
        u64::from(rows[at + 1]),
        u64::from(rows[at + 2]),
        u64::from(rows[at + 3]),
        u64::from(rows[at + 4]),
    )
}

// The digest with the rows of so many nodes, behind their number.
pub(crate) fn add_rows(digest: u64, rows: &[u16; ROWS], count: usize) -> u64
    requires digest_bound { digest < 70_368_744_177_643 }
    requires count_bound { count ≤ 20 }
    ensures { result < 70_368_744_177_643 }
{
    let mut sum = add(digest, count as u64);
    for node in 0..count {
        sum = add(sum, row_at(rows, sizes::ROW_CELLS * node));
    }
    sum
}
