// Cells that are lent, and what they hold before and after.
ghost use Rattle.std.specs.Prelude.{◌*◌, ◌≤◌};
ghost use Rattle.tree.specs.Sizes.{token_cells, most_tokens};

use crate::record;
use tree::sizes;

// The cells of each lent buffer.
pub const TABLE: usize = 65_535;

// The most cells that a reply writes: those of the most tokens, twice those of the most nodes.
pub const CELLS: usize = sizes::TOKEN_CELLS * sizes::MOST_TOKENS;

// Their bytes.
pub const BYTES: usize = 2 * CELLS;

// What cell `i` holds before: no two cells of a buffer hold the same.
fn pattern(i: usize) -> u16 {
    ((i % 65_536 * 7 + 3) % 65_536) as u16
}

// Fills a buffer with the pattern.
pub(crate) fn fill(table: &mut [u16; TABLE]) {
    for i in 0..TABLE {
        table[i] = pattern(i);
    }
}

// Whether all cells from `from` on keep the pattern.
fn keeps(table: &[u16; TABLE], from: usize) -> bool {
    for i in from..TABLE {
        if table[i] != pattern(i) {
            return false;
        }
    }
    true
}

// Whether the first `n` cells are those that are recorded in `cells`.
fn same(table: &[u16; TABLE], cells: &[u8; BYTES], n: usize) -> bool
    requires { n ≤ token_cells * most_tokens }
{
    for i in 0..n {
        if table[i] != record::pair(cells[2 * i], cells[2 * i + 1]) {
            return false;
        }
    }
    true
}

// The same, and whether all others keep the pattern.
pub(crate) fn written(table: &[u16; TABLE], cells: &[u8; BYTES], n: usize) -> bool
    requires { n ≤ token_cells * most_tokens }
{
    same(table, cells, n) && keeps(table, n)
}

// What each byte of a buffer of bytes holds before.
pub(crate) const BYTE: u8 = 165;

// Whether the first `n` bytes are those that are recorded in `bytes`, and all others are as before.
pub(crate) fn saved(file: &[u8; TABLE], bytes: &[u8; BYTES], n: usize) -> bool
    requires { n ≤ 2 * token_cells * most_tokens }
{
    for i in 0..TABLE {
        let meant = if i < n { bytes[i] } else { BYTE };
        if file[i] != meant {
            return false;
        }
    }
    true
}
