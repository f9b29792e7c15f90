// Blocks of spines: a block is the spines of the same forms, left of each next operator and over each end.
ghost use Rattle.std.specs.Prelude.{◌<◌, ◌≤◌};

use crate::stems::{BYTES, CELLS, ENDS, NEXTS, ROWS};
use crate::{digest, stems};
use expr::order::CalleeOrder;

// The forms of a block, by the numbers of their stems, from the top down: one, two or three of them.
#[derive(Clone, Copy)]
pub struct Forms {
    pub length: usize,
    pub first: usize,
    pub second: usize,
    pub third: usize,
}

// The digest with the rows of the tree of so many nodes, in context 0 and the crate's callee order. A refusal counts as a tree of more nodes than any
// has.
fn with_tree(digest: u64, cells: &[u16; CELLS], count: usize) -> u64
    requires digest_bound { digest < 70_368_744_177_643 }
    requires count_bound { count ≤ 20 }
    ensures { result < 70_368_744_177_643 }
{
    let mut rows = [0u16; ROWS];
    let reply = row_walk::decide_by(CalleeOrder::Crates, 0, count as u16, cells, &mut rows);
    if reply.is_err() {
        return digest::add(digest, 1_000);
    }
    digest::add_rows(digest, &rows, count)
}

// The digest with a spine over each end, the stems above it standing in the table.
fn with_ends(digest: u64, stems: &[u8; BYTES], cells: &mut [u16; CELLS], before: usize) -> u64
    requires digest_bound { digest < 70_368_744_177_643 }
    requires before_bound { before ≤ 16 }
    ensures { result < 70_368_744_177_643 }
{
    let mut sum = digest;
    for end in 0..ENDS {
        let count = stems::lay(stems, NEXTS + end, cells, before);
        sum = with_tree(sum, cells, count);
    }
    sum
}

// Lays the forms behind the nodes that stand in the table, and answers how many then do.
fn lay_forms(stems: &[u8; BYTES], forms: Forms, cells: &mut [u16; CELLS], before: usize) -> usize
    requires first_bound { forms.first ≤ 1_000 }
    requires second_bound { forms.second ≤ 1_000 }
    requires third_bound { forms.third ≤ 1_000 }
    requires before_bound { before ≤ 4 }
    ensures { result ≤ 16 }
{
    let one = stems::lay(stems, forms.first, cells, before);
    if forms.length < 2 {
        return one;
    }
    let two = stems::lay(stems, forms.second, cells, one);
    if forms.length < 3 {
        return two;
    }
    stems::lay(stems, forms.third, cells, two)
}

// The digest of the rows of a block.
pub(crate) fn digest_of(stems: &[u8; BYTES], forms: Forms) -> u64
    requires first_bound { forms.first ≤ 1_000 }
    requires second_bound { forms.second ≤ 1_000 }
    requires third_bound { forms.third ≤ 1_000 }
{
    let mut cells = [0u16; CELLS];
    let mut sum = 0;
    for next in 0..NEXTS {
        let above = stems::lay(stems, next, &mut cells, 0);
        let before = lay_forms(stems, forms, &mut cells, above);
        sum = with_ends(sum, stems, &mut cells, before);
    }
    sum
}
