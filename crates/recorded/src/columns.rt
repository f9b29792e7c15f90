// The tree file of one record is rearranged anew, or its rearranged file put back anew, and the answer is compared with
// the recorded one.
ghost use Rattle.std.specs.Prelude.{◌*◌, ◌≤◌, length};
ghost use Rattle.tree.specs.Sizes.{token_cells, most_tokens};

use crate::cells::{BYTE, BYTES, TABLE};
use crate::record::{FILE, Header, Sizes};
use crate::{archive, cells};
use tree::refusal::Refusal;

// The answer to the first `size` bytes of a tree file, with the first `lent` bytes of a buffer lent.
fn rearrange(file: &[u8], size: usize, own: &mut [u8], lent: usize) -> Result<u16, Refusal>
    requires size_in_bounds { size ≤ length file.now }
    requires lent_in_bounds { lent ≤ length own.old }
{
    file_columns::to_columns(&file[0..size], &mut own[0..lent])
}

// The same of a rearranged file.
fn restore(file: &[u8], size: usize, own: &mut [u8], lent: usize) -> Result<u16, Refusal>
    requires size_in_bounds { size ≤ length file.now }
    requires lent_in_bounds { lent ≤ length own.old }
{
    file_columns::from_columns(&file[0..size], &mut own[0..lent])
}

// Whether a tree file is rearranged as recorded.
pub(crate) fn rearranges(file: &[u8; FILE], h: Header, bytes: &[u8; BYTES], s: Sizes) -> bool
    requires { (s.file ≤ 100_000) × (s.lent ≤ 65_535) × (s.written ≤ 2 * token_cells * most_tokens) }
{
    let mut own = [BYTE; TABLE];
    let answer = rearrange(file, s.file, &mut own, s.lent);
    archive::saved(answer, h) && cells::saved(&own, bytes, s.written)
}

// Whether a rearranged file is put back as recorded.
pub(crate) fn restores(file: &[u8; FILE], h: Header, bytes: &[u8; BYTES], s: Sizes) -> bool
    requires { (s.file ≤ 100_000) × (s.lent ≤ 65_535) × (s.written ≤ 2 * token_cells * most_tokens) }
{
    let mut own = [BYTE; TABLE];
    let answer = restore(file, s.file, &mut own, s.lent);
    archive::saved(answer, h) && cells::saved(&own, bytes, s.written)
}
