// The tree file of one record is loaded anew, or its rows are decided, or its tokens written, and the answer is
// compared with the recorded one.
ghost use Rattle.std.specs.Prelude.{◌*◌, ◌≤◌, length};
ghost use Rattle.tree.specs.Sizes.{token_cells, most_tokens};

use crate::cells::{BYTES, TABLE};
use crate::record::{FILE, Header, Sizes};
use crate::{cells, record};
use expr::order::CalleeOrder;
use file_loader::Loaded;
use token_writer::Written;
use tree::refusal::Refusal;

// The answer to the first `size` bytes of a file, with the first `lent` cells of a table lent.
fn load_parts(file: &[u8], size: usize, table: &mut [u16], lent: usize) -> Result<Loaded, Refusal>
    requires size_in_bounds { size ≤ length file.now }
    requires lent_in_bounds { lent ≤ length table.old }
{
    file_loader::load(&file[0..size], &mut table[0..lent])
}

// The same with the arrays as they stand in what follows.
fn load(
    file: &[u8; FILE],
    size: usize,
    table: &mut [u16; TABLE],
    lent: usize,
) -> Result<Loaded, Refusal>
    requires size_bound { size ≤ 100_000 }
    requires lent_bound { lent ≤ 65_535 }
{
    load_parts(file, size, table, lent)
}

// ---- files

// Whether the loader's answer is the recorded one, apart from the table.
fn loaded(answer: Result<Loaded, Refusal>, h: Header) -> bool {
    match answer {
        Err(refusal) => record::refuses(h, refusal.number()),
        Ok(loaded) => loaded.context == h.context && record::counts(h, loaded.count),
    }
}

// Whether a file loads as recorded.
pub(crate) fn loads(file: &[u8; FILE], h: Header, cells: &[u8; BYTES], s: Sizes) -> bool
    requires { (s.file ≤ 100_000) × (s.lent ≤ 65_535) × (s.written ≤ 2 * token_cells * most_tokens) }
{
    let mut table = [0u16; TABLE];
    cells::fill(&mut table);
    let answer = load(file, s.file, &mut table, s.lent);
    loaded(answer, h) && cells::written(&table, cells, s.written / 2)
}

// ---- rows

// The reply to deciding the rows of a loaded table in a callee order.
fn decide_loaded(
    order: CalleeOrder,
    loaded: Result<Loaded, Refusal>,
    table: &[u16; TABLE],
    rows: &mut [u16],
    lent: usize,
) -> u16
    requires { lent ≤ length rows.old }
{
    match loaded {
        Err(refusal) => refusal.number(),
        Ok(Loaded { context, count }) => {
            row_walk::reply_number(row_walk::decide_by(
                order,
                context,
                count,
                table,
                &mut rows[0..lent],
            ))
        }
    }
}

// The reply to deciding the rows of a file in a callee order, with `lent` cells of rows lent.
fn decide(
    order: CalleeOrder,
    file: &[u8; FILE],
    size: usize,
    rows: &mut [u16; TABLE],
    lent: usize,
) -> u16
    requires size_bound { size ≤ 100_000 }
    requires lent_bound { lent ≤ 65_535 }
{
    let mut table = [0u16; TABLE];
    let loaded = load(file, size, &mut table, TABLE);
    decide_loaded(order, loaded, &table, rows, lent)
}

// Whether the rows of a file are as recorded.
pub(crate) fn decides(
    order: CalleeOrder,
    file: &[u8; FILE],
    reply: u16,
    cells: &[u8; BYTES],
    s: Sizes,
) -> bool
    requires { (s.file ≤ 100_000) × (s.lent ≤ 65_535) × (s.written ≤ 2 * token_cells * most_tokens) }
{
    let mut rows = [0u16; TABLE];
    cells::fill(&mut rows);
    decide(order, file, s.file, &mut rows, s.lent) == reply
        && cells::written(&rows, cells, s.written / 2)
}

// ---- tokens

// The writer's answer for a loaded table.
fn write_loaded(
    loaded: Result<Loaded, Refusal>,
    table: &[u16; TABLE],
    tokens: &mut [u16],
    lent: usize,
) -> Result<Written, Refusal>
    requires { lent ≤ length tokens.old }
{
    let Loaded { context, count } = loaded?;
    token_writer::write(context, count, table, &mut tokens[0..lent])
}

// The writer's answer for a file, with `lent` cells of tokens lent.
fn write(
    file: &[u8; FILE],
    size: usize,
    tokens: &mut [u16; TABLE],
    lent: usize,
) -> Result<Written, Refusal>
    requires size_bound { size ≤ 100_000 }
    requires lent_bound { lent ≤ 65_535 }
{
    let mut table = [0u16; TABLE];
    let loaded = load(file, size, &mut table, TABLE);
    write_loaded(loaded, &table, tokens, lent)
}

// Whether the writer's answer is the recorded one, apart from the tokens.
fn wrote(answer: Result<Written, Refusal>, h: Header) -> bool {
    match answer {
        Err(refusal) => record::refuses(h, refusal.number()),
        Ok(written) => record::counts(h, written.tokens),
    }
}

// Whether the tokens of a file are as recorded.
pub(crate) fn writes(file: &[u8; FILE], h: Header, cells: &[u8; BYTES], s: Sizes) -> bool
    requires { (s.file ≤ 100_000) × (s.lent ≤ 65_535) × (s.written ≤ 2 * token_cells * most_tokens) }
{
    let mut tokens = [0u16; TABLE];
    cells::fill(&mut tokens);
    let answer = write(file, s.file, &mut tokens, s.lent);
    wrote(answer, h) && cells::written(&tokens, cells, s.written / 2)
}
