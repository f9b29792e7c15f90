// One record: what it holds is answered anew, and the answer is compared with the recorded one.
ghost use Rattle.std.specs.Prelude.{◌*◌, ◌≤◌};
ghost use Rattle.tree.specs.Sizes.{token_cells, most_tokens};

use crate::cells::{BYTES, TABLE};
use crate::record::{FILE, Header, REPLIES, Sizes, Start};
use crate::{archive, columns, lists, record, trees};
use expr::order::CalleeOrder;
use std::io;
use std::io::Read;
use tree::sizes;

// What records hold.
#[derive(Clone, Copy, Debug)]
pub enum Kind {
    // Tree files, and their tables.
    Files,
    // Tree files, and the rows of their trees in the crate's callee order.
    Rows,
    // The same in ours.
    Callees,
    // Token lists, and the tables of their readings.
    Readings,
    // Tree files, and the tokens of their trees.
    Tokens,
    // Node tables, and the files of their trees.
    Saves,
    // Two tree files, and how the first stands to the second.
    Orders,
    // Tree files, and their rearranged files.
    Columns,
    // Rearranged files, and their tree files.
    Restored,
}

// What came of one record, with the number of the recorded reply.
#[derive(Clone, Copy, Debug)]
pub enum Step {
    Agrees(usize),
    Differs(usize),
    End,
    Damaged,
}

// How many bytes of a record a reply writes: none on a refusal, otherwise those of the cells of each node, row or token,
// or of a file; an order is in the header.
fn bytes_of(kind: Kind, reply: u16, count: usize) -> usize
    requires { count ≤ 65_535 }
{
    if reply != 0 {
        return 0;
    }
    match kind {
        Kind::Files => 2 * sizes::NODE_CELLS * count,
        Kind::Rows => 2 * sizes::ROW_CELLS * count,
        Kind::Callees => 2 * sizes::ROW_CELLS * count,
        Kind::Readings => 2 * sizes::NODE_CELLS * count,
        Kind::Tokens => 2 * sizes::TOKEN_CELLS * count,
        Kind::Saves => count,
        Kind::Columns => count,
        Kind::Restored => count,
        Kind::Orders => 0,
    }
}

// Whether the answer to a record is the recorded one.
fn agrees(kind: Kind, file: &[u8; FILE], h: Header, cells: &[u8; BYTES], s: Sizes) -> bool
    requires { (s.file ≤ 100_000) × (s.lent ≤ 65_535) × (s.written ≤ 2 * token_cells * most_tokens) }
{
    match kind {
        Kind::Files => trees::loads(file, h, cells, s),
        Kind::Rows => trees::decides(CalleeOrder::Crates, file, h.reply, cells, s),
        Kind::Callees => trees::decides(CalleeOrder::Ours, file, h.reply, cells, s),
        Kind::Readings => lists::reads(file, h, cells, s),
        Kind::Tokens => trees::writes(file, h, cells, s),
        Kind::Saves => archive::saves(file, h, cells, s),
        Kind::Orders => archive::orders(file, h, s.file),
        Kind::Columns => columns::rearranges(file, h, cells, s),
        Kind::Restored => columns::restores(file, h, cells, s),
    }
}

// Reads the rest of the record of a header, answers it anew, and compares.
fn replay(reader: &mut impl Read, h: Header, kind: Kind) -> io::Result<Step> {
    let lent = usize::from(h.lent);
    let size = h.length;
    let reply = usize::from(h.reply);
    let written = bytes_of(kind, h.reply, usize::from(h.count));
    if lent > TABLE || size > FILE || reply >= REPLIES || written > BYTES {
        return Ok(Step::Damaged);
    }
    let mut file = [0u8; FILE];
    if !record::part(reader, &mut file, size)? {
        return Ok(Step::Damaged);
    }
    let mut cells = [0u8; BYTES];
    if !record::part(reader, &mut cells, written)? {
        return Ok(Step::Damaged);
    }
    let s = Sizes {
        file: size,
        lent,
        written,
    };
    if agrees(kind, &file, h, &cells, s) {
        Ok(Step::Agrees(reply))
    } else {
        Ok(Step::Differs(reply))
    }
}

// Goes through the next record.
pub(crate) fn next(reader: &mut impl Read, kind: Kind) -> io::Result<Step> {
    match record::begin(reader)? {
        Start::Record(h) => replay(reader, h, kind),
        Start::End => Ok(Step::End),
        Start::Short => Ok(Step::Damaged),
    }
}
