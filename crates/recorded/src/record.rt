// The parts of a record: a header of 12 bytes, the bytes of what is read, and those of what is written.
ghost use Rattle.std.specs.Prelude.{◌≤◌};

use std::io;
use std::io::Read;
use text::input::read_full;

// The bytes of the longest file.
pub const FILE: usize = 100_000;

// The numbers that a reply may have: 0, and those of the refusals.
pub const REPLIES: usize = 23;

// What a header says, with its numbers as they stand there.
#[derive(Clone, Copy, Debug)]
pub struct Header {
    pub lent: u16,
    pub length: usize,
    pub reply: u16,
    pub context: u16,
    pub count: u16,
}

// How many bytes are read, how many cells or bytes are lent, and how many bytes of the record are what the reply writes.
#[derive(Clone, Copy, Debug)]
pub struct Sizes {
    pub file: usize,
    pub lent: usize,
    pub written: usize,
}

// Whether a refusal is the recorded reply.
pub(crate) fn refuses(h: Header, why: u16) -> bool {
    why != 0 && why == h.reply
}

// Whether a count is the recorded one, of a record that is not refused.
pub(crate) fn counts(h: Header, count: u16) -> bool {
    h.reply == 0 && count == h.count
}

// What stands at the start of a record: nothing where the data ends.
#[derive(Clone, Copy, Debug)]
pub enum Start {
    Record(Header),
    End,
    Short,
}

// The number of two bytes, the low one first.
pub(crate) fn pair(low: u8, high: u8) -> u16 {
    u16::from_le_bytes([low, high])
}

// The number of two halves of 16 bits, the low one first.
pub(crate) fn long(low: u16, high: u16) -> usize
    ensures { result ≤ 4_294_967_295 }
{
    usize::from(low) + 65536 * usize::from(high)
}

// The header that stands in 12 bytes.
fn parsed(b: &[u8; 12]) -> Header {
    Header {
        lent: pair(b[0], b[1]),
        length: long(pair(b[2], b[3]), pair(b[4], b[5])),
        reply: pair(b[6], b[7]),
        context: pair(b[8], b[9]),
        count: pair(b[10], b[11]),
    }
}

// Reads a header, or tells that the data ends before it or in it.
pub(crate) fn begin(reader: &mut impl Read) -> io::Result<Start> {
    let mut bytes = [0u8; 12];
    let n = read_full(reader, &mut bytes)?;
    if n == 0 {
        return Ok(Start::End);
    }
    if n < 12 {
        return Ok(Start::Short);
    }
    Ok(Start::Record(parsed(&bytes)))
}

// Reads `n` bytes to the start of `buf`, and answers whether there is room and all of them came.
pub(crate) fn part(reader: &mut impl Read, buf: &mut [u8], n: usize) -> io::Result<bool> {
    if n <= buf.len() {
        Ok(read_full(reader, &mut buf[0..n])? == n)
    } else {
        Ok(false)
    }
}
