// What the program prints.
use crate::record::REPLIES;
use std::io;
use text::print::{counted, line};

// The line of one number of refusal.
fn refused(rt: &impl Print, reply: u64, agreed: u64) -> io::Result<()> {
    counted(rt, b"refused ", reply)?;
    counted(rt, b": ", agreed)?;
    line(rt, b"")
}

// The lines of the numbers of refusal that occurred.
fn refusals(rt: &impl Print, met: &[u64; REPLIES], agreed: &[u64; REPLIES]) -> io::Result<()> {
    for i in 1..REPLIES {
        if met[i] > 0 {
            refused(rt, i as u64, agreed[i])?;
        }
    }
    Ok(())
}

// All lines, for `files` records of which `different` differ.
pub(crate) fn all(
    rt: &impl Print,
    met: &[u64; REPLIES],
    agreed: &[u64; REPLIES],
    files: u64,
    different: u64,
) -> io::Result<()> {
    counted(rt, b"accepted ", agreed[0])?;
    line(rt, b"")?;
    refusals(rt, met, agreed)?;
    counted(rt, b"files ", files)?;
    counted(rt, b", different ", different)?;
    line(rt, b"")
}
