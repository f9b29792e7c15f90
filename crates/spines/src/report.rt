// What the program prints.
use std::io;
use text::print::{counted, line};

// The line for spines of so many forms.
pub(crate) fn all(rt: &impl Print, forms: u64, blocks: u64, different: u64) -> io::Result<()> {
    counted(rt, b"forms ", forms)?;
    counted(rt, b": blocks ", blocks)?;
    counted(rt, b", different ", different)?;
    line(rt, b"")
}
