// What is written at once, by programs whose reports no contract describes.
use std::fmt::InlineText;
use std::io;

// Words, and a number behind them.
pub fn counted(rt: &impl Print, words: &[u8], n: u64) -> io::Result<()> {
    rt.write_all(words)?;
    rt.print(n)
}

// Words, and a line's end.
pub fn line(rt: &impl Print, words: &[u8]) -> io::Result<()> {
    rt.write_all(words)?;
    rt.write_all(b"\n")
}

// The most bytes of an error's text: std's words are at most 256, and its number behind them.
const WORDS: usize = 288;

// On standard error, what could not be opened and why, in C's words: without the number that `io::Error` adds to them.
pub fn failed(rt: &impl Eprint, what: &str, why: io::Error) -> io::Result<()> {
    let text = InlineText::<WORDS>::of(why);
    let words = text.as_str().split(" (os error ").next().unwrap_or("");
    eprintln!(rt; "{what}: {words}")
}

// The line for data that is cut off, or holds what no record does.
pub fn damaged(rt: &impl Print) -> io::Result<()> {
    line(rt, b"damaged data")
}
