// A text that grows at the end of what stands in a lent buffer. Each function adds to it, and answers where it
// then ends; bytes for which there is no room are left out.
#![tactic(auto)]

pub mod input; // input.rt: what is read at once into a lent buffer
pub mod print; // print.rt: what is written on standard output at once

ghost use Rattle.std.specs.Prelude.{[], ◌∷◌, ◌≡◌, ◌+◌, ◌-◌, ◌<◌, take, drop};
ghost use Rattle.text.specs.Growth.{Grown};
ghost use Rattle.text.specs.Numbers.{decimal, spaced, line, row_line, headed, ok_line, no_line};

pub fn put_byte(out: &mut [u8], end: usize, byte: u8) -> usize
    ensures { Grown out.old end (byte ∷ []) out.new result }
{
    if end < out.len() {
        out[end] = byte;
        return end + 1;
    }
    end
}

fn digit(n: u16) -> u8
    requires { n < 10 }
    ensures { result ≡ 48 + n }
{
    48 + n as u8
}

pub fn put_number(out: &mut [u8], end: usize, n: u16) -> usize
    ensures { Grown out.old end (decimal n) out.new result }
{
    if n < 10 {
        return put_byte(out, end, digit(n));
    }
    let next = put_number(out, end, n / 10);
    put_byte(out, next, digit(n % 10))
}

// Numbers with a space before each.
pub fn put_spaced(out: &mut [u8], end: usize, numbers: &[u16]) -> usize
    ensures { Grown out.old end (spaced numbers.now) out.new result }
{
    let mut at = end;
    for &number in numbers {
        let next = put_byte(out, at, b' ');
        at = put_number(out, next, number);
    }
    at
}

// A number, and more numbers with a space before each, as a line.
pub fn put_line(out: &mut [u8], end: usize, n: u16, numbers: &[u16]) -> usize
    ensures { Grown out.old end (line n numbers.now) out.new result }
{
    let first = put_number(out, end, n);
    let last = put_spaced(out, first, numbers);
    put_byte(out, last, b'\n')
}

// At most so many numbers from a place on.
fn part(numbers: &[u16], from: usize, most: usize) -> &[u16]
    ensures { result.now ≡ take most (drop from numbers.now) }
{
    let rest = numbers.get(from..).unwrap_or_default();
    rest.get(..most).unwrap_or(rest)
}

// The line of a row: its number, counted from 1, and its cells, of which each row of the table has so many.
#[tactic(auto, unfolding(crate::specs::Numbers::row_line))]
pub fn put_row(out: &mut [u8], end: usize, n: u16, width: u16, table: &[u16]) -> usize
    ensures { Grown out.old end (row_line width table.now n) out.new result }
{
    let cells = usize::from(width);
    let from = cells * usize::from(n.saturating_sub(1));
    put_line(out, end, n, part(table, from, cells))
}

// Two letters and a number, as a first line.
fn put_head(out: &mut [u8], first: u8, second: u8, n: u16) -> usize
    ensures { Grown out.old 0 (headed first second n) out.new result }
{
    let one = put_byte(out, 0, first);
    let two = put_byte(out, one, second);
    let three = put_byte(out, two, b' ');
    let end = put_number(out, three, n);
    put_byte(out, end, b'\n')
}

// "ok" and a number, as a first line.
pub fn put_ok(out: &mut [u8], n: u16) -> usize
    ensures { Grown out.old 0 (ok_line n) out.new result }
{
    put_head(out, b'o', b'k', n)
}

// "no" and the number of a refusal, as a first line.
pub fn put_no(out: &mut [u8], n: u16) -> usize
    ensures { Grown out.old 0 (no_line n) out.new result }
{
    put_head(out, b'n', b'o', n)
}
