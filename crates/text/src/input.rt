// What is read at once into a lent buffer.
ghost use Rattle.std.specs.Prelude.{IfOk};
ghost use Rattle.text.specs.Counts.{IsPrefixLen};

use std::io;
use std::io::Read;

// Reads until `buf` is full or the input ends, and answers how many bytes then stand at its start.
pub fn read_full(reader: &mut impl Read, buf: &mut [u8]) -> io::Result<usize>
    ensures { IfOk result (λ n. IsPrefixLen n buf.new) }
{
    let mut done = 0;
    while done < buf.len() {
        let n = reader.read(&mut buf[done..])?;
        if n == 0 {
            break;
        }
        done += n;
    }
    Ok(done)
}
