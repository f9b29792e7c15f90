// Goes through blocks of right spines of one, two and three forms, decides the rows of each spine, and compares the digest
// of a block's rows with the one in the file `digests1`, `digests2` or `digests3`, which is of the crate's own rows. The
// file `stems` has what spines are put together from. Without an argument each so many-th block is gone through, with one
// all are.
#![tactic(auto)]

mod block;
mod digest;
mod report;
mod stems;

ghost use Rattle.std.specs.Prelude.{◌<◌, ◌≤◌};

use block::Forms;
use std::env::FillError;
use std::rt::{Env, Files};
use std::{fs, io};
use stems::{BYTES, ENDS, FORMS, KINDS, NEXTS};
use text::input::read_full;
use text::print;

// The bytes of a digest.
const DIGEST: usize = 6;

// Each so many-th block is gone through.
const STEP: usize = 50;

// The number of six bytes, the low one first.
fn number(bytes: &[u8; DIGEST]) -> u64 {
    u64::from_le_bytes([
        bytes[0], bytes[1], bytes[2], bytes[3], bytes[4], bytes[5], 0, 0,
    ])
}

// The last digit of a number in some base.
fn digit(number: usize, base: usize) -> usize
    requires le_base { 1 ≤ base }
    requires base_bound { base ≤ 500 }
    ensures { result ≤ 500 }
{
    number % base
}

// The forms of a block: the digits of its number, each one of `size` stems from `from` on.
fn forms_of(length: usize, block: usize, from: usize, size: usize) -> Forms
    requires le_size { 1 ≤ size }
    requires from_bound { from ≤ 500 }
    requires size_bound { size ≤ 500 }
    ensures first { result.first ≤ 1_000 }
    ensures second { result.second ≤ 1_000 }
    ensures third { result.third ≤ 1_000 }
{
    let rest = block / size;
    Forms {
        length,
        first: from + digit(block, size),
        second: from + digit(rest, size),
        third: from + digit(rest / size, size),
    }
}

// 1 if a block's digest is another, otherwise 0.
fn differs(stems: &[u8; BYTES], forms: Forms, digest: u64) -> u64
    requires first_bound { forms.first ≤ 1_000 }
    requires second_bound { forms.second ≤ 1_000 }
    requires third_bound { forms.third ≤ 1_000 }
    ensures { result ≤ 1 }
{
    u64::from(block::digest_of(stems, forms) != digest)
}

// Goes through the blocks of so many forms out of `size` from `from` on, whose digests are in a file, and prints what came
// of them.
fn run(
    rt: &(impl Files + Print + Eprint),
    name: &str,
    stems: &[u8; BYTES],
    length: usize,
    from: usize,
    size: usize,
    blocks: usize,
    step: usize,
) -> io::Result<()>
    requires le_step { 1 ≤ step }
    requires le_size { 1 ≤ size }
    requires from_bound { from ≤ 500 }
    requires size_bound { size ≤ 500 }
{
    let mut file = match fs::open(rt, name) {
        Ok(file) => file,
        Err(why) => return print::failed(rt, name, why),
    };
    let mut done: u64 = 0;
    let mut different: u64 = 0;
    for block in 0..blocks {
        let mut bytes = [0u8; DIGEST];
        if read_full(&mut file, &mut bytes)? != DIGEST {
            return print::damaged(rt);
        }
        if block % step == 0 {
            different += differs(stems, forms_of(length, block, from, size), number(&bytes));
            done += 1;
        }
    }
    report::all(rt, length as u64, done, different)
}

// Goes through the blocks of one, two and three forms. Of one form there are few, and all are gone through.
fn run_all(rt: &(impl Files + Print + Eprint), stems: &[u8; BYTES], step: usize) -> io::Result<()>
    requires { 1 ≤ step }
{
    run(rt, "digests1", stems, 1, NEXTS + ENDS, FORMS, FORMS, 1)?;
    run(
        rt,
        "digests2",
        stems,
        2,
        NEXTS + ENDS,
        FORMS,
        FORMS * FORMS,
        step,
    )?;
    run(
        rt,
        "digests3",
        stems,
        3,
        NEXTS + ENDS + FORMS,
        KINDS,
        KINDS * KINDS * KINDS,
        step,
    )
}

// Reads the stems, and answers whether they are there.
fn read_stems(rt: &(impl Files + Eprint), stems: &mut [u8; BYTES]) -> io::Result<bool> {
    let mut file = match fs::open(rt, "stems") {
        Ok(file) => file,
        Err(why) => {
            print::failed(rt, "stems", why)?;
            return Ok(false);
        }
    };
    Ok(read_full(&mut file, stems)? == BYTES)
}

// Whether the program was started with an argument, of whatever bytes.
fn has_argument(rt: &impl Env) -> bool {
    !matches!(rt.arg(1, &mut []), Err(FillError::NotPresent))
}

fn main(rt: HostRuntime) -> io::Result<()> {
    let mut stems = [0u8; BYTES];
    if !read_stems(&rt, &mut stems)? {
        return print::damaged(&rt);
    }
    if has_argument(&rt) {
        run_all(&rt, &stems, 1)
    } else {
        run_all(&rt, &stems, STEP)
    }
}
