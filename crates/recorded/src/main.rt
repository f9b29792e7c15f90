// Goes through the recorded files and replies in the file `files`, loads each file with `file_loader`, and prints how
// many replies agree with the recorded ones. Then the same with the file `rows` and the rows that `row_walk` decides in
// the crate's callee order, with `callees` and those in ours, with `readings` and what `token_reader` reads, with `tokens`
// and what `token_writer` writes, with `saves` and what `file_save` saves, with `orders` and what `file_order` says of two
// files, and with `columns` and `restored` and what `file_columns` rearranges and puts back.
#![tactic(auto)]

mod archive;
mod cells;
mod columns;
mod judge;
mod lists;
mod record;
mod report;
mod trees;

use judge::{Kind, Step};
use record::REPLIES;
use std::io::Read;
use std::rt::Files;
use std::{fs, io};
use text::print;

// The most records: data that has more counts as damaged.
const MOST: u64 = 100_000;

// Counts one more at the number of a reply.
fn bump(counts: &mut [u64; REPLIES], reply: usize) {
    if reply < REPLIES {
        let n = counts[reply];
        if n < MOST {
            counts[reply] = n + 1;
        }
    }
}

// Goes through all records and prints what came of them.
fn run(rt: &impl Print, reader: &mut impl Read, kind: Kind) -> io::Result<()> {
    let mut met = [0u64; REPLIES];
    let mut agreed = [0u64; REPLIES];
    let mut different: u64 = 0;
    for files in 0..=MOST {
        match judge::next(reader, kind)? {
            Step::End => {
                return report::all(rt, &met, &agreed, files, different);
            }
            Step::Damaged => {
                return print::damaged(rt);
            }
            Step::Agrees(reply) => {
                bump(&mut met, reply);
                bump(&mut agreed, reply);
            }
            Step::Differs(reply) => {
                bump(&mut met, reply);
                different += 1;
            }
        }
    }
    print::damaged(rt)
}

// Opens a file of records and goes through them, or says why it cannot be opened.
fn open(rt: &(impl Files + Print + Eprint), path: &str, kind: Kind) -> io::Result<()> {
    match fs::open(rt, path) {
        Ok(mut file) => run(rt, &mut file, kind),
        Err(why) => print::failed(rt, path, why),
    }
}

// The same below a line with the file's name.
fn open_named(rt: &(impl Files + Print + Eprint), name: &str, kind: Kind) -> io::Result<()> {
    print::line(rt, name.as_bytes())?;
    open(rt, name, kind)
}

fn main(rt: HostRuntime) -> io::Result<()> {
    open(&rt, "files", Kind::Files)?;
    open_named(&rt, "rows", Kind::Rows)?;
    open_named(&rt, "callees", Kind::Callees)?;
    open_named(&rt, "readings", Kind::Readings)?;
    open_named(&rt, "tokens", Kind::Tokens)?;
    open_named(&rt, "saves", Kind::Saves)?;
    open_named(&rt, "orders", Kind::Orders)?;
    open_named(&rt, "columns", Kind::Columns)?;
    open_named(&rt, "restored", Kind::Restored)
}
