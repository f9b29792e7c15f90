// Trees as tree files: one file for one tree.
#![tactic(auto)]

ghost use Rattle.std.specs.Prelude.{◌≡◌, true, ◌∷◌, ◌+◌, ◌*◌, ◌≤◌, ◌<◌, ◌^◌, leb, ltb, count_by, length};
ghost use Rattle.laws.specs.Puts.{Put};
ghost use Rattle.tree.specs.Sizes.{node_cells};
ghost use Rattle.tree.specs.Replies.{replied};
ghost use Rattle.tree_rules.specs.Refusals.{Accepted};
ghost use Rattle.file_bytes.specs.Bytes.{bytes_of, all_bytes};
ghost use Rattle.file_save.specs.Saves.{counted_of, stored, stored_after, saved, saved_after};
ghost use Rattle.file_save.specs.Stores.{Leaves};

use tree::refusal::Refusal;
use tree::sizes;
use tree::table::Table;
use tree_numbering::accepted::number;

// ---- numbers as bytes

// How many bytes a number takes.
#[tactic(auto, unfolding(file_bytes::specs::Bytes::bytes_of, laws::specs::Choice::pick))]
fn long(value: u16) -> usize
    ensures { result ≡ length (bytes_of value) }
{
    match value {
        0..=127 => 1,
        128..=16383 => 2,
        _ => 3,
    }
}

// What several numbers leave of so many bytes; none where they take more.
fn left_after(numbers: &[u16], room: usize) -> Option<usize>
    ensures { Leaves (all_bytes numbers.now) room result }
{
    let mut left = room;
    for &number in numbers {
        left = left.checked_sub(long(number))?;
    }
    Some(left)
}

// How many numbers take more than one byte. By a loop, in which a compiler tests several numbers at a time: by `filter`
// and `count` each is a branch, and saving 4,096 nodes takes 1.2 times as long.
fn longer(numbers: &[u16]) -> usize
    ensures { result ≡ count_by (λ n. leb 128 n) numbers.now }
{
    let mut found = 0;
    for &number in numbers {
        if 128 <= number {
            found += 1;
        }
    }
    found
}

// Whether so many bytes are enough for several numbers even if each that takes more than one takes three, and none takes more: no number's bytes are counted.
#[tactic(auto, using(crate::proofs::Small::longer_bytes))]
fn is_enough(numbers: &[u16], room: usize) -> bool
    ensures { result ≡ true → length (all_bytes numbers.now) ≤ room }
{
    if room < numbers.len() {
        return false;
    }
    longer(numbers) <= (room - numbers.len()) / 2
}

// A number from a place on; answers the place behind it.
fn put(file: &mut [u8], at: usize, value: u16) -> usize
    requires { at + length (bytes_of value) ≤ length file.old }
    ensures { Put file.old at (bytes_of value) file.new result }
{
    if value < 128 {
        file[at] = value as u8;
        return at + 1;
    }
    file[at] = (128 + value % 128) as u8;
    if value < 16384 {
        file[at + 1] = (value / 128) as u8;
        return at + 2;
    }
    file[at + 1] = (128 + value / 128 % 128) as u8;
    file[at + 2] = (value / 16384) as u8;
    at + 3
}

// Several numbers from a place on; answers the place behind them.
fn put_all(file: &mut [u8], from: usize, numbers: &[u16]) -> usize
    requires { from + length (all_bytes numbers.now) ≤ length file.old }
    ensures { Put file.old from (all_bytes numbers.now) file.new result }
{
    let mut at = from;
    for &number in numbers {
        at = put(file, at, number);
    }
    at
}

// ---- files

// Whether so many bytes are too few for a context, a count and the numbers of the nodes. They are counted only where room for three a number is not certain, nor room for three for each number of 128 and above and one for each other.
fn is_short(context: u16, count: u16, numbers: &[u16], room: usize) -> bool
    ensures { result ≡ ltb room (length (all_bytes (context ∷ count ∷ numbers.now))) }
{
    let thirds = room / 3;
    if numbers.len() < thirds && 1 < thirds - numbers.len() {
        return false;
    }
    let header = long(context) + long(count);
    if room < header {
        return true;
    }
    if is_enough(numbers, room - header) {
        return false;
    }
    left_after(numbers, room - header).is_none()
}

// The most bytes of so many that an answer can count.
fn counted(room: usize) -> usize
    ensures { result ≡ counted_of room }
{
    room.min(sizes::MOST_FILE_BYTES - 1)
}

// A context, a count and the numbers of the nodes as a file: how many bytes of the lent buffer are it, where the buffer has room for it. Nothing is stored before that is known.
pub fn store(context: u16, count: u16, numbers: &[u16], file: &mut [u8]) -> Result<u16, Refusal>
    ensures reply { result ≡ stored (all_bytes (context ∷ count ∷ numbers.now)) (counted_of (length file.old)) }
    ensures file { file.new ≡ stored_after (all_bytes (context ∷ count ∷ numbers.now)) (counted_of (length file.old)) file.old }
{
    if is_short(context, count, numbers, counted(file.len())) {
        return Err(Refusal::Short);
    }
    let second = put(file, 0, context);
    let body = put(file, second, count);
    let end = put_all(file, body, numbers);
    Ok(end as u16)
}

// The tree of a node table as a file, with a lent array for its numbering. An accepted table has room in it.
fn save_in(
    context: u16,
    count: u16,
    table: &[u16],
    own: &mut [u16],
    file: &mut [u8],
) -> Result<u16, Refusal>
    requires { Accepted context count table.now → node_cells * count ≤ length own.old }
    ensures value { result ≡ saved context count table.now (length file.old) }
    ensures file_after { file.new ≡ saved_after context count table.now file.old }
{
    let numbered = Table {
        cells: table,
        count,
    };
    number(context, &numbered, own)?;
    let cells = sizes::NODE_CELLS * usize::from(count);
    store(context, count, &own[..cells], file)
}

// The cells of fewer than 64 nodes, of fewer than 512, and of as many as there can be.
pub const FEW_CELLS: usize = sizes::NODE_CELLS * 64;

pub const SOME_CELLS: usize = sizes::NODE_CELLS * 512;

pub const MOST_CELLS: usize = sizes::NODE_CELLS * (sizes::MOST_NODES as usize);

// The same with an array of its own: one for few nodes is quickly made.
fn save_by<const CELLS: usize>(
    context: u16,
    count: u16,
    table: &[u16],
    file: &mut [u8],
) -> Result<u16, Refusal>
    requires room { Accepted context count table.now → node_cells * count ≤ CELLS }
    requires small { CELLS < 2 ^ 20 }
    ensures value { result ≡ saved context count table.now (length file.old) }
    ensures file_after { file.new ≡ saved_after context count table.now file.old }
{
    let mut own = [0u16; CELLS];
    save_in(context, count, table, &mut own, file)
}

// The tree of a node table as a file in a lent buffer, its nodes numbered from the root on: how many bytes it has, or the first refusal that applies.
pub fn save(context: u16, count: u16, table: &[u16], file: &mut [u8]) -> Result<u16, Refusal>
    ensures reply { result ≡ saved context count table.now (length file.old) }
    ensures file { file.new ≡ saved_after context count table.now file.old }
{
    match count {
        0..=63 => save_by::<FEW_CELLS>(context, count, table, file),
        64..=511 => save_by::<SOME_CELLS>(context, count, table, file),
        _ => save_by::<MOST_CELLS>(context, count, table, file),
    }
}
