// Tree files: the loader of a file into a lent node table.
#![tactic(auto)]

ghost use Rattle.std.specs.Prelude.{◌≡◌, false, ◌+◌, ◌*◌, ◌≤◌, ◌<◌, ◌^◌, IfSome, Some, length, drop};
ghost use Rattle.laws.specs.Lists.{over};
ghost use Rattle.tree.specs.Sizes.{node_cells, most_file_bytes};
ghost use Rattle.tree.specs.Replies.{replied};
ghost use Rattle.tree_source.specs.Source.{next_at};
ghost use Rattle.file_numbers.specs.Numbers.{malformed};
ghost use Rattle.file_loader.specs.Several.{numbers_of, is_broken, values_in};
ghost use Rattle.file_loader.specs.Files.{header_in, HeaderRead, bad_body, file_refusal, loaded, loaded_table, numbers_loaded, numbers_table};
ghost use Rattle.file_loader.specs.Reads.{Passed, LaidOut, KnownAt, StoredNode, BegunBy, Counted, body_refusal};

use file_numbers::number_at;
use tree::refusal::Refusal;
use tree::{offsets, sizes};
use tree_one_pass::check_source;
use tree_source::{QUICK_BYTES, Source};

// ---- several numbers

// What the header holds, and the place of the body.
#[derive(Clone, Copy, Debug)]
pub struct Header {
    pub context: u16,
    pub count: u16,
    pub body: usize,
}

impl Header {
    // The header of a file; none where a number of it is malformed.
    pub fn read(file: &[u8]) -> Option<Header>
        ensures value { result ≡ header_in file.now }
        ensures read { HeaderRead file.now result }
    {
        let (context, second) = number_at(file, 0)?;
        let (count, body) = number_at(file, second)?;
        Some(Header {
            context,
            count,
            body,
        })
    }
}

// The numbers of a node from a place on: the place after them; none where one is malformed.
fn after_node(file: &[u8], from: usize) -> Option<usize>
    ensures { Passed file.now from node_cells result }
{
    let (_, attributes) = number_at(file, from)?;
    let (_, detail) = number_at(file, attributes)?;
    let (_, first) = number_at(file, detail)?;
    let (_, second) = number_at(file, first)?;
    let (_, symbol) = number_at(file, second)?;
    let (_, end) = number_at(file, symbol)?;
    Some(end)
}

// So many numbers from a place on: the place after them; none where one is malformed.
fn after_numbers(file: &[u8], from: usize, numbers: usize) -> Option<usize>
    ensures { Passed file.now from numbers result }
{
    let mut at = from;
    for _done in 0..numbers {
        let (_, next) = number_at(file, at)?;
        at = next;
    }
    Some(at)
}

// The place after the number that starts at a place where three bytes are left; none where it is malformed.
fn skip_at(file: &[u8], at: usize) -> Option<usize>
    requires { at + 2 < length file.now }
    ensures { IfSome result (λ next. (next ≡ next_at file.now at) × (at < next) × (next ≤ at + 3)) }
{
    let low = u16::from(file[at]);
    if low < 128 {
        return Some(at + 1);
    }
    let middle = u16::from(file[at + 1]);
    if middle == 0 {
        return None;
    }
    if middle < 128 {
        return Some(at + 2);
    }
    let high = u16::from(file[at + 2]);
    if high == 0 {
        return None;
    }
    if high > 3 {
        return None;
    }
    Some(at + 3)
}

// The place after a node's numbers from a place on, where so many bytes are left and its first three numbers are small, as they are in accepted files; none otherwise.
fn after_quick_node(file: &[u8], at: usize) -> Option<usize>
    ensures { IfSome result (λ end. Passed file.now at node_cells (Some end)) }
{
    let end = file.len();
    if end < QUICK_BYTES {
        return None;
    }
    if end - QUICK_BYTES < at {
        return None;
    }
    if 127 < u16::from(file[at]) + u16::from(file[at + 1]) + u16::from(file[at + 2]) {
        return None;
    }
    let second = skip_at(file, at + 3)?;
    let symbol = skip_at(file, second)?;
    skip_at(file, symbol)
}

// The numbers of a node from a place on, most of them quickly.
fn pass_node(file: &[u8], from: usize) -> Option<usize>
    ensures { Passed file.now from node_cells result }
{
    if let Some(quick) = after_quick_node(file, from) {
        return Some(quick);
    }
    after_node(file, from)
}

// The nodes from a place on, one and so many others: where the others begin, and the place after them all.
fn lay_out(file: &[u8], from: usize, others: usize, places: &mut [u16]) -> Option<usize>
    requires { (length file.now ≤ most_file_bytes) × (others ≤ length places.old) }
    ensures laid_out { LaidOut file.now from others places.new result }
    ensures places_len_unchanged { length places.new ≡ length places.old }
{
    let mut at = after_node(file, from)?;
    for done in 0..others {
        let next = pass_node(file, at)?;
        places[done] = at as u16;
        at = next;
    }
    Some(at)
}

// A number, and the place after it.
#[derive(Clone, Copy, Debug)]
struct Reading {
    value: u16,
    next: usize,
}

// The number that starts at a place, where one is well formed: there are as many bytes as it says, and its last group is none of zero.
fn known_at(file: &[u8], at: usize) -> Reading
    requires { malformed (drop at file.now) ≡ false }
    ensures { KnownAt file.now at result }
{
    let low = u16::from(file[at]);
    if low < 128 {
        return Reading {
            value: low,
            next: at + 1,
        };
    }
    let middle = u16::from(file[at + 1]);
    if middle < 128 {
        return Reading {
            value: (low - 128) + 128 * middle,
            next: at + 2,
        };
    }
    let high = u16::from(file[at + 2]);
    Reading {
        value: (low - 128) + 128 * (middle - 128) + 16384 * high,
        next: at + 3,
    }
}

// A node's numbers from a place on, into the lent table from a cell on: the place after them.
fn store_node(file: &[u8], at: usize, cell: usize, table: &mut [u16]) -> usize
    requires { (cell + node_cells ≤ length table.old) × (is_broken (numbers_of node_cells (drop at file.now)) ≡ false) }
    ensures { StoredNode file.now at cell table.old table.new result }
{
    let form = known_at(file, at);
    let attributes = known_at(file, form.next);
    let detail = known_at(file, attributes.next);
    let first = known_at(file, detail.next);
    let second = known_at(file, first.next);
    let symbol = known_at(file, second.next);
    table[cell] = form.value;
    table[cell + offsets::ATTRIBUTES] = attributes.value;
    table[cell + offsets::DETAIL] = detail.value;
    table[cell + offsets::FIRST] = first.value;
    table[cell + offsets::SECOND] = second.value;
    table[cell + offsets::SYMBOL] = symbol.value;
    symbol.next
}

// So many nodes from a place on, over the start of the lent table.
fn store(file: &[u8], from: usize, nodes: usize, table: &mut [u16])
    requires { (node_cells * nodes ≤ length table.old) × (is_broken (numbers_of (node_cells * nodes) (drop from file.now)) ≡ false) }
    ensures { table.new ≡ over (values_in (numbers_of (node_cells * nodes) (drop from file.now))) table.old }
{
    let mut at = from;
    for done in 0..nodes {
        at = store_node(file, at, sizes::NODE_CELLS * done, table);
    }
}

// ---- files

// The places of the nodes but the first: of fewer than 64 nodes, and of as many as there can be.
const FEW_PLACES: usize = 62;

const MOST_PLACES: usize = sizes::MOST_NODES as usize - 1;

// 5 to 11, with an array for the places of the nodes but the first.
fn check_with(file: &[u8], header: Header, places: &mut [u16]) -> Result<(), Refusal>
    requires { Counted file.now header.context header.count header.body × (header.count ≤ length places.old + 1) }
    ensures { result ≡ replied (body_refusal file.now) tt }
{
    let others = usize::from(header.count - 1);
    let Some(end) = lay_out(file, header.body, others, places) else {
        return Err(Refusal::Body);
    };
    if end < file.len() {
        return Err(Refusal::Body);
    }
    let source = Source {
        file,
        held: &places[..others],
    };
    check_source(header.context, header.count, &source)
}

// The same with an array of its own: one for few nodes is quickly made. Never put into its caller, so that what is
// refused before it takes no stack for an array.
#[inline(never)]
fn check_by<const PLACES: usize>(file: &[u8], header: Header) -> Result<(), Refusal>
    requires counted { Counted file.now header.context header.count header.body }
    requires fits { header.count ≤ PLACES + 1 }
    requires small { PLACES < 2 ^ 20 }
    ensures { result ≡ replied (body_refusal file.now) tt }
{
    let mut places = [0u16; PLACES];
    check_with(file, header, &mut places)
}

// 5 to 11, with an array that the count of nodes asks for.
fn check_nodes(file: &[u8], header: Header) -> Result<(), Refusal>
    requires { Counted file.now header.context header.count header.body }
    ensures { result ≡ replied (body_refusal file.now) tt }
{
    if header.count < 64 {
        return check_by::<FEW_PLACES>(file, header);
    }
    check_by::<MOST_PLACES>(file, header)
}

// 1 to 4: the header of a file, for a lent table of so many cells.
fn begin(file: &[u8], lent: usize) -> Result<Header, Refusal>
    ensures { BegunBy file.now lent result }
{
    if file.len() > sizes::MOST_FILE_BYTES {
        return Err(Refusal::FileTooLong);
    }
    let Some(header) = Header::read(file) else {
        return Err(Refusal::Header);
    };
    if header.context > 3 {
        return Err(Refusal::Context);
    }
    if tree_rules::refusal::is_bad_count(header.count, lent) {
        return Err(Refusal::Count);
    }
    Ok(header)
}

// The first refusal that applies to a tree file and a lent table of so many cells. The file is read twice: for its form
// and the places of its nodes, and for the rules.
pub fn check(file: &[u8], lent: usize) -> Result<(), Refusal>
    ensures { result ≡ replied (file_refusal file.now lent) tt }
{
    let header = begin(file, lent)?;
    check_nodes(file, header)
}

// Whether 5 applies to so many numbers from a place on.
fn is_bad_body(file: &[u8], from: usize, numbers: usize) -> bool
    ensures { result ≡ bad_body (numbers_of numbers (drop from file.now)) }
{
    let Some(end) = after_numbers(file, from, numbers) else {
        return true;
    };
    end < file.len()
}

// The context and the count of nodes of a file that the lent table holds.
#[derive(Clone, Copy, Debug, PartialEq, Eq)]
pub struct Loaded {
    pub context: u16,
    pub count: u16,
}

// A tree file into a lent table: the context and the count, or the first refusal that applies. Nothing is stored before all
// checks are done; then the file is read once more.
#[tactic(auto, using(crate::proofs::Files::loading))]
pub fn load(file: &[u8], table: &mut [u16]) -> Result<Loaded, Refusal>
    ensures reply { result ≡ loaded file.now (length table.old) }
    ensures table { table.new ≡ loaded_table file.now table.old }
{
    let header = begin(file, table.len())?;
    check_nodes(file, header)?;
    store(file, header.body, usize::from(header.count), table);
    Ok(Loaded {
        context: header.context,
        count: header.count,
    })
}

// The numbers of a file into a lent table as they stand, whatever they say: the context and the count, or the first of 1 to 5 that applies. Nothing is stored before that is known.
pub fn load_numbers(file: &[u8], table: &mut [u16]) -> Result<Loaded, Refusal>
    ensures reply { result ≡ numbers_loaded file.now (length table.old) }
    ensures table { table.new ≡ numbers_table file.now table.old }
{
    let Header {
        context,
        count,
        body,
    } = begin(file, table.len())?;
    let nodes = usize::from(count);
    if is_bad_body(file, body, sizes::NODE_CELLS * nodes) {
        return Err(Refusal::Body);
    }
    store(file, body, nodes, table);
    Ok(Loaded { context, count })
}
