// One file for one tree, the order on files, and rearranged files.
ghost use Rattle.std.specs.Prelude.{◌≡◌, length};
ghost use Rattle.file_save.specs.Saves.{saved, saved_after, saved_in_numbers};
ghost use Rattle.file_order.specs.Orders.{compared, order_in_numbers, compared_in_numbers};
ghost use Rattle.file_columns.specs.Rearranged.{to_columns, to_columns_after, from_columns, from_columns_after};
ghost use Rattle.answers.specs.Replies.{one_number};

use std::cmp::Ordering;
use tree::refusal::Refusal;

// The refusal times 65,536, or the number of bytes.
fn saved_number(answer: Result<u16, Refusal>) -> u32
    ensures { result ≡ one_number (saved_in_numbers answer) }
{
    match answer {
        Err(refusal) => 65536 * u32::from(refusal.number()),
        Ok(stored) => u32::from(stored),
    }
}

// file_save::save.
#[unsafe(no_mangle)]
pub extern "C" fn tezhukor_save(context: u16, count: u16, table: &[u16], file: &mut [u8]) -> u32
    ensures reply { result ≡ one_number (saved_in_numbers (saved context count table.now (length file.old))) }
    ensures file { file.new ≡ saved_after context count table.now file.old }
{
    saved_number(file_save::save(context, count, table, file))
}

// file_columns::to_columns.
#[unsafe(no_mangle)]
pub extern "C" fn tezhukor_to_columns(file: &[u8], columns: &mut [u8]) -> u32
    ensures reply { result ≡ one_number (saved_in_numbers (to_columns file.now (length columns.old))) }
    ensures columns { columns.new ≡ to_columns_after file.now columns.old }
{
    saved_number(file_columns::to_columns(file, columns))
}

// file_columns::from_columns.
#[unsafe(no_mangle)]
pub extern "C" fn tezhukor_from_columns(columns: &[u8], file: &mut [u8]) -> u32
    ensures reply { result ≡ one_number (saved_in_numbers (from_columns columns.now (length file.old))) }
    ensures file { file.new ≡ from_columns_after columns.now file.old }
{
    saved_number(file_columns::from_columns(columns, file))
}

fn order_number(order: Ordering) -> u32
    ensures { result ≡ order_in_numbers order }
{
    match order {
        Ordering::Less => 0,
        Ordering::Equal => 1,
        Ordering::Greater => 2,
    }
}

// The refusal times 65,536, or 0 before, 1 equal, 2 after.
fn compared_number(answer: Result<Ordering, Refusal>) -> u32
    ensures { result ≡ one_number (compared_in_numbers answer) }
{
    match answer {
        Err(why) => 65536 * u32::from(why.number()),
        Ok(order) => order_number(order),
    }
}

// file_order::compare.
#[unsafe(no_mangle)]
pub extern "C" fn tezhukor_compare(first: &[u8], second: &[u8]) -> u32
    ensures { result ≡ one_number (compared_in_numbers (compared first.now second.now)) }
{
    compared_number(file_order::compare(first, second))
}
