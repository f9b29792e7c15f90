// Open sheets. An answer is the refusal times 65,536, or how many nodes the result has.
ghost use Rattle.std.specs.Prelude.{◌≡◌, length};
ghost use Rattle.expr.specs.Orders.{order_numbered};
ghost use Rattle.sheet_edit.specs.Edits.{edit_of, edit_reply, table_after, edited_rows, edited_in_numbers};
ghost use Rattle.answers.specs.Replies.{one_number};

use expr::order::CalleeOrder;
use tree::refusal::Refusal;

pub(crate) fn edited_number(answer: Result<u16, Refusal>) -> u32
    ensures { result ≡ one_number (edited_in_numbers answer) }
{
    match answer {
        Err(refusal) => 65536 * u32::from(refusal.number()),
        Ok(nodes) => u32::from(nodes),
    }
}

// sheet_edit::edit, in the callee order with a number: 0 the crate's, every other ours.
#[unsafe(no_mangle)]
pub extern "C" fn tezhukor_edit(
    context: u16,
    count: u16,
    order: u16,
    table: &mut [u16],
    rows: &mut [u16],
    node: u16,
    second_context: u16,
    second_count: u16,
    second: &[u16],
) -> u32
    ensures reply { result ≡ one_number (edited_in_numbers (edit_reply (edit_of context count table.old node second_context second_count second.now) (length table.old) (length rows.old))) }
    ensures table { table.new ≡ table_after (edit_of context count table.old node second_context second_count second.now) (length rows.old) }
    ensures rows { rows.new ≡ edited_rows (order_numbered order) (edit_of context count table.old node second_context second_count second.now) rows.old }
{
    let held = CalleeOrder::from(order);
    edited_number(sheet_edit::edit(
        context,
        count,
        held,
        table,
        rows,
        node,
        second_context,
        second_count,
        second,
    ))
}
