// A look before an edit of an open sheet.
ghost use Rattle.std.specs.Prelude.{◌≡◌, length};
ghost use Rattle.expr.specs.Orders.{order_numbered};
ghost use Rattle.sheet_edit.specs.Edits.{edit_of, edited_in_numbers};
ghost use Rattle.sheet_edit.specs.Previews.{preview_reply, preview_table, preview_rows};
ghost use Rattle.answers.specs.Replies.{one_number};

use crate::sheets::edited_number;
use expr::order::CalleeOrder;

// sheet_edit::preview, in the callee order with a number, as tezhukor_edit.
#[unsafe(no_mangle)]
pub extern "C" fn tezhukor_preview(
    context: u16,
    count: u16,
    order: u16,
    table: &[u16],
    rows: &[u16],
    node: u16,
    second_context: u16,
    second_count: u16,
    second: &[u16],
    result_table: &mut [u16],
    result_rows: &mut [u16],
) -> u32
    ensures reply { result ≡ one_number (edited_in_numbers (preview_reply (edit_of context count table.now node second_context second_count second.now) (length rows.now) (length result_table.old) (length result_rows.old))) }
    ensures table { result_table.new ≡ preview_table (edit_of context count table.now node second_context second_count second.now) (length rows.now) result_table.old (length result_rows.old) }
    ensures rows { result_rows.new ≡ preview_rows (order_numbered order) (edit_of context count table.now node second_context second_count second.now) (length rows.now) result_table.old result_rows.old }
{
    let held = CalleeOrder::from(order);
    edited_number(sheet_edit::preview(
        context,
        count,
        held,
        table,
        rows,
        node,
        second_context,
        second_count,
        second,
        result_table,
        result_rows,
    ))
}
