// Open sheets carried to our callee order. An answer is the refusal times 65,536, or 1: the sheet holds our order now.
ghost use Rattle.std.specs.Prelude.{◌≡◌, length};
ghost use Rattle.expr.specs.Orders.{order_numbered};
ghost use Rattle.sheet_carry.specs.Carries.{carry_reply, carried_rows, carried_in_numbers};
ghost use Rattle.answers.specs.Replies.{one_number};

use expr::order::CalleeOrder;
use tree::refusal::Refusal;

fn carried_number(answer: Result<(), Refusal>) -> u32
    ensures { result ≡ one_number (carried_in_numbers answer) }
{
    match answer {
        Err(refusal) => 65536 * u32::from(refusal.number()),
        Ok(()) => 1,
    }
}

// sheet_carry::carry, of a sheet that holds the callee order with a number, as tezhukor_edit.
#[unsafe(no_mangle)]
pub extern "C" fn tezhukor_carry(
    context: u16,
    count: u16,
    order: u16,
    table: &[u16],
    rows: &mut [u16],
) -> u32
    ensures reply { result ≡ one_number (carried_in_numbers (carry_reply context count table.now (length rows.old))) }
    ensures rows { rows.new ≡ carried_rows context count (order_numbered order) table.now rows.old }
{
    let held = CalleeOrder::from(order);
    carried_number(sheet_carry::carry(context, count, held, table, rows))
}
