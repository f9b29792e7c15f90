// Operators not chosen yet.
ghost use Rattle.std.specs.Prelude.{◌≡◌, length};
ghost use Rattle.expr.specs.Orders.{order_numbered};
ghost use Rattle.row_open.specs.Open.{draft_of, open_refusal, answers_after};

use expr::order::CalleeOrder;
use row_walk::reply_number;

// row_open::decide_open. Order 0 is the crate's, any other number ours.
#[unsafe(no_mangle)]
pub extern "C" fn tezhukor_decide_open(
    context: u16,
    count: u16,
    order: u16,
    table: &[u16],
    entered: u16,
    entries: &[u16],
    answers: &mut [u16],
) -> u16
    ensures reply { result ≡ open_refusal (draft_of (order_numbered order) context count table.now entered entries.now) (length answers.old) }
    ensures answers { answers.new ≡ answers_after (draft_of (order_numbered order) context count table.now entered entries.now) answers.old }
{
    reply_number(row_open::decide_open(
        CalleeOrder::from(order),
        context,
        count,
        table,
        entered,
        entries,
        answers,
    ))
}
