// The rows of all nodes in either callee order, for the comparison with the crate on all trees.
ghost use Rattle.std.specs.Prelude.{◌≡◌, length};
ghost use Rattle.expr.specs.Orders.{order_numbered};
ghost use Rattle.row_walk.specs.Walk.{decided, rows_after};

use expr::order::CalleeOrder;
use row_walk::reply_number;

// row_walk::decide_by, with the order by its number: 0 the crate's, every other ours.
#[unsafe(no_mangle)]
pub extern "C" fn tezhukor_decide_by_order(
    order: u16,
    context: u16,
    count: u16,
    table: &[u16],
    rows: &mut [u16],
) -> u16
    ensures reply { result ≡ decided context count table.now (length rows.old) }
    ensures rows { rows.new ≡ rows_after (order_numbered order) context count table.now rows.old }
{
    let by = CalleeOrder::from(order);
    reply_number(row_walk::decide_by(by, context, count, table, rows))
}
