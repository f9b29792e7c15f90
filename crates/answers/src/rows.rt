// The rows of all nodes.
ghost use Rattle.std.specs.Prelude.{◌≡◌, length};
ghost use Rattle.expr.specs.declared.order.CalleeOrder.TheVariants.{Ours};
ghost use Rattle.row_walk.specs.Walk.{decided, rows_after};

use row_walk::reply_number;

// row_walk::decide.
#[unsafe(no_mangle)]
pub extern "C" fn tezhukor_decide(context: u16, count: u16, table: &[u16], rows: &mut [u16]) -> u16
    ensures reply { result ≡ decided context count table.now (length rows.old) }
    ensures rows { rows.new ≡ rows_after Ours context count table.now rows.old }
{
    reply_number(row_walk::decide(context, count, table, rows))
}
