// An open sheet carried from the crate's callee order to ours.
#![tactic(auto)]

ghost use Rattle.std.specs.Prelude.{◌≡◌, ◌*◌, ◌≤◌, length};
ghost use Rattle.tree.specs.Sizes.{row_cells};
ghost use Rattle.tree.specs.Replies.{replied};
ghost use Rattle.tree_rules.specs.Refusals.{refusal, Accepted};
ghost use Rattle.sheet_carry.specs.Carries.{carry_reply, carried_over, carried_rows};

use expr::order::CalleeOrder;
use row_walk::walk;
use tree::refusal::Refusal;
use tree::sizes;
use tree_one_pass::check;

// The rows of a checked sheet: a fresh walk's where it holds the crate's order, otherwise as they are.
fn carry_over(context: u16, count: u16, order: CalleeOrder, table: &[u16], rows: &mut [u16])
    requires { Accepted context count table.now × (row_cells * count ≤ length rows.old) }
    ensures { rows.new ≡ carried_over context count order table.now rows.old }
{
    let CalleeOrder::Crates = order else {
        return;
    };
    walk(CalleeOrder::Ours, context, count, table, rows);
}

// A sheet that holds the crate's order gets the rows of ours; one that holds ours stays as it is. Its context, count, callee order, table and rows.
pub fn carry(
    context: u16,
    count: u16,
    order: CalleeOrder,
    table: &[u16],
    rows: &mut [u16],
) -> Result<(), Refusal>
    ensures reply { result ≡ carry_reply context count table.now (length rows.old) }
    ensures rows { rows.new ≡ carried_rows context count order table.now rows.old }
{
    check(context, count, table)?;
    if rows.len() < sizes::ROW_CELLS * usize::from(count) {
        return Err(Refusal::Short);
    }
    carry_over(context, count, order, table, rows);
    Ok(())
}
