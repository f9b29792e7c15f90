// The precedences of left and right operands, and scan_right, which they ask.
ghost use Rattle.std.specs.Prelude.{◌≡◌};
ghost use Rattle.tree.specs.Trees.{tree_at};
ghost use Rattle.fixup_scan.specs.Linear.{right_given};
ghost use Rattle.fixup_scan.specs.Scans.{loose, scanned, scan_right, rightmost_precedence, bails_out, leftmost_precedence};

use super::Scan;
use super::answer::Scanned;
use super::arm::arm_at;
use super::visit::Visit;
use fixup::context::FixupContext;
use fixup::group::scan_left;
use precedence::Precedence;
use tree::table::Table;

// Whether scan_right bails out of a left operand, and scan_left leaves it whole.
#[tactic(auto, unfolding(crate::specs::Scans::bails_out, laws::specs::Choice::pick))]
fn bails_out(fixup: FixupContext, table: &Table, node: u16) -> bool
    ensures { result ≡ bails_out (tree_at table.now.cells.now table.now.count node) fixup }
{
    let next = fixup.next_operator;
    (!fixup.next_operator_can_begin_expr || next.is_same(Precedence::Range))
        && scan_right(table, node, fixup, Precedence::MIN, 0, 0) == Scan::Bailout
        && scan_left(table, node, fixup)
}

// The precedence of a left operand in its context.
#[tactic(auto, unfolding(crate::specs::Scans::leftmost_precedence, laws::specs::Choice::pick))]
pub fn leftmost_subexpression_precedence(
    fixup: FixupContext,
    table: &Table,
    node: u16,
) -> Precedence
    ensures { result ≡ leftmost_precedence (tree_at table.now.cells.now table.now.count node) fixup }
{
    if bails_out(fixup, table, node) {
        return Precedence::Unambiguous;
    }
    fixup.precedence(table, node)
}

// Whether the operator before would group an operand of this precedence.
#[tactic(auto, unfolding(crate::specs::Scans::loose, laws::specs::Choice::pick))]
fn is_loose(fixup: FixupContext, default: Precedence) -> bool
    ensures { result ≡ loose fixup default }
{
    let previous = fixup.previous_operator;
    match previous {
        Precedence::Assign | Precedence::Let | Precedence::Prefix => default < previous,
        _ => default <= previous,
    }
}

// Whether the next operator leaves the question to scan_right.
#[tactic(auto, unfolding(crate::specs::Scans::scanned))]
fn is_scanned(fixup: FixupContext) -> bool
    ensures { result ≡ scanned fixup }
{
    match fixup.next_operator {
        Precedence::Range | Precedence::Or | Precedence::And => true,
        _ => !fixup.next_operator_can_begin_expr,
    }
}

// The precedence of a right operand in its context, given how it is scanned there.
#[tactic(auto, unfolding(crate::specs::Linear::right_given, laws::specs::Choice::pick))]
fn right_given(fixup: FixupContext, table: &Table, node: u16, scan: Scan) -> Precedence
    ensures { result ≡ right_given (tree_at table.now.cells.now table.now.count node) scan fixup }
{
    let default = fixup.precedence(table, node);
    if is_loose(fixup, default) && is_scanned(fixup) {
        if scan != Scan::Consume && scan_left(table, node, fixup) {
            return Precedence::Prefix;
        }
    }
    default
}

// The precedence of a right operand in its context. Apart from right_given: here the scan is asked
// only behind the first two tests.
#[cycle(rightmost_subexpression_precedence_scan_right)]
#[tactic(auto, unfolding(crate::specs::Scans::rightmost_precedence, crate::specs::Scans::right_by, laws::specs::Choice::pick))]
pub fn rightmost_subexpression_precedence(
    fixup: FixupContext,
    table: &Table,
    node: u16,
) -> Precedence
    ensures { result ≡ rightmost_precedence (tree_at table.now.cells.now table.now.count node) fixup }
{
    let default = fixup.precedence(table, node);
    if is_loose(fixup, default) && is_scanned(fixup) {
        let previous = fixup.previous_operator;
        if scan_right(table, node, fixup, previous, 1, 0) != Scan::Consume
            && scan_left(table, node, fixup)
        {
            return Precedence::Prefix;
        }
    }
    default
}

// How the next operator meets the right end of an expression. An operand that was scanned is not
// scanned again for its right precedence, so that a nest takes no more visits than twice its levels.
// Context, precedence and offsets stay apart: a struct by value costs at each call of a recursion.
#[cycle(rightmost_subexpression_precedence_scan_right)]
#[tactic(auto, using(crate::proofs::Nodes::operand_above, crate::proofs::Nodes::scan_grouped, crate::proofs::Nodes::scan_leaf, crate::proofs::Nodes::scan_early, crate::proofs::Nodes::scan_leaves, crate::proofs::Nodes::scan_settles, crate::proofs::Nodes::scan_serves))]
pub fn scan_right(
    table: &Table,
    node: u16,
    fixup: FixupContext,
    precedence: Precedence,
    fail_offset: u16,
    bailout_offset: u16,
) -> Scan
    ensures { result ≡ scan_right (tree_at table.now.cells.now table.now.count node) fixup precedence fail_offset bailout_offset }
{
    let next = fixup.next_operator;
    let scanned = Scanned { precedence, next };
    if fixup.parenthesize(table, node) {
        return scanned.consume_by();
    }
    let arm = arm_at(table, node);
    let Some(operand) = arm.operand_of(table, node) else {
        return arm.leaf_scan(fixup.next_operator_can_begin_expr, scanned);
    };
    if arm.is_early(next, scanned.consumes(), fail_offset, bailout_offset) {
        return Scan::Consume;
    }
    let visit = arm.visit_of(Visit {
        context: fixup,
        precedence,
        fail_offset,
        bailout_offset,
    });
    let scan = scan_right(
        table,
        operand,
        visit.context,
        visit.precedence,
        visit.fail_offset,
        visit.bailout_offset,
    );
    if let Some(answer) = arm.leave_by(scanned, scan) {
        return answer;
    }
    if arm.asks_again(next) {
        let right = rightmost_subexpression_precedence(visit.context, table, operand);
        return arm.settle_by(scanned, right);
    }
    let right = right_given(visit.context, table, operand, scan);
    arm.settle_by(scanned, right)
}
