// What an owner hands to an operand, from its own context as a number to the operand's hand. A closed operand in a quiet context gets it without a question.
ghost use Rattle.std.specs.Prelude.{◌≡◌, true, false, ◌/◌, ◌%◌, ◌<◌, IfSome};
ghost use Rattle.tree.specs.Table.{first_column, second_column};
ghost use Rattle.tree.specs.Trees.{operand_at, tree_at};
ghost use Rattle.precedence.specs.declared.Precedence.TheVariants.{Unambiguous};
ghost use Rattle.fixup_subexpression.specs.Subexpressions.{leftmost_with_operator};
ghost use Rattle.expr.specs.declared.order.CalleeOrder.{CalleeOrder};
ghost use Rattle.expr.specs.Handed.{grouped_by};
ghost use Rattle.expr.specs.Expr.{can_begin_expr, can_begin_generics, call_needs_group, hands_first, hands_second};
ghost use Rattle.expr.specs.Steps.{given_first, given_second};
ghost use Rattle.row_pack.specs.Packs.{unpacked_of};
ghost use Rattle.row.specs.Closed.{is_closed};
ghost use Rattle.row.specs.Hands.{hand_of, is_quiet};
ghost use Rattle.row_walk.specs.Settled.{is_field, flags_before, left_number, right_number};

use expr::order::CalleeOrder;
use expr::{first_operand, second_operand};
use precedence::Precedence;
use row::hand::{CONTEXTS, hand_of, is_quiet};
use row::is_closed;
use row_pack::unpacked;
use tree::form::Form;
use tree::table::Table;

// The hand of what is Unambiguous, in NONE.
const SETTLED: u32 = 15 * CONTEXTS;

// The flags before an operator: it goes on with the expression, it can begin one as well, and generic arguments too.
const GOES_ON: u32 = 256;

const BEGINS: u32 = 384;

const BEGINS_GENERICS: u32 = 896;

// Those before a binary operator.
#[tactic(auto, unfolding(expr::specs::Expr::can_begin_expr, expr::specs::Expr::can_begin_generics, bools::specs::Bits::bit_of, laws::specs::Choice::lookup, laws::specs::Choice::pick))]
fn operator_flags(op: u16) -> u32
    ensures { result ≡ flags_before (can_begin_expr op) (can_begin_generics op) }
{
    match op {
        // Sub, And, BitAnd
        1 | 5 | 8 => BEGINS,
        // Mul, Or, BitOr
        2 | 6 | 9 => BEGINS,
        // Shl, Lt
        10 | 13 => BEGINS_GENERICS,
        _ => GOES_ON,
    }
}

// Left of an operator.
fn left_hand(own: u32, flags: u32, level: Precedence) -> u32
    requires { flags < 1024 }
    ensures { result ≡ left_number own flags level }
{
    own % 16 + 16 * u32::from(level.rank()) + 256 * flags + SETTLED
}

// Right of an operator.
fn right_hand(own: u32, level: Precedence) -> u32
    ensures { result ≡ right_number own level }
{
    u32::from(level.rank()) + 16 * (own / 16 % 16384) + SETTLED
}

// Whether a node is a Field.
#[tactic(auto, unfolding(tree::specs::Walks::at_root, tree::specs::Operands::form_in, tree::specs::Trees::label_at, laws::specs::Choice::lookup, laws::specs::Choice::pick), using(tree::proofs::Unfold::unfolds, tree::proofs::Unfold::tree_zero, tree::proofs::Unfold::tree_past))]
fn is_field(table: &Table, node: u16) -> bool
    ensures { result ≡ is_field (tree_at table.now.cells.now table.now.count node) }
{
    matches!(table.form(node), Some(Form::ExprField))
}

// What is called, if it is closed and no Field.
fn callee_hand(own: u32, table: &Table, func: u16) -> Option<u32>
    requires { (is_quiet (unpacked_of own) ≡ true) × (is_closed (tree_at table.now.cells.now table.now.count func) ≡ true) }
    ensures { IfSome result (λ hand. (order : CalleeOrder) → hand ≡ hand_of (grouped_by (leftmost_with_operator (unpacked_of own) (tree_at table.now.cells.now table.now.count func) true false Unambiguous) (call_needs_group order (tree_at table.now.cells.now table.now.count func)))) }
{
    if is_field(table, func) {
        return None;
    }
    Some(left_hand(own, BEGINS, Precedence::Unambiguous))
}

// What a node hands to a closed operand at its first place, in a quiet context, where that is soon said.
fn closed_first(own: u32, table: &Table, node: u16, operand: u16) -> Option<u32>
    requires { (is_quiet (unpacked_of own) ≡ true) × (is_closed (tree_at table.now.cells.now table.now.count operand) ≡ true) }
    ensures { IfSome result (λ hand. (order : CalleeOrder) → hand ≡ hand_of (given_first order (unpacked_of own) (tree_at table.now.cells.now table.now.count node) (tree_at table.now.cells.now table.now.count operand))) }
{
    match table.form(node)? {
        Form::ExprAssign => Some(left_hand(own, GOES_ON, Precedence::Assign)),
        Form::ExprAwait | Form::ExprField | Form::ExprMethodCall | Form::ExprTry => {
            Some(left_hand(own, GOES_ON, Precedence::Unambiguous))
        }
        Form::ExprBinary => {
            let op = table.detail(node);
            Some(left_hand(own, operator_flags(op), Precedence::of_binop(op)))
        }
        Form::ExprCall => callee_hand(own, table, operand),
        Form::ExprCast => Some(left_hand(own, GOES_ON, Precedence::Cast)),
        Form::ExprIndex => Some(left_hand(own, BEGINS, Precedence::Unambiguous)),
        Form::ExprParen => Some(SETTLED),
        Form::ExprRange => Some(left_hand(own, BEGINS, Precedence::Range)),
        Form::ExprRawAddr | Form::ExprReference | Form::ExprUnary => {
            Some(right_hand(own, Precedence::Prefix))
        }
        _ => None,
    }
}

// The same at its second place.
fn closed_second(own: u32, table: &Table, node: u16, operand: u16) -> Option<u32>
    requires { (is_quiet (unpacked_of own) ≡ true) × (is_closed (tree_at table.now.cells.now table.now.count operand) ≡ true) }
    ensures { IfSome result (λ hand. hand ≡ hand_of (given_second (unpacked_of own) (tree_at table.now.cells.now table.now.count node) (tree_at table.now.cells.now table.now.count operand))) }
{
    match table.form(node)? {
        Form::ExprAssign => Some(right_hand(own, Precedence::Assign)),
        Form::ExprBinary => Some(right_hand(own, Precedence::of_binop(table.detail(node)))),
        Form::ExprIndex => Some(SETTLED),
        _ => None,
    }
}

// Whether an operand is closed, and its owner's context quiet.
fn is_settled(own: u32, table: &Table, operand: u16) -> bool
    ensures { result ≡ true → (is_quiet (unpacked_of own) ≡ true) × (is_closed (tree_at table.now.cells.now table.now.count operand) ≡ true) }
{
    is_quiet(own) && is_closed(table, operand)
}

// What the operand at the first place gets from its owner.
pub(crate) fn first_hand(
    order: CalleeOrder,
    own: u32,
    table: &Table,
    node: u16,
    operand: u16,
) -> u32
    requires { operand ≡ operand_at table.now.cells.now table.now.count node first_column }
    ensures { result ≡ hand_of (hands_first order (unpacked_of own) (tree_at table.now.cells.now table.now.count node)) }
{
    if is_settled(own, table, operand) {
        if let Some(hand) = closed_first(own, table, node, operand) {
            return hand;
        }
    }
    hand_of(first_operand(order, unpacked(own), table, node))
}

// What the operand at the second place gets from its owner.
pub(crate) fn second_hand(own: u32, table: &Table, node: u16, operand: u16) -> u32
    requires { operand ≡ operand_at table.now.cells.now table.now.count node second_column }
    ensures { result ≡ hand_of (hands_second (unpacked_of own) (tree_at table.now.cells.now table.now.count node)) }
{
    if is_settled(own, table, operand) {
        if let Some(hand) = closed_second(own, table, node, operand) {
            return hand;
        }
    }
    hand_of(second_operand(unpacked(own), table, node))
}
