// prettyplease's expr.rs: for each operand its precedence, the context that its owner hands down, and the owner's grouping test.
#![tactic(auto)]

pub mod order; // order.rt: CalleeOrder

ghost use Rattle.std.specs.Prelude.{◌≡◌, true, false, ◌&&◌, eqb};
ghost use Rattle.tree.specs.Trees.{tree_at};
ghost use Rattle.precedence.specs.declared.Precedence.TheVariants.{Jump, Unambiguous};
ghost use Rattle.precedence.specs.Precedences.{below};
ghost use Rattle.classify.specs.Classify.{leading_label};
ghost use Rattle.fixup_subexpression.specs.Subexpressions.{leftmost_with_operator};
ghost use Rattle.expr.specs.Handed.{subexpr, grouped_by, ungrouped, at_end, neither};
ghost use Rattle.expr.specs.Expr.{left_needs_group, right_needs_group, left_of, right_of, can_begin_expr, can_begin_generics, binary_left, binary_right, callee_lines, named_field, call_needs_group, hands_first, hands_second};
ghost use Rattle.expr.specs.declared.order.CalleeOrder.TheVariants.{Crates};

use crate::order::CalleeOrder;
use classify::expr_leading_label;
use fixup::context::FixupContext;
use fixup_scan::right::rightmost_subexpression_precedence;
use fixup_subexpression::{
    Subexpression, leftmost_subexpression_with_dot, leftmost_subexpression_with_operator,
    rightmost_subexpression,
};
use precedence::{Binding, Lean, Precedence};
use tree::columns;
use tree::form::Form;
use tree::question::{Asked, Question, walk};
use tree::table::Table;

// What an operand gets from its owner.
#[derive(Clone, Copy, Debug, PartialEq, Eq)]
pub struct Handed {
    pub precedence: Precedence,
    pub fixup: FixupContext,
    // The owner groups the operand.
    pub needs_group: bool,
}

fn subexpr(operand: Subexpression, needs_group: bool) -> Handed
    ensures { result ≡ subexpr operand needs_group }
{
    let Subexpression { precedence, fixup } = operand;
    Handed {
        precedence,
        fixup,
        needs_group,
    }
}

// An operand that its owner groups where its precedence is below another.
#[tactic(auto, unfolding(crate::specs::Handed::grouped_by))]
fn grouped_below(operand: Subexpression, precedence: Precedence) -> Handed
    ensures { result ≡ grouped_by operand (λ own. below own precedence) }
{
    subexpr(operand, operand.precedence < precedence)
}

// An operand that is printed without a test of its owner's.
#[tactic(auto, unfolding(crate::specs::Handed::ungrouped))]
fn ungrouped(operand: Subexpression) -> Handed
    ensures { result ≡ ungrouped operand }
{
    subexpr(operand, false)
}

// rightmost_subexpression_fixup, and rightmost_subexpression_precedence in what it makes.
fn at_end(
    fixup: FixupContext,
    table: &Table,
    node: u16,
    reset_allow_struct: bool,
    optional_operand: bool,
    precedence: Precedence,
) -> Subexpression
    ensures { result ≡ at_end fixup (tree_at table.now.cells.now table.now.count node) reset_allow_struct optional_operand precedence }
{
    let right = fixup.rightmost_subexpression_fixup(
        reset_allow_struct,
        optional_operand,
        precedence,
    );
    Subexpression {
        precedence: rightmost_subexpression_precedence(right, table, node),
        fixup: right,
    }
}

// An operand that neither begins nor ends its owner, or is all of it.
#[tactic(auto, unfolding(crate::specs::Handed::neither, crate::specs::Handed::ungrouped))]
fn neither(fixup: FixupContext, table: &Table, node: u16) -> Handed
    ensures { result ≡ neither fixup (tree_at table.now.cells.now table.now.count node) }
{
    Handed {
        precedence: fixup.precedence(table, node),
        fixup,
        needs_group: false,
    }
}

// expr_binary: the operators whose token can begin an expression: Sub, Mul, And, Or, BitAnd, BitOr, Shl, Lt.
// Here and below by the operator's number, which may be any, as of_binop takes it.
#[tactic(auto, unfolding(crate::specs::Expr::can_begin_expr, laws::specs::Choice::lookup, laws::specs::Choice::pick))]
fn can_begin_expr(op: u16) -> bool
    ensures { result ≡ can_begin_expr op }
{
    match op {
        1 | 2 | 5 | 6 | 8 | 9 | 10 | 13 => true,
        _ => false,
    }
}

// expr_binary: the operators whose token can begin generic arguments, Shl and Lt.
#[tactic(auto, unfolding(crate::specs::Expr::can_begin_generics, laws::specs::Choice::lookup, laws::specs::Choice::pick))]
fn can_begin_generics(op: u16) -> bool
    ensures { result ≡ can_begin_generics op }
{
    match op {
        10 | 13 => true,
        _ => false,
    }
}

// left_needs_group, by the operator's lean. Left of one that leans right the crate tests against Range's level.
#[tactic(auto, unfolding(crate::specs::Expr::left_needs_group))]
fn left_needs_group(operator: Binding, left: Precedence) -> bool
    ensures { result ≡ left_needs_group operator.lean operator.level left }
{
    match operator.lean {
        Lean::Left => left < operator.level,
        Lean::Right => left <= Precedence::Range,
        Lean::Neither => left <= operator.level,
    }
}

// right_needs_group, by the operator's lean.
#[tactic(auto, unfolding(crate::specs::Expr::right_needs_group))]
fn right_needs_group(operator: Binding, right: Precedence) -> bool
    ensures { result ≡ right_needs_group operator.lean operator.level right }
{
    match operator.lean {
        Lean::Right => false,
        Lean::Left | Lean::Neither => right <= operator.level,
    }
}

// The operand left of an operator: expr_assign, expr_binary, expr_range.
#[tactic(auto, unfolding(crate::specs::Handed::grouped_by))]
fn left_of(
    fixup: FixupContext,
    table: &Table,
    node: u16,
    can_begin_expr: bool,
    can_begin_generics: bool,
    operator: Binding,
) -> Handed
    ensures { result ≡ left_of fixup (tree_at table.now.cells.now table.now.count node) can_begin_expr can_begin_generics operator }
{
    let left = leftmost_subexpression_with_operator(
        fixup,
        table,
        node,
        can_begin_expr,
        can_begin_generics,
        operator.level,
    );
    subexpr(left, left_needs_group(operator, left.precedence))
}

// The operand right of an operator: the same three.
#[tactic(auto, unfolding(crate::specs::Handed::grouped_by))]
fn right_of(
    fixup: FixupContext,
    table: &Table,
    node: u16,
    optional_operand: bool,
    operator: Binding,
) -> Handed
    ensures { result ≡ right_of fixup (tree_at table.now.cells.now table.now.count node) optional_operand operator }
{
    let right = at_end(fixup, table, node, false, optional_operand, operator.level);
    subexpr(right, right_needs_group(operator, right.precedence))
}

// expr_binary: the left operand.
#[tactic(auto, unfolding(crate::specs::Expr::binary_left))]
fn binary_left(fixup: FixupContext, table: &Table, node: u16, op: u16) -> Handed
    ensures { result ≡ binary_left fixup (tree_at table.now.cells.now table.now.count node) op }
{
    left_of(
        fixup,
        table,
        node,
        can_begin_expr(op),
        can_begin_generics(op),
        Binding::of_binop(op),
    )
}

// expr_binary: the right operand.
#[tactic(auto, unfolding(crate::specs::Expr::binary_right))]
fn binary_right(fixup: FixupContext, table: &Table, node: u16, op: u16) -> Handed
    ensures { result ≡ binary_right fixup (tree_at table.now.cells.now table.now.count node) op }
{
    right_of(fixup, table, node, false, Binding::of_binop(op))
}

// expr_break: a value whose first token is a label is grouped, where the Break has none.
fn break_value(fixup: FixupContext, table: &Table, node: u16, detail: u16) -> Handed
    ensures { result ≡ subexpr (at_end fixup (tree_at table.now.cells.now table.now.count node) true true Jump) (eqb detail 0 && leading_label (tree_at table.now.cells.now table.now.count node)) }
{
    subexpr(
        at_end(fixup, table, node, true, true, Precedence::Jump),
        detail == 0 && expr_leading_label(table, node),
    )
}

// The Field rule: a Group is looked through, a Field answers by its member.
struct NamedField;

impl Question for NamedField {
    type Answer = bool;

    ghost lines = { callee_lines };

    ghost other = { λ l. false };

    ghost absent = { false };

    fn absent() -> bool {
        false
    }

    #[tactic(auto, unfolding(crate::specs::Expr::callee_lines, laws::specs::Choice::lookup, laws::specs::Choice::pick, tree::specs::Trees::label_at))]
    fn ask(table: &Table, node: u16) -> Asked<bool> {
        match Form::try_from(table.cell(node, columns::FORM)) {
            Ok(Form::ExprField) => Asked::Answer(table.detail(node) == 0),
            Ok(Form::ExprGroup) => Asked::First,
            _ => Asked::Answer(false),
        }
    }
}

// The first node below that is no Group is a named Field.
#[tactic(auto, unfolding(crate::specs::Expr::named_field))]
fn named_field(table: &Table, node: u16) -> bool
    ensures { result ≡ named_field (tree_at table.now.cells.now table.now.count node) }
{
    walk::<NamedField>(table, node)
}

// The crate's order: a Field by its member, anything else by its precedence.
#[tactic(auto, unfolding(laws::specs::Choice::lookup, laws::specs::Choice::pick), using(crate::proofs::Operands::crates_in))]
fn field_else_below(table: &Table, func: u16, left: Precedence) -> bool
    ensures { result ≡ call_needs_group Crates (tree_at table.now.cells.now table.now.count func) left }
{
    if let Some(Form::ExprField) = table.form(func) {
        table.detail(func) == 0
    } else {
        left < Precedence::Unambiguous
    }
}

// expr_call, in the crate's order or in ours: precedence, then the Field rule.
#[tactic(auto, unfolding(crate::specs::Expr::call_needs_group))]
fn call_needs_group(order: CalleeOrder, table: &Table, func: u16, left: Precedence) -> bool
    ensures { result ≡ call_needs_group order (tree_at table.now.cells.now table.now.count func) left }
{
    match order {
        CalleeOrder::Crates => field_else_below(table, func, left),
        CalleeOrder::Ours => left < Precedence::Unambiguous || named_field(table, func),
    }
}

// expr_call: what is called.
#[tactic(auto, unfolding(crate::specs::Handed::grouped_by))]
fn call_func(order: CalleeOrder, fixup: FixupContext, table: &Table, func: u16) -> Handed
    ensures { result ≡ grouped_by (leftmost_with_operator fixup (tree_at table.now.cells.now table.now.count func) true false Unambiguous) (call_needs_group order (tree_at table.now.cells.now table.now.count func)) }
{
    let left = leftmost_subexpression_with_operator(
        fixup,
        table,
        func,
        true,
        false,
        Precedence::Unambiguous,
    );
    subexpr(left, call_needs_group(order, table, func, left.precedence))
}

// What the operand at the first place gets from its owner. `fixup` is the owner's own context, NONE where the owner has an outer pair; only a callee sees the order.
#[tactic(auto, unfolding(crate::specs::Expr::first_lines, laws::specs::Choice::lookup, laws::specs::Choice::pick, tree::specs::Trees::label_at), using(crate::proofs::Operands::first_in, crate::proofs::Operands::first_none, crate::proofs::Operands::number_or))]
pub fn first_operand(order: CalleeOrder, fixup: FixupContext, table: &Table, node: u16) -> Handed
    ensures { result ≡ hands_first order fixup (tree_at table.now.cells.now table.now.count node) }
{
    // One that is absent is asked as node 0, which is none: each form promises what it hands to none, too.
    let operand = table.first(node).unwrap_or(0);
    let Some(form) = table.form(node) else {
        return neither(FixupContext::none(), table, operand);
    };
    match form {
        // expr_assign
        Form::ExprAssign => { left_of(fixup, table, operand, false, false, Binding::of_assign()) }
        // expr_await, expr_field, expr_method_call, expr_try
        Form::ExprAwait | Form::ExprField | Form::ExprMethodCall | Form::ExprTry => {
            grouped_below(
                leftmost_subexpression_with_dot(fixup, table, operand),
                Precedence::Unambiguous,
            )
        }
        // expr_binary
        Form::ExprBinary => binary_left(fixup, table, operand, table.detail(node)),
        // expr_break
        Form::ExprBreak => break_value(fixup, table, operand, table.detail(node)),
        // expr_call
        Form::ExprCall => call_func(order, fixup, table, operand),
        // expr_cast
        Form::ExprCast => grouped_below(
            leftmost_subexpression_with_operator(
                fixup,
                table,
                operand,
                false,
                false,
                Precedence::Cast,
            ),
            Precedence::Cast,
        ),
        // expr_closure: the body
        Form::ExprClosure => {
            ungrouped(at_end(fixup, table, operand, false, false, Precedence::Jump))
        }
        // expr_group
        Form::ExprGroup => neither(fixup, table, operand),
        // expr_index
        Form::ExprIndex => grouped_below(
            leftmost_subexpression_with_operator(
                fixup,
                table,
                operand,
                true,
                false,
                Precedence::Unambiguous,
            ),
            Precedence::Unambiguous,
        ),
        // expr_let
        Form::ExprLet => grouped_below(
            rightmost_subexpression(fixup, table, operand, Precedence::Let),
            Precedence::Let,
        ),
        // expr_paren
        Form::ExprParen => neither(FixupContext::none(), table, operand),
        // expr_range: the start
        Form::ExprRange => left_of(fixup, table, operand, true, false, Binding::of_range()),
        // expr_raw_addr, expr_reference, expr_unary
        Form::ExprRawAddr | Form::ExprReference | Form::ExprUnary => grouped_below(
            rightmost_subexpression(fixup, table, operand, Precedence::Prefix),
            Precedence::Prefix,
        ),
        // expr_return, expr_yield
        Form::ExprReturn | Form::ExprYield => {
            ungrouped(at_end(fixup, table, operand, true, false, Precedence::Jump))
        }
        // call_args: an item of a list; all other forms have no expression there
        _ => neither(FixupContext::none(), table, operand),
    }
}

// What the operand at the second place gets from its owner. `fixup` is as above.
#[tactic(auto, unfolding(crate::specs::Expr::second_lines, laws::specs::Choice::lookup, laws::specs::Choice::pick, tree::specs::Trees::label_at), using(crate::proofs::Operands::second_in, crate::proofs::Operands::number_or))]
pub fn second_operand(fixup: FixupContext, table: &Table, node: u16) -> Handed
    ensures { result ≡ hands_second fixup (tree_at table.now.cells.now table.now.count node) }
{
    let operand = table.second(node).unwrap_or(0);
    let Some(form) = table.form(node) else {
        return neither(FixupContext::none(), table, operand);
    };
    match form {
        // expr_assign
        Form::ExprAssign => right_of(fixup, table, operand, false, Binding::of_assign()),
        // expr_binary
        Form::ExprBinary => binary_right(fixup, table, operand, table.detail(node)),
        // expr_index: the index
        Form::ExprIndex => neither(FixupContext::none(), table, operand),
        // expr_range: the end
        Form::ExprRange => right_of(fixup, table, operand, true, Binding::of_range()),
        // all other forms have no expression there
        _ => neither(FixupContext::none(), table, operand),
    }
}
