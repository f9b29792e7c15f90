// The arms of scan_right's `match`, and the operand that each goes on with.
ghost use Rattle.std.specs.Prelude.{◌≡◌};
ghost use Rattle.tree.specs.Trees.{tree_at};
ghost use Rattle.tree.specs.Operands.{presence};
ghost use Rattle.tree.specs.Steps.{tree_of};
ghost use Rattle.classify.specs.Classify.{leading_label};
ghost use Rattle.fixup_scan.specs.Arms.{arm_of, operand_number};

use precedence::Precedence;
use tree::form::Form;
use tree::table::{Operand, Table};
use tree_shapes::first_at;

#[derive(Clone, Copy, Debug, PartialEq, Eq)]
pub enum Arm {
    // Expr::Assign without attributes
    Assign,
    // Expr::Binary without attributes, with its operator's precedence
    Binary(Precedence),
    // Expr::RawAddr, Expr::Reference, Expr::Unary
    Prefix,
    // Expr::Range without attributes
    Range,
    // Expr::Break: whether it has no label while its value begins with one
    Break(bool),
    // Expr::Return, Expr::Yield
    Return,
    Closure,
    Let,
    Group,
    // the closed forms, and attributed Assign, Binary and Range
    Closed,
}

#[tactic(auto, unfolding(classify::specs::Classify::leading_label, tree::specs::Walks::walk))]
fn leading_label(table: &Table, value: Operand) -> bool
    ensures { result ≡ leading_label (tree_of table.now.cells.now table.now.count value) }
{
    let Some(number) = value else {
        return false;
    };
    classify::expr_leading_label(table, number)
}

#[tactic(auto, unfolding(crate::specs::Arms::arm_of, crate::specs::Arms::arm_lines, tree_shapes::specs::Shapes::shape_at, tree_shapes::specs::Shapes::shape_lines, tree_shapes::specs::Shapes::first_in_shape, tree::specs::Operands::form_in, tree::specs::Walks::at_root, tree::specs::Trees::label_at, laws::specs::Choice::lookup, laws::specs::Choice::pick), using(tree::proofs::Unfold::unfolds, tree::proofs::Unfold::tree_zero, tree::proofs::Unfold::tree_past, tree::proofs::Walks::tree_of_lem, crate::proofs::Unlisted::unlisted))]
pub fn arm_at(table: &Table, node: u16) -> Arm
    ensures { result ≡ arm_of (tree_at table.now.cells.now table.now.count node) }
{
    let Some(form) = table.form(node) else {
        return Arm::Closed;
    };
    match form {
        Form::ExprAssign if table.attributes(node) == 0 => Arm::Assign,
        Form::ExprBinary if table.attributes(node) == 0 => {
            Arm::Binary(Precedence::of_binop(table.detail(node)))
        }
        Form::ExprRawAddr | Form::ExprReference | Form::ExprUnary => Arm::Prefix,
        Form::ExprRange if table.attributes(node) == 0 => Arm::Range,
        Form::ExprBreak => {
            Arm::Break(table.detail(node) == 0 && leading_label(table, first_at(table, node)))
        }
        Form::ExprReturn | Form::ExprYield => Arm::Return,
        Form::ExprClosure => Arm::Closure,
        Form::ExprLet => Arm::Let,
        Form::ExprGroup => Arm::Group,
        _ => Arm::Closed,
    }
}

impl Arm {
    // The operand that the arm of a node goes on with.
    #[tactic(auto, unfolding(tree::specs::Operands::presence))]
    pub fn operand_of(self, table: &Table, node: u16) -> Operand
        ensures { result ≡ presence (operand_number self table.now.cells.now table.now.count node) }
    {
        match self {
            Arm::Assign | Arm::Binary(_) | Arm::Range => table.second(node),
            Arm::Prefix | Arm::Break(_) | Arm::Return | Arm::Let | Arm::Group => table.first(node),
            Arm::Closure | Arm::Closed => None,
        }
    }
}
