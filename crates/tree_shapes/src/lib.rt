// The shape of a node: per place of its form, an operand present or absent.
#![tactic(auto)]

ghost use Rattle.std.specs.Prelude.{◌≡◌};
ghost use Rattle.tree_shapes.specs.Shapes.{shape_at, first_in_shape, second_in_shape};

use tree::form::Form;
use tree::table::{Operand, Table};

// A form has no place for an operand, one or two.
#[derive(Clone, Copy, Debug, PartialEq, Eq)]
pub enum Shape {
    Closed,
    One(Operand),
    Two(Operand, Operand),
}

impl Shape {
    // The operand at the first place.
    #[tactic(auto, unfolding(crate::specs::Shapes::first_in_shape))]
    pub fn first(self) -> Operand
        ensures { result ≡ first_in_shape self }
    {
        match self {
            Shape::Closed => None,
            Shape::One(first) => first,
            Shape::Two(first, _) => first,
        }
    }

    // The operand at the second place.
    #[tactic(auto, unfolding(crate::specs::Shapes::second_in_shape))]
    pub fn second(self) -> Operand
        ensures { result ≡ second_in_shape self }
    {
        match self {
            Shape::Closed => None,
            Shape::One(_) => None,
            Shape::Two(_, second) => second,
        }
    }
}

// The shape of a node; `Closed` where there is no such node.
#[tactic(auto, unfolding(crate::specs::Shapes::shape_at, crate::specs::Shapes::shape_lines, laws::specs::Choice::lookup, laws::specs::Choice::pick))]
pub fn shape_at(table: &Table, node: u16) -> Shape
    ensures { result ≡ shape_at table.now.cells.now table.now.count node }
{
    let Some(form) = table.form(node) else {
        return Shape::Closed;
    };
    let first = table.first(node);
    let second = table.second(node);
    match form {
        Form::ExprAssign
        | Form::ExprBinary
        | Form::ExprCall
        | Form::ExprIndex
        | Form::ExprMethodCall
        | Form::ExprRange => Shape::Two(first, second),
        Form::ExprCast | Form::TypePath | Form::Link => Shape::Two(first, second),
        Form::ExprAwait
        | Form::ExprBreak
        | Form::ExprClosure
        | Form::ExprField
        | Form::ExprGroup
        | Form::ExprLet
        | Form::ExprParen
        | Form::ExprRawAddr
        | Form::ExprReturn
        | Form::ExprTry
        | Form::ExprUnary
        | Form::ExprYield => Shape::One(first),
        Form::ExprReference => Shape::One(first),
        Form::TypeFnPtr | Form::TypeImplTrait | Form::TypePtr | Form::TypeTraitObject => {
            Shape::One(first)
        }
        Form::TypeReference => Shape::One(first),
        _ => Shape::Closed,
    }
}

// The operand at the first place of a node's form.
pub fn first_at(table: &Table, node: u16) -> Operand
    ensures { result ≡ first_in_shape (shape_at table.now.cells.now table.now.count node) }
{
    shape_at(table, node).first()
}

// The operand at the second place of a node's form.
pub fn second_at(table: &Table, node: u16) -> Operand
    ensures { result ≡ second_in_shape (shape_at table.now.cells.now table.now.count node) }
{
    shape_at(table, node).second()
}
