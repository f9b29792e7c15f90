// What an expression looks like from outside: the tests that fixup.rs makes of it, each by `matches!` or a match on its form.
#![tactic(auto, unfolding(crate::specs::Looks::is_let, crate::specs::Looks::is_struct, crate::specs::Looks::is_bare_return, crate::specs::Looks::is_open_ended, crate::specs::Looks::is_plain_block, crate::specs::Looks::is_bare_jump, crate::specs::Looks::is_open_ahead, tree_shapes::specs::Shapes::shape_at, tree_shapes::specs::Shapes::shape_lines, tree_shapes::specs::Shapes::first_in_shape, tree_shapes::specs::Shapes::second_in_shape, tree::specs::Operands::form_in, tree::specs::Trees::label_at, laws::specs::Choice::lookup, laws::specs::Choice::pick), using(crate::proofs::Looks::rooted, tree::proofs::Walks::there))]

ghost use Rattle.std.specs.Prelude.{◌≡◌};
ghost use Rattle.tree.specs.Trees.{tree_at};
ghost use Rattle.fixup_look.specs.Looks.{is_let, is_struct, is_bare_return, is_open_ended, is_plain_block, is_bare_jump, is_open_ahead, is_cast_to_path};

use classify::trailing_unparameterized_path;
use tree::form::Form;
use tree::table::Table;
use tree_shapes::{first_at, second_at};

// Expr::Let(_)
pub fn is_let(table: &Table, node: u16) -> bool
    ensures { result ≡ is_let (tree_at table.now.cells.now table.now.count node) }
{
    matches!(table.form(node), Some(Form::ExprLet))
}

// Expr::Struct(_)
pub fn is_struct(table: &Table, node: u16) -> bool
    ensures { result ≡ is_struct (tree_at table.now.cells.now table.now.count node) }
{
    matches!(table.form(node), Some(Form::ExprStruct))
}

// Return or Yield without a value.
pub fn is_bare_return(table: &Table, node: u16) -> bool
    ensures { result ≡ is_bare_return (tree_at table.now.cells.now table.now.count node) }
{
    match table.form(node) {
        Some(Form::ExprReturn | Form::ExprYield) => first_at(table, node).is_none(),
        _ => false,
    }
}

// Break without a value, Path, Range without an end.
pub fn is_open_ended(table: &Table, node: u16) -> bool
    ensures { result ≡ is_open_ended (tree_at table.now.cells.now table.now.count node) }
{
    match table.form(node) {
        Some(Form::ExprBreak) => first_at(table, node).is_none(),
        Some(Form::ExprPath) => true,
        Some(Form::ExprRange) => second_at(table, node).is_none(),
        _ => false,
    }
}

// A Block without attributes and without a label.
pub fn is_plain_block(table: &Table, node: u16) -> bool
    ensures { result ≡ is_plain_block (tree_at table.now.cells.now table.now.count node) }
{
    match table.form(node) {
        Some(Form::ExprBlock) => table.attributes(node) == 0 && table.detail(node) == 0,
        _ => false,
    }
}

// Break, Return or Yield without a value.
pub fn is_bare_jump(table: &Table, node: u16) -> bool
    ensures { result ≡ is_bare_jump (tree_at table.now.cells.now table.now.count node) }
{
    match table.form(node) {
        Some(Form::ExprBreak | Form::ExprReturn | Form::ExprYield) => first_at(
            table, node,
        ).is_none(),
        _ => false,
    }
}

// What extends to the end of the statement or group, or a Range without a start.
pub fn is_open_ahead(table: &Table, node: u16) -> bool
    ensures { result ≡ is_open_ahead (tree_at table.now.cells.now table.now.count node) }
{
    match table.form(node) {
        Some(
            Form::ExprBreak
            | Form::ExprClosure
            | Form::ExprLet
            | Form::ExprReturn
            | Form::ExprYield,
        ) => true,
        Some(Form::ExprRange) => first_at(table, node).is_none(),
        _ => false,
    }
}

// A Cast whose type ends in a path without arguments.
#[tactic(auto, unfolding(crate::specs::Looks::is_cast_to_path, classify::specs::Classify::trailing_path, tree_shapes::specs::Shapes::shape_at, tree_shapes::specs::Shapes::shape_lines, tree_shapes::specs::Shapes::second_in_shape, tree::specs::Walks::walk, tree::specs::Operands::form_in, tree::specs::Trees::label_at, laws::specs::Choice::lookup, laws::specs::Choice::pick), using(crate::proofs::Looks::rooted, tree::proofs::Unfold::tree_zero, tree::proofs::Walks::present_above, tree::proofs::Walks::absent_zero))]
pub fn is_cast_to_path(table: &Table, node: u16) -> bool
    ensures { result ≡ is_cast_to_path (tree_at table.now.cells.now table.now.count node) }
{
    let Some(Form::ExprCast) = table.form(node) else {
        return false;
    };
    match second_at(table, node) {
        Some(ty) => trailing_unparameterized_path(table, ty),
        None => false,
    }
}
