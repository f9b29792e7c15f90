// prettyplease's classify.rs: whether an expression or a type ends in a brace, each a walk over node numbers.
#![tactic(auto)]

ghost use Rattle.std.specs.Prelude.{◌≡◌, true, false};
ghost use Rattle.tree.specs.Trees.{tree_at};
ghost use Rattle.tree.specs.Steps.{asked_at, tree_of};
ghost use Rattle.tree.specs.Asks.{asked};
ghost use Rattle.classify_braces.specs.Braces.{brace_in_path, brace_in_bounds, type_brace_lines, type_trailing_brace, brace_lines, trailing_brace};

use tree::columns;
use tree::form::Form;
use tree::question::{Asked, Question, walk};
use tree::table::{Operand, Table};

// The last bound: a path with an output goes on; tokens may end in braces.
#[tactic(auto, unfolding(crate::specs::Braces::brace_in_bounds, laws::specs::Choice::pick))]
fn brace_in_bounds(detail: u16) -> Asked<bool>
    ensures { asked result ≡ brace_in_bounds detail }
{
    match detail {
        3 => Asked::First,
        7 => Asked::Answer(true),
        _ => Asked::Answer(false),
    }
}

// The last segment: only the output of parenthesised arguments goes on.
#[tactic(auto, unfolding(crate::specs::Braces::brace_in_path, laws::specs::Choice::pick))]
fn brace_in_path(detail: u16) -> Asked<bool>
    ensures { asked result ≡ brace_in_path detail }
{
    match detail {
        3 => Asked::First,
        _ => Asked::Answer(false),
    }
}

// The walk asks only of nodes that are there, so that a form is read without the count.
struct TypeTrailingBrace;

impl Question for TypeTrailingBrace {
    type Answer = bool;

    ghost lines = { type_brace_lines };

    ghost other = { λ l. false };

    ghost absent = { false };

    fn absent() -> bool {
        false
    }

    #[tactic(auto, unfolding(crate::specs::Braces::type_brace_lines, laws::specs::Choice::lookup, laws::specs::Choice::pick, tree::specs::Trees::label_at))]
    fn ask(table: &Table, node: u16) -> Asked<bool> {
        let Ok(form) = Form::try_from(table.cell(node, columns::FORM)) else {
            return Asked::Answer(false);
        };
        match form {
            Form::TypeFnPtr | Form::TypePtr | Form::TypeReference => Asked::First,
            Form::TypeImplTrait | Form::TypeTraitObject => brace_in_bounds(table.detail(node)),
            Form::TypeMacro => Asked::Answer(table.detail(node) == 2),
            Form::TypePath => brace_in_path(table.detail(node)),
            Form::TypeVerbatim => Asked::Answer(table.detail(node) == 1),
            _ => Asked::Answer(false),
        }
    }
}

// Nested in expr_trailing_brace: whether a type's last token is `}`.
#[tactic(auto, unfolding(crate::specs::Braces::type_trailing_brace))]
pub fn type_trailing_brace(table: &Table, node: u16) -> bool
    ensures { result ≡ type_trailing_brace (tree_at table.now.cells.now table.now.count node) }
{
    walk::<TypeTrailingBrace>(table, node)
}

// A Cast ends where its type ends.
#[tactic(auto, unfolding(crate::specs::Braces::type_trailing_brace, tree::specs::Walks::walk))]
fn cast_brace(table: &Table, ty: Operand) -> bool
    ensures { result ≡ type_trailing_brace (tree_of table.now.cells.now table.now.count ty) }
{
    let Some(ty) = ty else {
        return false;
    };
    type_trailing_brace(table, ty)
}

struct TrailingBrace;

impl Question for TrailingBrace {
    type Answer = bool;

    ghost lines = { brace_lines };

    ghost other = { λ l. false };

    ghost absent = { false };

    fn absent() -> bool {
        false
    }

    #[tactic(auto, unfolding(crate::specs::Braces::brace_lines, laws::specs::Choice::lookup, laws::specs::Choice::pick, tree::specs::Trees::label_at), using(tree::proofs::Walks::tree_of_lem))]
    fn ask(table: &Table, node: u16) -> Asked<bool> {
        let Ok(form) = Form::try_from(table.cell(node, columns::FORM)) else {
            return Asked::Answer(false);
        };
        match form {
            Form::ExprAsync
            | Form::ExprBlock
            | Form::ExprConst
            | Form::ExprForLoop
            | Form::ExprIf
            | Form::ExprLoop
            | Form::ExprMatch
            | Form::ExprStruct
            | Form::ExprTryBlock
            | Form::ExprUnsafe
            | Form::ExprWhile => Asked::Answer(true),
            Form::ExprAssign | Form::ExprBinary | Form::ExprRange => Asked::Second,
            Form::ExprBreak
            | Form::ExprClosure
            | Form::ExprGroup
            | Form::ExprLet
            | Form::ExprRawAddr
            | Form::ExprReference
            | Form::ExprReturn
            | Form::ExprUnary
            | Form::ExprYield => Asked::First,
            Form::ExprCast => Asked::Answer(cast_brace(table, table.second(node))),
            Form::ExprMacro => Asked::Answer(table.detail(node) == 2),
            Form::ExprVerbatim => Asked::Answer(table.detail(node) == 1),
            _ => Asked::Answer(false),
        }
    }
}

// Whether the expression's last token is `}`.
#[tactic(auto, unfolding(crate::specs::Braces::trailing_brace))]
pub fn expr_trailing_brace(table: &Table, node: u16) -> bool
    ensures { result ≡ trailing_brace (tree_at table.now.cells.now table.now.count node) }
{
    walk::<TrailingBrace>(table, node)
}
