// prettyplease's classify.rs, but for the brace at an end (crate classify_braces): questions about the ends of an expression, each a walk over node numbers.
#![tactic(auto)]

ghost use Rattle.std.specs.Prelude.{◌≡◌, true, false};
ghost use Rattle.tree.specs.Trees.{tree_at};
ghost use Rattle.tree.specs.Steps.{asked_at};
ghost use Rattle.tree.specs.Asks.{asked};
ghost use Rattle.classify.specs.Classify.{comma_lines, requires_comma, requires_semi, last_type_in_path, path_lines, trailing_path, label_lines, leading_label};

use tree::columns;
use tree::form::Form;
use tree::question::{Asked, Question, walk};
use tree::table::Table;

#[tactic(auto, unfolding(crate::specs::Classify::requires_semi, tree::specs::Walks::at_root, tree::specs::Operands::form_in, tree::specs::Trees::label_at, laws::specs::Choice::lookup, laws::specs::Choice::pick), using(tree::proofs::Unfold::unfolds, tree::proofs::Unfold::tree_zero, tree::proofs::Unfold::tree_past))]
pub fn requires_semi_to_be_stmt(table: &Table, node: u16) -> bool
    ensures { result ≡ requires_semi (tree_at table.now.cells.now table.now.count node) }
{
    match table.form(node) {
        Some(Form::ExprMacro) => table.detail(node) != 2,
        _ => requires_comma_to_be_match_arm(table, node),
    }
}

// The walk asks only of nodes that are there, so that a form is read without the count.
struct RequiresComma;

impl Question for RequiresComma {
    type Answer = bool;

    ghost lines = { comma_lines };

    ghost other = { λ l. true };

    ghost absent = { true };

    fn absent() -> bool {
        true
    }

    #[tactic(auto, unfolding(crate::specs::Classify::comma_lines, laws::specs::Choice::lookup, laws::specs::Choice::pick, tree::specs::Trees::label_at))]
    fn ask(table: &Table, node: u16) -> Asked<bool> {
        let Ok(form) = Form::try_from(table.cell(node, columns::FORM)) else {
            return Asked::Answer(true);
        };
        match form {
            Form::ExprIf
            | Form::ExprMatch
            | Form::ExprBlock
            | Form::ExprUnsafe
            | Form::ExprWhile
            | Form::ExprLoop
            | Form::ExprForLoop
            | Form::ExprTryBlock
            | Form::ExprConst => Asked::Answer(false),
            Form::ExprGroup => Asked::First,
            _ => Asked::Answer(true),
        }
    }
}

#[tactic(auto, unfolding(crate::specs::Classify::requires_comma))]
pub fn requires_comma_to_be_match_arm(table: &Table, node: u16) -> bool
    ensures { result ≡ requires_comma (tree_at table.now.cells.now table.now.count node) }
{
    walk::<RequiresComma>(table, node)
}

// The last segment's arguments: without any the path ends there, with an output the type goes on.
#[tactic(auto, unfolding(crate::specs::Classify::last_type_in_path, laws::specs::Choice::pick))]
fn last_type_in_path(detail: u16) -> Asked<bool>
    ensures { asked result ≡ last_type_in_path detail }
{
    match detail {
        1 => Asked::Answer(true),
        3 => Asked::First,
        _ => Asked::Answer(false),
    }
}

struct TrailingPath;

impl Question for TrailingPath {
    type Answer = bool;

    ghost lines = { path_lines };

    ghost other = { λ l. false };

    ghost absent = { false };

    fn absent() -> bool {
        false // no path
    }

    #[tactic(auto, unfolding(crate::specs::Classify::path_lines, laws::specs::Choice::lookup, laws::specs::Choice::pick, tree::specs::Trees::label_at))]
    fn ask(table: &Table, node: u16) -> Asked<bool> {
        let Ok(form) = Form::try_from(table.cell(node, columns::FORM)) else {
            return Asked::Answer(false);
        };
        match form {
            Form::TypeFnPtr | Form::TypePtr | Form::TypeReference => Asked::First,
            Form::TypeImplTrait | Form::TypePath | Form::TypeTraitObject => {
                last_type_in_path(table.detail(node))
            }
            _ => Asked::Answer(false),
        }
    }
}

#[tactic(auto, unfolding(crate::specs::Classify::trailing_path))]
pub fn trailing_unparameterized_path(table: &Table, node: u16) -> bool
    ensures { result ≡ trailing_path (tree_at table.now.cells.now table.now.count node) }
{
    walk::<TrailingPath>(table, node)
}

struct LeadingLabel;

impl Question for LeadingLabel {
    type Answer = bool;

    ghost lines = { label_lines };

    ghost other = { λ l. false };

    ghost absent = { false };

    fn absent() -> bool {
        false // no label
    }

    #[tactic(auto, unfolding(crate::specs::Classify::label_lines, laws::specs::Choice::lookup, laws::specs::Choice::pick, tree::specs::Trees::label_at))]
    fn ask(table: &Table, node: u16) -> Asked<bool> {
        let Ok(form) = Form::try_from(table.cell(node, columns::FORM)) else {
            return Asked::Answer(false);
        };
        match form {
            Form::ExprBlock | Form::ExprForLoop | Form::ExprLoop | Form::ExprWhile => {
                Asked::Answer(table.detail(node) == 1)
            }
            Form::ExprAssign
            | Form::ExprAwait
            | Form::ExprBinary
            | Form::ExprCall
            | Form::ExprCast
            | Form::ExprField
            | Form::ExprIndex
            | Form::ExprMethodCall
            | Form::ExprRange
            | Form::ExprTry => Asked::First,
            // A Group with attributes ends the question.
            Form::ExprGroup => match table.attributes(node) {
                0 => Asked::First,
                _ => Asked::Answer(false),
            },
            _ => Asked::Answer(false),
        }
    }
}

// Whether the expression's first token is the label of a loop or block.
#[tactic(auto, unfolding(crate::specs::Classify::leading_label))]
pub fn expr_leading_label(table: &Table, node: u16) -> bool
    ensures { result ≡ leading_label (tree_at table.now.cells.now table.now.count node) }
{
    walk::<LeadingLabel>(table, node)
}
