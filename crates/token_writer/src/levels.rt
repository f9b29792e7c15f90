// The pairs of a plain tree by levels: how strong a node is, what its place asks for, and what it hands down.
ghost use Rattle.std.specs.Prelude.{◌≡◌, not, ◌&&◌, [], ◌∷◌, suc, ◌≤◌, ◌<◌};
ghost use Rattle.laws.specs.Choice.{pick, lookup, is_one_of};
ghost use Rattle.tree.specs.Table.{second_column};
ghost use Rattle.tree.specs.Trees.{label_at, tree_at, operand_at};
ghost use Rattle.classify.specs.Classify.{trailing_path};
ghost use Rattle.token_grammar.specs.Tokens.{operator_of};
ghost use Rattle.token_grammar.specs.Levels.{assignments, comparisons, prefixes, kind, level, lowest};
ghost use Rattle.token_grammar.specs.Grammar.{opens_arguments};
ghost use Rattle.token_grammar.specs.Bounds.{highest};
ghost use Rattle.token_writer.specs.Levels.{opening, place, opens_in, condition_in, closed, strength_lines, needs, first_lines, second_lines};

use crate::signs::operator_code;
use classify::trailing_unparameterized_path;
use token_grammar::{codes, level};
use tree::columns;
use tree::form::Form;
use tree::table::Table;

// One more than a postfix form's: what may be called.
const CALLABLE: u16 = level::POSTFIXES + 1;

// More than any place asks for.
const CLOSED: u16 = OPENING;

// A place in one number, since tasks pack it: the lowest strength, and one of these more for each flag that holds.
pub const OPENING: u16 = 32;

pub const CONDITIONAL: u16 = 64;

fn placed(least: u16, opens: bool, condition: bool) -> u16
    requires { least < opening }
    ensures { result ≡ place least opens condition }
{
    least + (OPENING * u16::from(opens) + CONDITIONAL * u16::from(condition))
}

// The level of a Binary operator.
pub fn level_of(operator: u16) -> u16
    ensures { (result ≡ level (kind (operator_of operator))) × (result ≤ highest) }
{
    token_follow::level_of(operator_code(operator))
}

// The least that may stand left of an operator of a level: one more where such operators do not lean left.
#[tactic(auto, unfolding(laws::specs::Choice::pick))]
fn left_of(own: u16) -> u16
    requires { own ≤ highest }
    ensures { (result ≡ lowest (not (is_one_of (level assignments ∷ level comparisons ∷ level prefixes ∷ []) own)) own) × (result < opening) }
{
    match own {
        level::ASSIGNMENTS | level::COMPARISONS | level::PREFIXES => own + 1,
        _ => own,
    }
}

// And right of it: anything where they lean right.
#[tactic(auto, unfolding(laws::specs::Choice::pick))]
fn right_of(own: u16) -> u16
    requires { own ≤ highest }
    ensures { (result ≡ pick (is_one_of (level assignments ∷ level prefixes ∷ []) own) 0 (suc own)) × (result < opening) }
{
    match own {
        level::ASSIGNMENTS | level::PREFIXES => 0,
        _ => own + 1,
    }
}

// `<` and `<<`.
fn opens_arguments(operator: u16) -> bool
    ensures { result ≡ opens_arguments (operator_of operator) }
{
    matches!(operator, codes::LT | codes::SHL)
}

// How strong a form with a detail is; `weak` says of a Cast that it ends in a type name before `<` or `<<`.
#[tactic(auto, unfolding(crate::specs::Levels::strength_lines, laws::specs::Choice::lookup, laws::specs::Choice::pick, token_grammar::specs::Levels::kind))]
fn strength_of(form: u16, detail: u16, weak: bool) -> u16
    ensures { result ≡ lookup (strength_lines weak detail) closed form }
{
    let Ok(form) = Form::try_from(form) else {
        return CLOSED;
    };
    match form {
        Form::ExprBinary => level_of(detail),
        Form::ExprAssign => level::ASSIGNMENTS,
        Form::ExprCast => if weak { 0 } else { level::CASTS },
        Form::ExprUnary | Form::ExprReference => level::PREFIXES,
        Form::ExprField => if detail == 0 {
            level::POSTFIXES
        } else {
            CLOSED
        },
        _ => CLOSED,
    }
}

// What the first operand of a form with a detail gets.
#[tactic(auto, unfolding(crate::specs::Levels::first_lines, laws::specs::Choice::lookup, laws::specs::Choice::pick, token_grammar::specs::Levels::kind))]
pub fn first_place(form: u16, detail: u16, opens: bool, condition: bool) -> u16
    ensures { result ≡ lookup (first_lines opens condition detail) 0 form }
{
    let Ok(form) = Form::try_from(form) else {
        return 0;
    };
    match form {
        Form::ExprBinary => placed(
            left_of(level_of(detail)),
            opens_arguments(detail),
            condition,
        ),
        Form::ExprAssign => placed(level::ASSIGNMENTS + 1, false, condition),
        Form::ExprCast => placed(level::CASTS, false, condition),
        Form::ExprUnary | Form::ExprReference => placed(level::PREFIXES, opens, condition),
        Form::ExprAwait
        | Form::ExprField
        | Form::ExprIndex
        | Form::ExprMethodCall
        | Form::ExprTry => placed(level::POSTFIXES, false, condition),
        Form::ExprCall => placed(CALLABLE, false, condition),
        _ => 0,
    }
}

// And the second.
#[tactic(auto, unfolding(crate::specs::Levels::second_lines, laws::specs::Choice::lookup, laws::specs::Choice::pick, token_grammar::specs::Levels::kind))]
pub fn second_place(form: u16, detail: u16, opens: bool, condition: bool) -> u16
    ensures { result ≡ lookup (second_lines opens condition detail) 0 form }
{
    let Ok(form) = Form::try_from(form) else {
        return 0;
    };
    match form {
        Form::ExprBinary => placed(right_of(level_of(detail)), opens, condition),
        Form::ExprAssign => placed(0, opens, condition),
        _ => 0,
    }
}

// Whether `<` or `<<` stands straight after what stands at a place.
#[tactic(auto, unfolding(crate::specs::Levels::opens_in))]
pub fn opens_in(at: u16) -> bool
    ensures { result ≡ opens_in at }
{
    (at / OPENING) % 2 == 1
}

#[tactic(auto, unfolding(crate::specs::Levels::condition_in))]
pub fn condition_in(at: u16) -> bool
    ensures { result ≡ condition_in at }
{
    at / CONDITIONAL == 1
}

// Whether the type that a node has for its second operand ends in a name before `<` or `<<`.
fn is_weak(table: &Table, node: u16, opens: bool) -> bool
    ensures { result ≡ (opens && trailing_path (tree_at table.now.cells.now table.now.count (operand_at table.now.cells.now table.now.count node second_column))) }
{
    opens && trailing_unparameterized_path(table, table.operand_number(node, columns::SECOND))
}

// Whether a node gets a pair at a place.
#[tactic(auto, unfolding(crate::specs::Levels::needs, crate::specs::Levels::needs_by, crate::specs::Levels::lowest_in, crate::specs::Levels::strength_of, tree::specs::Trees::label_at))]
pub fn needs_pair(table: &Table, node: u16, at: u16) -> bool
    ensures { result ≡ needs at (label_at table.now.cells.now node) (tree_at table.now.cells.now table.now.count (operand_at table.now.cells.now table.now.count node second_column)) }
{
    let form = table.cell(node, columns::FORM);
    if condition_in(at) && form == Form::ExprStruct.number() {
        return true;
    }
    let detail = table.detail(node);
    let weak = is_weak(table, node, opens_in(at));
    strength_of(form, detail, weak) < at % OPENING
}
