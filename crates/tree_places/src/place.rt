// What may stand at the two operand places of a node, and whether an operand does not fit its place.
ghost use Rattle.std.specs.Prelude.{◌≡◌};
ghost use Rattle.tree_source.specs.Source.{cells_of};
ghost use Rattle.tree_places.specs.Places.{first_place, second_place, wrong_class, wrong_list, wrong_item, wrong_next, wrong_at};
ghost use Rattle.tree_places.specs.Steps.{is_required, wrong_present};

use tree::form::Form;
use tree_labels::form::class_of;
use tree_source::Source;

// Classes, as `class_of` counts them: numbers, as the definitions under the theorems hold them in places.
const EXPRESSION: u16 = 1;

const TYPE: u16 = 2;

const LINK: u16 = 3;

// What may stand at a place; a class is a number, as in `class_of`.
#[derive(Clone, Copy, Debug, PartialEq, Eq)]
pub enum Place {
    // No operand.
    Nothing,
    // An operand of this class.
    Required(u16),
    // An operand of this class, or none.
    Optional(u16),
    // The first link of a list of items of this class, or none.
    List(u16),
    // A link's item.
    Item,
    // A link's next link, or none.
    Next,
}

#[tactic(auto, unfolding(crate::specs::Places::first_place, crate::specs::Places::first_places, laws::specs::Choice::pick, laws::specs::Choice::lookup))]
pub fn first_place(form: u16, detail: u16) -> Place
    ensures { result ≡ first_place form detail }
{
    let Ok(form) = Form::try_from(form) else {
        return Place::Nothing;
    };
    match form {
        Form::ExprAssign | Form::ExprBinary | Form::ExprIndex => Place::Required(EXPRESSION),
        Form::ExprCast => Place::Required(EXPRESSION),
        Form::ExprAwait
        | Form::ExprClosure
        | Form::ExprField
        | Form::ExprGroup
        | Form::ExprLet
        | Form::ExprParen
        | Form::ExprRawAddr
        | Form::ExprReference
        | Form::ExprTry
        | Form::ExprUnary => Place::Required(EXPRESSION),
        Form::TypePtr | Form::TypeReference => Place::Required(TYPE),
        Form::ExprBreak | Form::ExprReturn | Form::ExprYield => Place::Optional(EXPRESSION),
        Form::TypeFnPtr => Place::Optional(TYPE),
        Form::ExprRange => Place::Optional(EXPRESSION),
        Form::ExprCall | Form::ExprMethodCall => Place::Required(EXPRESSION),
        // The output type, which only parenthesised arguments have.
        Form::TypeImplTrait | Form::TypePath | Form::TypeTraitObject if detail == 3 => {
            Place::Optional(TYPE)
        }
        Form::Link => Place::Item,
        _ => Place::Nothing,
    }
}

#[tactic(auto, unfolding(crate::specs::Places::second_place, crate::specs::Places::second_places, laws::specs::Choice::pick, laws::specs::Choice::lookup))]
pub fn second_place(form: u16, detail: u16) -> Place
    ensures { result ≡ second_place form detail }
{
    let Ok(form) = Form::try_from(form) else {
        return Place::Nothing;
    };
    match form {
        Form::ExprAssign | Form::ExprBinary | Form::ExprIndex => Place::Required(EXPRESSION),
        Form::ExprCast => Place::Required(TYPE),
        Form::ExprRange => Place::Optional(EXPRESSION),
        Form::ExprCall | Form::ExprMethodCall => Place::List(EXPRESSION),
        // The arguments in angle brackets.
        Form::TypePath if detail == 2 => Place::List(TYPE),
        Form::Link => Place::Next,
        _ => Place::Nothing,
    }
}

// An operand within the count that is of another class.
#[tactic(auto, unfolding(crate::specs::Places::wrong_class))]
fn wrong_class(source: &Source, count: u16, class: u16, operand: u16) -> bool
    ensures { result ≡ wrong_class (cells_of source.now.file.now source.now.held.now) count class operand }
{
    operand <= count && class_of(source.form_at(operand)) != class
}

// An operand within the count that is no link, or a link whose item is of another class.
#[tactic(auto, unfolding(crate::specs::Places::wrong_list))]
fn wrong_list(source: &Source, count: u16, class: u16, operand: u16) -> bool
    ensures { result ≡ wrong_list (cells_of source.now.file.now source.now.held.now) count class operand }
{
    if operand > count {
        return false;
    }
    let link = source.node_at(operand);
    class_of(link.form) != LINK || wrong_class(source, count, class, link.first)
}

// An item that is neither an expression nor a type.
#[tactic(auto, unfolding(crate::specs::Places::wrong_item))]
fn wrong_item(source: &Source, count: u16, operand: u16) -> bool
    ensures { result ≡ wrong_item (cells_of source.now.file.now source.now.held.now) count operand }
{
    wrong_class(source, count, EXPRESSION, operand) && wrong_class(source, count, TYPE, operand)
}

// A next link that is none, or whose item is of another class than the item of the link before it.
#[tactic(auto, unfolding(crate::specs::Places::wrong_next, laws::specs::Choice::pick))]
fn wrong_next(source: &Source, count: u16, item: u16, operand: u16) -> bool
    ensures { result ≡ wrong_next (cells_of source.now.file.now source.now.held.now) count item operand }
{
    if item > count {
        return wrong_class(source, count, LINK, operand);
    }
    wrong_list(source, count, class_of(source.form_at(item)), operand)
}

// Whether a place must have an operand.
#[tactic(auto, unfolding(crate::specs::Steps::is_required))]
fn is_required(place: Place) -> bool
    ensures { result ≡ is_required place }
{
    matches!(place, Place::Required(_) | Place::Item)
}

// Whether an operand that is present does not fit a place of a node whose first number is this.
#[tactic(auto, unfolding(crate::specs::Steps::wrong_present))]
fn wrong_present(source: &Source, count: u16, first: u16, place: Place, operand: u16) -> bool
    ensures { result ≡ wrong_present (cells_of source.now.file.now source.now.held.now) count first place operand }
{
    match place {
        Place::Nothing => true,
        Place::Required(class) | Place::Optional(class) => wrong_class(
            source, count, class, operand,
        ),
        Place::List(class) => wrong_list(source, count, class, operand),
        Place::Item => wrong_item(source, count, operand),
        Place::Next => wrong_next(source, count, first, operand),
    }
}

// Whether the number at a place of a node whose first number is this is absent where required, present where forbidden, or of the wrong class.
#[tactic(auto, using(crate::proofs::Places::wrong_absent, crate::proofs::Places::wrong_present_lem))]
pub fn is_wrong(source: &Source, count: u16, first: u16, place: Place, operand: u16) -> bool
    ensures { result ≡ wrong_at (cells_of source.now.file.now source.now.held.now) count first place operand }
{
    if operand == 0 {
        return is_required(place);
    }
    wrong_present(source, count, first, place, operand)
}
