// The classes of the forms, and the numbers that a node may hold.
ghost use Rattle.std.specs.Prelude.{◌≡◌, leb};
ghost use Rattle.tree.specs.Forms.{class_of, highest_attributes, highest_detail, highest_symbol, allowed};

use tree::form::Form;
use tree::sizes;

// 1 an expression, 2 a type, 3 a list link; 0 for a number that is no form.
#[tactic(auto, unfolding(tree::specs::Forms::class_of, laws::specs::Choice::pick))]
pub fn class_of(form: u16) -> u16
    ensures { result ≡ class_of form }
{
    match form {
        1..=40 => 1,
        41..=55 => 2,
        56 => 3,
        _ => 0,
    }
}

// Expressions but Verbatim have attributes.
#[tactic(auto, unfolding(tree::specs::Forms::highest_attributes, laws::specs::Choice::pick))]
fn highest_attributes(form: u16) -> u16
    ensures { result ≡ highest_attributes form }
{
    match class_of(form) {
        1 if form != Form::ExprVerbatim.number() => 2,
        _ => 0,
    }
}

#[tactic(auto, unfolding(tree::specs::Forms::highest_detail, tree::specs::Forms::details, laws::specs::Choice::lookup, laws::specs::Choice::pick))]
fn highest_detail(form: u16) -> u16
    ensures { result ≡ highest_detail form }
{
    let Ok(form) = Form::try_from(form) else {
        return 0;
    };
    match form {
        Form::ExprBinary => 27,
        Form::ExprUnary => 2,
        Form::ExprBlock | Form::ExprForLoop | Form::ExprLoop | Form::ExprWhile => 1,
        Form::ExprBreak => 1,
        Form::ExprMacro | Form::TypeMacro => 2,
        Form::ExprClosure | Form::ExprField | Form::ExprRange => 1,
        Form::ExprRawAddr | Form::TypePtr => 1,
        Form::ExprReference | Form::TypeReference => 1,
        Form::ExprVerbatim | Form::TypeVerbatim => 1,
        Form::TypePath => 3,
        Form::TypeImplTrait | Form::TypeTraitObject => 7,
        _ => 0,
    }
}

// Names, literals, members and methods have symbols, and path types with a segment.
#[tactic(auto, unfolding(tree::specs::Forms::highest_symbol, tree::specs::Forms::symbols, laws::specs::Choice::lookup, laws::specs::Choice::pick))]
fn highest_symbol(form: u16, detail: u16) -> u16
    ensures { result ≡ highest_symbol form detail }
{
    let Ok(form) = Form::try_from(form) else {
        return 0;
    };
    match form {
        Form::ExprField | Form::ExprLit | Form::ExprMethodCall | Form::ExprPath =>
            sizes::MOST_SYMBOL,
        Form::TypePath if detail != 0 => sizes::MOST_SYMBOL,
        _ => 0,
    }
}

// Whether a node of this form and detail may have this symbol; any may have 0.
pub fn is_symbol_allowed(form: u16, detail: u16, symbol: u16) -> bool
    ensures { result ≡ leb symbol (highest_symbol form detail) }
{
    symbol == 0 || symbol <= highest_symbol(form, detail)
}

// Whether a form, an attribute, a detail and a symbol number are allowed together.
#[tactic(auto, unfolding(tree::specs::Forms::allowed))]
pub fn is_allowed(form: u16, attributes: u16, detail: u16, symbol: u16) -> bool
    ensures { result ≡ allowed form attributes detail symbol }
{
    class_of(form) != 0
        && attributes <= highest_attributes(form)
        && detail <= highest_detail(form)
        && is_symbol_allowed(form, detail, symbol)
}
