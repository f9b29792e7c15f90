// prettyplease's precedence.rs: the precedences of expressions, loosest first.
#![tactic(auto)]

ghost use Rattle.std.specs.Prelude.{◌≡◌};
ghost use Rattle.tree.specs.Trees.{tree_at};
ghost use Rattle.tree.specs.Steps.{asked_at};
ghost use Rattle.tree.specs.Asks.{asked};
ghost use Rattle.precedence.specs.declared.Precedence.TheVariants.{Unambiguous};
ghost use Rattle.precedence.specs.Precedences.{rank_of, lean_number, below, at_most, same, binop_binding, assigns, ranges, binding_of, of_binop, prefix_attrs, of_lines, closed_by, precedence_of};

use tree::columns;
use tree::form::Form;
use tree::question::{Asked, Question, walk};
use tree::table::Table;

#[derive(Clone, Copy, Debug, PartialEq, Eq, PartialOrd, Ord)]
pub enum Precedence {
    // return, break, closures
    Jump,
    // = += -= *= /= %= &= |= ^= <<= >>=
    Assign,
    // .. ..=
    Range,
    // ||
    Or,
    // &&
    And,
    // let
    Let,
    // == != < > <= >=
    Compare,
    // |
    BitOr,
    // ^
    BitXor,
    // &
    BitAnd,
    // << >>
    Shift,
    // + -
    Sum,
    // * / %
    Product,
    // as
    Cast,
    // unary - * ! & &mut
    Prefix,
    // paths, loops, function calls, array indexing, field expressions, method calls
    Unambiguous,
}

// Which way an operator leans: a chain of its level is read from the left, from the right, or not at all.
#[derive(Clone, Copy, Debug, PartialEq, Eq)]
pub enum Lean {
    Left,
    Right,
    Neither,
}

// How an operator binds: its level, and which way it leans.
#[derive(Clone, Copy, Debug, PartialEq, Eq)]
pub struct Binding {
    pub level: Precedence,
    pub lean: Lean,
}

// Precedence::of for a closed form: its outer attributes bind like a prefix.
#[tactic(auto, unfolding(crate::specs::Precedences::prefix_attrs, laws::specs::Choice::pick))]
fn prefix_attrs(attributes: u16) -> Precedence
    ensures { result ≡ prefix_attrs attributes }
{
    if attributes == 2 {
        Precedence::Prefix
    } else {
        Precedence::Unambiguous
    }
}

// Precedence::of. Verbatim has no attributes, and neither has what is no expression.
// The walk asks only of nodes that are there, so that a form is read without the count.
struct PrecedenceOf;

impl Question for PrecedenceOf {
    type Answer = Precedence;

    ghost lines = { of_lines };

    ghost other = { λ l. closed_by l.form l.attributes };

    ghost absent = { Unambiguous };

    fn absent() -> Precedence {
        Precedence::Unambiguous
    }

    #[tactic(auto, unfolding(crate::specs::Precedences::of_lines, crate::specs::Precedences::closed_by, tree::specs::Forms::class_of, laws::specs::Choice::lookup, laws::specs::Choice::pick, tree::specs::Trees::label_at), using(tree::proofs::Walks::there))]
    fn ask(table: &Table, node: u16) -> Asked<Precedence> {
        let Ok(form) = Form::try_from(table.cell(node, columns::FORM)) else {
            return Asked::Answer(Precedence::Unambiguous);
        };
        match form {
            Form::ExprClosure => match table.detail(node) {
                0 => Asked::Answer(Precedence::Jump),
                _ => Asked::Answer(prefix_attrs(table.attributes(node))),
            },
            Form::ExprBreak | Form::ExprReturn | Form::ExprYield => match table.first(node) {
                Some(_) => Asked::Answer(Precedence::Jump),
                None => Asked::Answer(Precedence::Unambiguous),
            },
            Form::ExprAssign => Asked::Answer(Precedence::Assign),
            Form::ExprRange => Asked::Answer(Precedence::Range),
            Form::ExprBinary => Asked::Answer(Precedence::of_binop(table.detail(node))),
            Form::ExprLet => Asked::Answer(Precedence::Let),
            Form::ExprCast => Asked::Answer(Precedence::Cast),
            Form::ExprRawAddr | Form::ExprReference | Form::ExprUnary => {
                Asked::Answer(Precedence::Prefix)
            }
            Form::ExprGroup => Asked::First,
            Form::ExprArray
            | Form::ExprAsync
            | Form::ExprAwait
            | Form::ExprBlock
            | Form::ExprCall
            | Form::ExprConst
            | Form::ExprContinue
            | Form::ExprField
            | Form::ExprForLoop
            | Form::ExprIf
            | Form::ExprIndex
            | Form::ExprInfer
            | Form::ExprLit
            | Form::ExprLoop
            | Form::ExprMacro
            | Form::ExprMatch
            | Form::ExprMethodCall
            | Form::ExprParen
            | Form::ExprPath
            | Form::ExprRepeat
            | Form::ExprStruct
            | Form::ExprTry
            | Form::ExprTryBlock
            | Form::ExprTuple
            | Form::ExprUnsafe
            | Form::ExprWhile => Asked::Answer(prefix_attrs(table.attributes(node))),
            _ => Asked::Answer(Precedence::Unambiguous),
        }
    }
}

impl Precedence {
    pub const MIN: Precedence = Precedence::Jump;

    // The place in the enum's order, from 0.
    pub fn rank(self) -> u16
        ensures { result ≡ rank_of self }
    {
        self as u16
    }

    pub fn is_below(self, other: Precedence) -> bool
        ensures { result ≡ below self other }
    {
        self < other
    }

    pub fn is_at_most(self, other: Precedence) -> bool
        ensures { result ≡ at_most self other }
    {
        self <= other
    }

    pub fn is_same(self, other: Precedence) -> bool
        ensures { result ≡ same self other }
    {
        self == other
    }

    // The precedence of a binary operator, by its number.
    #[tactic(auto, unfolding(crate::specs::Precedences::of_binop))]
    pub fn of_binop(op: u16) -> Precedence
        ensures { result ≡ of_binop op }
    {
        Binding::of_binop(op).level
    }

    // The precedence of a node of a table.
    #[tactic(auto, unfolding(crate::specs::Precedences::precedence_of))]
    pub fn of(table: &Table, node: u16) -> Precedence
        ensures { result ≡ precedence_of (tree_at table.now.cells.now table.now.count node) }
    {
        walk::<PrecedenceOf>(table, node)
    }
}

// 0, 1 or 2, in the enum's order.
impl From<Lean> for u16 {
    ghost from_gives = { λ lean number. number ≡ lean_number lean };

    fn from(lean: Lean) -> u16 {
        lean as u16
    }
}

impl Lean {
    pub fn number(self) -> u16
        ensures { result ≡ lean_number self }
    {
        u16::from(self)
    }
}

impl Binding {
    // The operator of a Binary, by its number.
    #[tactic(auto, unfolding(crate::specs::Precedences::operators, laws::specs::Choice::lookup, laws::specs::Choice::pick))]
    pub fn of_binop(op: u16) -> Binding
        ensures { result ≡ binop_binding op }
    {
        let (level, lean) = match op {
            0..=1 => (Precedence::Sum, Lean::Left),
            2..=4 => (Precedence::Product, Lean::Left),
            5 => (Precedence::And, Lean::Left),
            6 => (Precedence::Or, Lean::Left),
            7 => (Precedence::BitXor, Lean::Left),
            8 => (Precedence::BitAnd, Lean::Left),
            9 => (Precedence::BitOr, Lean::Left),
            10..=11 => (Precedence::Shift, Lean::Left),
            12..=17 => (Precedence::Compare, Lean::Neither),
            18..=27 => (Precedence::Assign, Lean::Right),
            _ => (Precedence::MIN, Lean::Left),
        };
        Binding { level, lean }
    }

    // The `=` of an Assign.
    pub fn of_assign() -> Binding
        ensures { result ≡ assigns }
    {
        Binding {
            level: Precedence::Assign,
            lean: Lean::Right,
        }
    }

    // The `..` or `..=` of a Range.
    pub fn of_range() -> Binding
        ensures { result ≡ ranges }
    {
        Binding {
            level: Precedence::Range,
            lean: Lean::Neither,
        }
    }

    // Any operator: 0 to 27 those of Binary, 28 `=`, 29 Range's.
    #[tactic(auto, unfolding(crate::specs::Precedences::binding_of, laws::specs::Choice::lookup, laws::specs::Choice::pick))]
    pub fn of(operator: u16) -> Binding
        ensures { result ≡ binding_of operator }
    {
        match operator {
            28 => Binding::of_assign(),
            29 => Binding::of_range(),
            _ => Binding::of_binop(operator),
        }
    }
}
