// FixupContext: what is known of an expression's surroundings, and what an owner hands down.
ghost use Rattle.std.specs.Prelude.{◌≡◌};
ghost use Rattle.fixup.specs.Contexts.{none_context, new_stmt, new_match_arm, new_condition, with_operator, with_dot, rightmost};

use bools::{and_not, both, either};
use precedence::Precedence;

#[derive(Clone, Copy, Debug, PartialEq, Eq)]
pub struct FixupContext {
    pub previous_operator: Precedence,
    pub next_operator: Precedence,
    // Print expression such that it can be parsed back as a statement consisting of the original expression.
    pub stmt: bool,
    // The expression starts a statement that goes on behind it.
    pub leftmost_subexpression_in_stmt: bool,
    // Print expression such that it can be parsed as a match arm.
    pub match_arm: bool,
    // The expression starts a match arm that goes on behind it.
    pub leftmost_subexpression_in_match_arm: bool,
    // A struct literal here would be taken for the body behind the condition.
    pub condition: bool,
    // The expression ends the condition: a body follows it.
    pub rightmost_subexpression_in_condition: bool,
    // The expression starts an operand that may be left out, in a condition.
    pub leftmost_subexpression_in_optional_operand: bool,
    // The next operator's token can begin an expression.
    pub next_operator_can_begin_expr: bool,
    // The next operator's token can go on with an expression.
    pub next_operator_can_continue_expr: bool,
    // The next operator's token can begin generic arguments.
    pub next_operator_can_begin_generics: bool,
}

impl FixupContext {
    // Minimal fixing: flags are set where they are needed.
    pub const NONE: FixupContext = FixupContext {
        previous_operator: Precedence::MIN,
        next_operator: Precedence::MIN,
        stmt: false,
        leftmost_subexpression_in_stmt: false,
        match_arm: false,
        leftmost_subexpression_in_match_arm: false,
        condition: false,
        rightmost_subexpression_in_condition: false,
        leftmost_subexpression_in_optional_operand: false,
        next_operator_can_begin_expr: false,
        next_operator_can_continue_expr: false,
        next_operator_can_begin_generics: false,
    };

    // FixupContext::NONE
    pub fn none() -> FixupContext
        ensures { result ≡ none_context }
    {
        FixupContext::NONE
    }

    // The context of an expression in statement position.
    pub fn new_stmt() -> FixupContext
        ensures { result ≡ new_stmt }
    {
        FixupContext {
            stmt: true,
            ..FixupContext::NONE
        }
    }

    // The context of an expression as the right-hand side of a match arm.
    pub fn new_match_arm() -> FixupContext
        ensures { result ≡ new_match_arm }
    {
        FixupContext {
            match_arm: true,
            ..FixupContext::NONE
        }
    }

    // The context of an expression as the condition of an `if` or `while`.
    pub fn new_condition() -> FixupContext
        ensures { result ≡ new_condition }
    {
        FixupContext {
            condition: true,
            rightmost_subexpression_in_condition: true,
            ..FixupContext::NONE
        }
    }

    // The context that leftmost_subexpression_with_operator makes.
    pub fn leftmost_fixup_with_operator(
        self,
        next_operator_can_begin_expr: bool,
        next_operator_can_begin_generics: bool,
        precedence: Precedence,
    ) -> FixupContext
        ensures { result ≡ with_operator self next_operator_can_begin_expr next_operator_can_begin_generics precedence }
    {
        FixupContext {
            next_operator: precedence,
            stmt: false,
            leftmost_subexpression_in_stmt: self.stmt || self.leftmost_subexpression_in_stmt,
            match_arm: false,
            leftmost_subexpression_in_match_arm: self.match_arm
                || self.leftmost_subexpression_in_match_arm,
            rightmost_subexpression_in_condition: false,
            next_operator_can_begin_expr,
            next_operator_can_continue_expr: true,
            next_operator_can_begin_generics,
            ..self
        }
    }

    // The context that leftmost_subexpression_with_dot makes.
    pub fn leftmost_fixup_with_dot(self) -> FixupContext
        ensures { result ≡ with_dot self }
    {
        FixupContext {
            next_operator: Precedence::Unambiguous,
            stmt: either(self.stmt, self.leftmost_subexpression_in_stmt),
            leftmost_subexpression_in_stmt: false,
            match_arm: either(self.match_arm, self.leftmost_subexpression_in_match_arm),
            leftmost_subexpression_in_match_arm: false,
            rightmost_subexpression_in_condition: false,
            next_operator_can_begin_expr: false,
            next_operator_can_continue_expr: true,
            next_operator_can_begin_generics: false,
            ..self
        }
    }

    // The context of a right operand.
    pub fn rightmost_subexpression_fixup(
        self,
        reset_allow_struct: bool,
        optional_operand: bool,
        precedence: Precedence,
    ) -> FixupContext
        ensures { result ≡ rightmost self reset_allow_struct optional_operand precedence }
    {
        FixupContext {
            previous_operator: precedence,
            stmt: false,
            leftmost_subexpression_in_stmt: false,
            match_arm: false,
            leftmost_subexpression_in_match_arm: false,
            condition: and_not(self.condition, reset_allow_struct),
            leftmost_subexpression_in_optional_operand: both(self.condition, optional_operand),
            ..self
        }
    }
}
