// Which rule for a callee comes first: document 02, Paper 9.
ghost use Rattle.std.specs.Prelude.{◌≡◌};
ghost use Rattle.expr.specs.Orders.{order_numbered};

#[derive(Clone, Copy, Debug, PartialEq, Eq)]
pub enum CalleeOrder {
    // The crate's: a Field by its member alone, anything else by its precedence.
    Crates,
    // Ours: precedence, then the Field rule, which looks through Groups.
    Ours,
}

impl From<u16> for CalleeOrder {
    ghost from_gives = { λ number order. order ≡ order_numbered number };

    // 0 the crate's, every other number ours.
    #[tactic(auto, unfolding(crate::specs::Orders::order_numbered, laws::specs::Choice::pick))]
    fn from(number: u16) -> CalleeOrder {
        if number == 0 {
            return CalleeOrder::Crates;
        }
        CalleeOrder::Ours
    }
}
