// Tests on precedences, and consume_by_precedence.
ghost use Rattle.std.specs.Prelude.{◌≡◌};
ghost use Rattle.fixup_scan.specs.Scans.{binds, consumes, consume_by};

use super::Scan;
use precedence::Precedence;

// An expression's precedence where it is scanned, and the operator behind it.
#[derive(Clone, Copy, Debug, PartialEq, Eq)]
pub struct Scanned {
    pub precedence: Precedence,
    pub next: Precedence,
}

impl Scanned {
    // Whether an operator binds its operand before the next one does.
    #[tactic(auto, unfolding(crate::specs::Scans::binds, laws::specs::Choice::pick))]
    fn binds(self) -> bool
        ensures { result ≡ binds self.precedence self.next }
    {
        match self.precedence {
            Precedence::Assign | Precedence::Compare => self.precedence <= self.next,
            _ => self.precedence < self.next,
        }
    }

    #[tactic(auto, unfolding(crate::specs::Scans::consumes))]
    pub fn consumes(self) -> bool
        ensures { result ≡ consumes self.precedence self.next }
    {
        self.binds() || self.next == Precedence::MIN
    }

    // consume_by_precedence
    #[tactic(auto, unfolding(crate::specs::Scans::consume_by, laws::specs::Choice::pick))]
    pub fn consume_by(self) -> Scan
        ensures { result ≡ consume_by self.precedence self.next }
    {
        if self.consumes() {
            Scan::Consume
        } else {
            Scan::Bailout
        }
    }
}
