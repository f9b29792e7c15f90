// What the scan answers: without an operand, and after the operand's scan.
ghost use Rattle.std.specs.Prelude.{◌≡◌};
ghost use Rattle.fixup_scan.specs.Linear.{asks_again};
ghost use Rattle.fixup_scan.specs.Arms.{closed_scan, bare_scan, leaf_scan, fail_or, leave_fail, leave_bailout, leave_by, settle_by};

use super::Scan;
use super::answer::Scanned;
use super::arm::Arm;
use precedence::Precedence;

impl Scanned {
    // The closed forms.
    #[tactic(auto, unfolding(crate::specs::Arms::closed_scan, laws::specs::Choice::pick))]
    fn closed_scan(self) -> Scan
        ensures { result ≡ closed_scan self.precedence self.next }
    {
        match self.precedence {
            Precedence::Range if matches!(self.next, Precedence::Assign | Precedence::Range) => {
                Scan::Fail
            }
            Precedence::Let if self.next < Precedence::Let => Scan::Fail,
            _ => self.consume_by(),
        }
    }

    // Break, Return and Yield without a value.
    #[tactic(auto, unfolding(crate::specs::Arms::bare_scan, laws::specs::Choice::pick))]
    fn bare_scan(self) -> Scan
        ensures { result ≡ bare_scan self.precedence self.next }
    {
        if self.next == Precedence::Assign && self.precedence > Precedence::Assign {
            Scan::Fail
        } else {
            Scan::Consume
        }
    }
}

#[tactic(auto, unfolding(crate::specs::Arms::fail_or, laws::specs::Choice::pick))]
fn fail_or(next: Precedence) -> Scan
    ensures { result ≡ fail_or next }
{
    match next {
        Precedence::Unambiguous => Scan::Fail,
        _ => Scan::Bailout,
    }
}

impl Arm {
    // The answer at a node that has no operand to go on with.
    #[tactic(auto, unfolding(laws::specs::Choice::pick))]
    pub fn leaf_scan(self, begins: bool, scanned: Scanned) -> Scan
        ensures { result ≡ leaf_scan self begins scanned.precedence scanned.next }
    {
        match self {
            Arm::Range => if begins { Scan::Consume } else { Scan::Fail },
            Arm::Break(_) | Arm::Return => scanned.bare_scan(),
            Arm::Closure => Scan::Consume,
            _ => scanned.closed_scan(),
        }
    }

    #[tactic(auto, unfolding(laws::specs::Choice::pick))]
    fn leave_fail(self, next: Precedence) -> Option<Scan>
        ensures { result ≡ leave_fail self next }
    {
        match self {
            Arm::Assign | Arm::Binary(Precedence::Assign) => Some(fail_or(next)),
            Arm::Let if next < Precedence::Let => Some(Scan::Bailout),
            Arm::Binary(_) | Arm::Prefix | Arm::Range | Arm::Let => None,
            Arm::Break(_) | Arm::Return => Some(Scan::Bailout),
            Arm::Closure | Arm::Group | Arm::Closed => Some(Scan::Fail),
        }
    }

    #[tactic(auto, unfolding(laws::specs::Choice::pick))]
    fn leave_bailout(self, scanned: Scanned) -> Option<Scan>
        ensures { result ≡ leave_bailout self scanned.precedence scanned.next }
    {
        match self {
            Arm::Range if matches!(scanned.next, Precedence::Assign | Precedence::Range) => None,
            Arm::Assign | Arm::Range | Arm::Break(_) | Arm::Return => Some(Scan::Consume),
            Arm::Binary(_) | Arm::Prefix => Some(scanned.consume_by()),
            Arm::Let if scanned.next >= Precedence::Let => Some(Scan::Consume),
            Arm::Closure | Arm::Let | Arm::Group | Arm::Closed => Some(Scan::Bailout),
        }
    }

    // What follows from the operand's scan: the answer, or nothing where the operand's right
    // precedence is asked.
    pub fn leave_by(self, scanned: Scanned, scan: Scan) -> Option<Scan>
        ensures { result ≡ leave_by self scanned.precedence scanned.next scan }
    {
        match scan {
            Scan::Fail => self.leave_fail(scanned.next),
            Scan::Bailout => self.leave_bailout(scanned),
            Scan::Consume => Some(Scan::Consume),
        }
    }

    // Whether the operand is scanned again for its right precedence: elsewhere its first answer serves.
    pub fn asks_again(self, next: Precedence) -> bool
        ensures { result ≡ asks_again self next }
    {
        match self {
            Arm::Prefix => next == Precedence::MIN,
            _ => false,
        }
    }

    // The answer by the operand's right precedence.
    #[tactic(auto, unfolding(laws::specs::Choice::pick))]
    pub fn settle_by(self, scanned: Scanned, right: Precedence) -> Scan
        ensures { result ≡ settle_by self scanned.precedence scanned.next right }
    {
        match self {
            Arm::Binary(own) if right <= own => scanned.consume_by(),
            Arm::Prefix if right < Precedence::Prefix => scanned.consume_by(),
            Arm::Binary(_) | Arm::Prefix => fail_or(scanned.next),
            Arm::Range if right > Precedence::Range => Scan::Fail,
            Arm::Let if right >= Precedence::Let => Scan::Bailout,
            _ => Scan::Consume,
        }
    }
}
