// How the operand of an arm is scanned.
ghost use Rattle.std.specs.Prelude.{◌≡◌};
ghost use Rattle.fixup_scan.specs.Arms.{enough, early, fail_handed, visit_by};

use super::answer::Scanned;
use super::arm::Arm;
use fixup::context::FixupContext;
use precedence::Precedence;

#[derive(Clone, Copy, Debug, PartialEq, Eq)]
pub struct Visit {
    pub context: FixupContext,
    pub precedence: Precedence,
    pub fail_offset: u16,
    pub bailout_offset: u16,
}

// Binary and the prefix operators: whether the answer is Consume before the operand is scanned.
#[tactic(auto, unfolding(crate::specs::Arms::enough, laws::specs::Choice::pick))]
fn is_enough(next: Precedence, consumed: bool, fail_offset: u16, bailout_offset: u16) -> bool
    ensures { result ≡ enough next consumed fail_offset bailout_offset }
{
    match next {
        Precedence::Unambiguous => fail_offset >= 2 && (consumed || bailout_offset >= 1),
        _ => bailout_offset >= 1,
    }
}

#[tactic(auto, unfolding(crate::specs::Arms::fail_handed, laws::specs::Choice::pick))]
fn fail_handed(next: Precedence, fail_offset: u16) -> u16
    ensures { result ≡ fail_handed next fail_offset }
{
    match next {
        Precedence::Unambiguous => fail_offset,
        _ => 1,
    }
}

impl Arm {
    // Whether the answer is Consume before the operand is scanned.
    #[tactic(auto, unfolding(laws::specs::Choice::pick))]
    pub fn is_early(
        self,
        next: Precedence,
        consumed: bool,
        fail_offset: u16,
        bailout_offset: u16,
    ) -> bool
        ensures { result ≡ early self next consumed fail_offset bailout_offset }
    {
        match self {
            Arm::Assign => match next {
                Precedence::Unambiguous => fail_offset >= 2,
                _ => bailout_offset >= 1,
            },
            Arm::Binary(own) => {
                is_enough(next, consumed, fail_offset, bailout_offset)
                    || own == Precedence::Compare && next == Precedence::Compare
            }
            Arm::Prefix => is_enough(next, consumed, fail_offset, bailout_offset),
            Arm::Range => fail_offset >= 2,
            Arm::Break(label_lost) => bailout_offset >= 1 || label_lost,
            Arm::Return | Arm::Let => bailout_offset >= 1,
            Arm::Closure | Arm::Group | Arm::Closed => false,
        }
    }

    // The context, precedence and offsets of the operand, by those of the node.
    pub fn visit_of(self, here: Visit) -> Visit
        ensures { result ≡ visit_by self here.context here.precedence here.fail_offset here.bailout_offset }
    {
        let fixup = here.context;
        let next = fixup.next_operator;
        let scanned = Scanned {
            precedence: here.precedence,
            next,
        };
        match self {
            Arm::Assign => Visit {
                context: fixup.rightmost_subexpression_fixup(false, false, Precedence::Assign),
                precedence: Precedence::Assign,
                fail_offset: fail_handed(next, here.fail_offset),
                bailout_offset: 1,
            },
            Arm::Binary(own) => Visit {
                context: fixup.rightmost_subexpression_fixup(false, false, own),
                precedence: own,
                fail_offset: fail_handed(next, here.fail_offset),
                bailout_offset: u16::from(scanned.consumes()),
            },
            Arm::Prefix => Visit {
                context: fixup.rightmost_subexpression_fixup(false, false, Precedence::Prefix),
                fail_offset: fail_handed(next, here.fail_offset),
                bailout_offset: u16::from(scanned.consumes()),
                ..here
            },
            Arm::Range => Visit {
                context: fixup.rightmost_subexpression_fixup(false, true, Precedence::Range),
                precedence: Precedence::Range,
                bailout_offset: u16::from(!matches!(next, Precedence::Assign | Precedence::Range)),
                ..here
            },
            Arm::Break(_) => Visit {
                context: fixup.rightmost_subexpression_fixup(true, true, Precedence::Jump),
                precedence: Precedence::Jump,
                fail_offset: 1,
                bailout_offset: 1,
            },
            Arm::Return => Visit {
                context: fixup.rightmost_subexpression_fixup(true, false, Precedence::Jump),
                precedence: Precedence::Jump,
                fail_offset: 1,
                bailout_offset: 1,
            },
            Arm::Let => Visit {
                context: fixup.rightmost_subexpression_fixup(false, false, Precedence::Let),
                precedence: Precedence::Let,
                fail_offset: 1,
                bailout_offset: u16::from(next >= Precedence::Let),
            },
            Arm::Closure | Arm::Group | Arm::Closed => here,
        }
    }
}
