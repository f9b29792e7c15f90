// A context in three cells: the ranks of its two precedences, and its ten flags as bits of one number.
#![tactic(auto)]

ghost use Rattle.std.specs.Prelude.{◌≡◌};
ghost use Rattle.row_pack.specs.Cells.{flags_of};
ghost use Rattle.row_pack.specs.FromCells.{of_rank, context_of};
ghost use Rattle.row_pack.specs.Packs.{packed_cells, unpacked_of};

use bools::bit;
use fixup::context::FixupContext;
use precedence::Precedence;

// The ten flags, bit 0 up in source order. `bit` says that it is at most 1: of u16::from the sum's bounds stay open.
#[tactic(auto, unfolding(crate::specs::Cells::flags_of, crate::specs::Cells::of_bits))]
pub fn flags(fixup: FixupContext) -> u16
    ensures { result ≡ flags_of fixup }
{
    bit(fixup.stmt)
        + 2 * bit(fixup.leftmost_subexpression_in_stmt)
        + 4 * bit(fixup.match_arm)
        + 8 * bit(fixup.leftmost_subexpression_in_match_arm)
        + 16 * bit(fixup.condition)
        + 32 * bit(fixup.rightmost_subexpression_in_condition)
        + 64 * bit(fixup.leftmost_subexpression_in_optional_operand)
        + 128 * bit(fixup.next_operator_can_begin_expr)
        + 256 * bit(fixup.next_operator_can_continue_expr)
        + 512 * bit(fixup.next_operator_can_begin_generics)
}

// The precedence with a rank; Jump for a number that is none.
#[tactic(auto, unfolding(crate::specs::FromCells::of_rank, crate::specs::FromCells::ranks, laws::specs::Choice::lookup, laws::specs::Choice::pick))]
pub fn precedence_of(rank: u16) -> Precedence
    ensures { result ≡ of_rank rank }
{
    match rank {
        1 => Precedence::Assign,
        2 => Precedence::Range,
        3 => Precedence::Or,
        4 => Precedence::And,
        5 => Precedence::Let,
        6 => Precedence::Compare,
        7 => Precedence::BitOr,
        8 => Precedence::BitXor,
        9 => Precedence::BitAnd,
        10 => Precedence::Shift,
        11 => Precedence::Sum,
        12 => Precedence::Product,
        13 => Precedence::Cast,
        14 => Precedence::Prefix,
        15 => Precedence::Unambiguous,
        _ => Precedence::Jump,
    }
}

// The context that three cells hold.
#[tactic(auto, unfolding(crate::specs::FromCells::context_of))]
pub fn context_of(previous: u16, next: u16, flags: u16) -> FixupContext
    ensures { result ≡ context_of previous next flags }
{
    let previous_operator = precedence_of(previous);
    let next_operator = precedence_of(next);
    FixupContext {
        previous_operator,
        next_operator,
        stmt: flags % 2 == 1,
        leftmost_subexpression_in_stmt: flags / 2 % 2 == 1,
        match_arm: flags / 4 % 2 == 1,
        leftmost_subexpression_in_match_arm: flags / 8 % 2 == 1,
        condition: flags / 16 % 2 == 1,
        rightmost_subexpression_in_condition: flags / 32 % 2 == 1,
        leftmost_subexpression_in_optional_operand: flags / 64 % 2 == 1,
        next_operator_can_begin_expr: flags / 128 % 2 == 1,
        next_operator_can_continue_expr: flags / 256 % 2 == 1,
        next_operator_can_begin_generics: flags / 512 % 2 == 1,
    }
}

// The three cells of a context in one number.
pub fn packed(previous: u16, next: u16, flags: u16) -> u32
    ensures { result ≡ packed_cells previous next flags }
{
    u32::from(previous) + 16 * u32::from(next) + 256 * u32::from(flags)
}

// The context that such a number holds.
#[tactic(auto, unfolding(crate::specs::Packs::unpacked_of))]
pub fn unpacked(number: u32) -> FixupContext
    ensures { result ≡ unpacked_of number }
{
    context_of(
        (number % 16) as u16,
        (number / 16 % 16) as u16,
        (number / 256 % 1024) as u16,
    )
}
