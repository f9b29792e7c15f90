// What an owner hands to an operand in one number: its context packed, the rank of its precedence above that, and a bit where its owner groups it.
// It stays a number: the forms of it that were measured are in docs/PERFORMANCE.md, 'What an owner hands down, in one number'.
ghost use Rattle.std.specs.Prelude.{◌≡◌, eqb, ◌/◌, ◌%◌};
ghost use Rattle.tree.specs.Trees.{tree_at};
ghost use Rattle.fixup.specs.Fixup.{parenthesize};
ghost use Rattle.row_pack.specs.Packs.{unpacked_of};
ghost use Rattle.row.specs.Hands.{group_bit, hand_of, is_quiet};

use expr::Handed;
use row_pack::{packed, unpacked};
use tree::table::Table;

// The contexts that eighteen bits hold: the rank stands above them.
pub const CONTEXTS: u32 = 262_144;

// The bit of a group.
pub const GROUPED: u32 = 4_194_304;

// The weight of a context's flags, and the numbers that the seven of them have which parenthesize looks at, or an owner moves about.
const FLAGS: u32 = 256;

const SEVEN_FLAGS: u32 = 128;

#[tactic(auto, unfolding(crate::specs::Hands::hand_of, row_pack::specs::Packs::packed_of, bools::specs::Bits::bit_of))]
pub fn hand_of(handed: Handed) -> u32
    ensures { result ≡ hand_of handed }
{
    let fixup = handed.fixup;
    let previous = fixup.previous_operator;
    let next = fixup.next_operator;
    let precedence = handed.precedence;
    let context = packed(previous.rank(), next.rank(), row_pack::flags(fixup));
    context + CONTEXTS * u32::from(precedence.rank()) + GROUPED * u32::from(handed.needs_group)
}

// The owner's test.
pub(crate) fn is_grouped(hand: u32) -> bool
    ensures { result ≡ eqb (hand / group_bit % 2) 1 }
{
    hand / GROUPED % 2 == 1
}

// Whether a context that is packed has none of the seven.
pub fn is_quiet(context: u32) -> bool
    ensures { result ≡ is_quiet (unpacked_of context) }
{
    context / FLAGS % SEVEN_FLAGS == 0
}

// parenthesize in a context that is packed.
pub(crate) fn is_parenthesized(context: u32, table: &Table, node: u16) -> bool
    ensures { result ≡ parenthesize (unpacked_of context) (tree_at table.now.cells.now table.now.count node) }
{
    if is_quiet(context) {
        return false;
    }
    let fixup = unpacked(context);
    fixup.parenthesize(table, node)
}
