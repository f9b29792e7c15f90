// Marks: what the pass over all nodes knows of a node when it comes to the node's owner. A mark is a kind and eight times
// the levels below; a kind is 1 for an expression, 2 for a type, 3 or 4 for a link whose item is an expression or a type.
// Numbers for speed, 0 for none: the pass asks for them at each node (docs/PERFORMANCE.md, 'Instructions').
ghost use Rattle.std.specs.Prelude.{◌≡◌, true, ◌≤◌, ◌<◌, length};
ghost use Rattle.tree_one_pass.specs.Marks.{Takes, Opens, Closes};

use super::rows::fits;

// In place of the mark of an operand that is misplaced, or that another owner has taken.
pub const TAKEN: u16 = 7;

// Whether a node with this row has numbers that are allowed, and a first operand that fits.
fn opens(row: u16, attributes: u16, detail: u16, one: u16) -> bool
    ensures { result ≡ true → Opens row attributes detail one }
{
    if row / 4 % 4 < attributes {
        return false;
    }
    if row / 1024 < detail {
        return false;
    }
    fits(row / 16 % 8, one % 8)
}

// The mark of a node with this row whose operands have these marks; 0 where the second does not fit, or there is no row.
fn mark_by(row: u16, one: u16, two: u16) -> u16
    requires { (one ≤ 40000) × (two ≤ 40000) }
    ensures { (result ≡ 0 → ⊥) → Closes row one two result }
{
    let kind = two % 8;
    let levels = one.max(two) / 8;
    if row % 4 == 3 {
        if fits(one % 4 + 4, kind) {
            return one % 8 + 2 + 8 * levels;
        }
        return 0;
    }
    if row % 4 == 0 {
        return 0;
    }
    if fits(row / 128 % 8, kind) {
        return row % 4 + 8 * (levels + 1);
    }
    0
}

// The mark of a node with this row, these numbers and operands of these marks; 0 where a rule is broken, or there is no row.
pub(crate) fn mark_with(row: u16, attributes: u16, detail: u16, one: u16, two: u16) -> u16
    requires { (one ≤ 40000) × (two ≤ 40000) }
    ensures { (result ≡ 0 → ⊥) → Opens row attributes detail one × Closes row one two result }
{
    if opens(row, attributes, detail, one) {
        return mark_by(row, one, two);
    }
    0
}

// The mark of an operand, which is 0 from then on; 0 for an operand that is absent. Nodes that have not been looked at have 0.
pub(crate) fn take(marks: &mut [u16], count: u16, operand: u16) -> u16
    requires { count < length marks.old }
    ensures { Takes count operand marks.old result marks.new }
{
    if operand == 0 {
        return 0;
    }
    if count < operand {
        return TAKEN;
    }
    let at = usize::from(operand);
    let mark = marks[at];
    if mark == 0 {
        return TAKEN;
    }
    marks[at] = 0;
    mark
}
