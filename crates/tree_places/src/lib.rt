// What may stand at the two places of a node, and whether its operands fit them.
#![tactic(auto)]

mod place; // place.rt: the places of each form, and whether an operand does not fit one

ghost use Rattle.std.specs.Prelude.{◌≡◌};
ghost use Rattle.tree_source.specs.Source.{cells_of};
ghost use Rattle.tree_places.specs.Places.{wrong_operands};

use place::{first_place, is_wrong, second_place};
use tree_source::{Node, Source};

// Whether an operand of a node with these numbers is absent where required, present where forbidden, or of the wrong class (7).
pub fn has_bad_operands(source: &Source, count: u16, numbers: Node) -> bool
    ensures { result ≡ wrong_operands (cells_of source.now.file.now source.now.held.now) count numbers.form numbers.detail numbers.first numbers.second }
{
    let first = first_place(numbers.form, numbers.detail);
    if is_wrong(source, count, numbers.first, first, numbers.first) {
        return true;
    }
    let second = second_place(numbers.form, numbers.detail);
    is_wrong(source, count, numbers.first, second, numbers.second)
}
