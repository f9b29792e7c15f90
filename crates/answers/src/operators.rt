// The operators: the level of each, and which way it leans.
ghost use Rattle.std.specs.Prelude.{◌≡◌};
ghost use Rattle.answers.specs.Bindings.{in_one_number, binding_number};

use precedence::Binding;

// 0 to 27 are the operators of Binary, 28 is `=`, and this is Range's.
const LAST_OPERATOR: u16 = 29;

// The answer for any other number.
const NO_OPERATOR: u16 = 65535;

// An answer is the level times this, and the lean.
const LEVEL_UNIT: u16 = 4;

fn in_one_number(operator: Binding) -> u16
    ensures { result ≡ in_one_number operator }
{
    let level = operator.level;
    let lean = operator.lean;
    LEVEL_UNIT * level.rank() + lean.number()
}

// Binding::of.
#[unsafe(no_mangle)]
pub extern "C" fn tezhukor_binding(operator: u16) -> u16
    ensures { result ≡ binding_number operator }
{
    if operator > LAST_OPERATOR {
        return NO_OPERATOR;
    }
    in_one_number(Binding::of(operator))
}
