// Tests joined, and as numbers, by functions: the proof of a caller then has one fact for each.
#![tactic(auto)]

ghost use Rattle.std.specs.Prelude.{◌≡◌, not, ◌&&◌, ◌||◌, ◌≤◌};
ghost use Rattle.bools.specs.Bits.{bit_of};

pub fn both(a: bool, b: bool) -> bool
    ensures { result ≡ (a && b) }
{
    if a { b } else { false }
}

pub fn either(a: bool, b: bool) -> bool
    ensures { result ≡ (a || b) }
{
    if a { true } else { b }
}

pub fn and_not(a: bool, b: bool) -> bool
    ensures { result ≡ (a && not b) }
{
    if a { !b } else { false }
}

pub fn bit(yes: bool) -> u16
    ensures { (result ≡ bit_of yes) × (result ≤ 1) }
{
    if yes { 1 } else { 0 }
}
