// prettyplease's fixup.rs: scan_right, and the precedences of left and right operands.
#![tactic(auto)]

mod answer; // answer.rt: when the next operator leaves an expression whole
mod arm; // arm.rt: the arms of scan_right, and the operand that each goes on with
mod visit; // visit.rt: how the operand of an arm is scanned
mod leave; // leave.rt: what follows from the operand's scan
pub mod right; // right.rt: scan_right and the precedences that ask it

#[derive(Clone, Copy, Debug, PartialEq, Eq)]
pub enum Scan {
    Fail,
    Bailout,
    Consume,
}
