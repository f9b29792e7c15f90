// Node tables: their cells and operands.
#![tactic(auto)]

pub mod columns; // columns.rt: where a number stands among a node's six, by name
pub mod form; // form.rt: the forms, one enum
pub mod forms; // forms.rt: the forms' numbers by name
pub mod offsets; // offsets.rt: the same places as distances from a node's first cell
pub mod question; // question.rt: questions that go down one side of a tree, and the one loop that asks them
pub mod refusal; // refusal.rt: the refusals, one enum
pub mod sizes; // sizes.rt: document 01's sizes by name
pub mod table; // table.rt: a node table, the six cells of a node, its form, and its operands, each present or absent
