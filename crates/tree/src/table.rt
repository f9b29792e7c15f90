// The cells of a node table: six numbers a node, form, attributes, detail, first, second and symbol.
ghost use Rattle.std.specs.Prelude.{◌≡◌, ◌&&◌, leb};
ghost use Rattle.tree.specs.Table.{cell_at, attributes_at, detail_at, symbol_at, first_column, second_column};
ghost use Rattle.tree.specs.Trees.{operand_of, operand_at};
ghost use Rattle.tree.specs.Operands.{presence, form_in};
ghost use Rattle.tree.specs.FormNumbers.{IsForm};

use crate::form::Form;
use crate::{columns, sizes};

// An operand of a node: its number, or nothing.
pub type Operand = Option<u16>;

// The number at a place of a node's six; 0 outside the cells.
#[tactic(auto, unfolding(crate::specs::Table::cell_at))]
pub fn cell(cells: &[u16], node: u16, place: u16) -> u16
    ensures { result ≡ cell_at cells.now node place }
{
    if node == 0 {
        return 0;
    }
    let at = sizes::NODE_CELLS * usize::from(node - 1) + usize::from(place);
    cells.get(at).copied().unwrap_or(0)
}

// A number as an operand of a node: 0 unless it is above the node's and at most the count.
#[tactic(auto, unfolding(crate::specs::Trees::operand_of, laws::specs::Choice::pick))]
pub fn operand_of(count: u16, node: u16, operand: u16) -> u16
    ensures { result ≡ operand_of count node operand }
{
    if operand <= node {
        return 0;
    }
    if operand <= count { operand } else { 0 }
}

// A lent node table, of so many nodes: any cells and any count make one. What is not there reads as 0.
#[derive(Clone, Copy, Debug)]
pub struct Table<'a> {
    pub cells: &'a [u16],
    pub count: u16,
}

impl<'a> Table<'a> {
    // Whether a number is a node's.
    fn has(&self, node: u16) -> bool
        ensures { result ≡ (leb 1 node && leb node self.now.count) }
    {
        node != 0 && node <= self.count
    }

    // The number at a place of a node's six.
    pub fn cell(&self, node: u16, place: u16) -> u16
        ensures { result ≡ cell_at self.now.cells.now node place }
    {
        cell(self.cells, node, place)
    }

    pub fn attributes(&self, node: u16) -> u16
        ensures { result ≡ attributes_at self.now.cells.now node }
    {
        self.cell(node, columns::ATTRIBUTES)
    }

    pub fn detail(&self, node: u16) -> u16
        ensures { result ≡ detail_at self.now.cells.now node }
    {
        self.cell(node, columns::DETAIL)
    }

    pub fn symbol(&self, node: u16) -> u16
        ensures { result ≡ symbol_at self.now.cells.now node }
    {
        self.cell(node, columns::SYMBOL)
    }

    // The number of a node's form; 0 where there is no such node.
    #[tactic(auto, unfolding(crate::specs::Operands::form_in, laws::specs::Choice::pick))]
    pub fn form_number(&self, node: u16) -> u16
        ensures { result ≡ form_in self.now.cells.now self.now.count node }
    {
        if !self.has(node) {
            return 0;
        }
        self.cell(node, columns::FORM)
    }

    // The form of a node; none where there is no such node, or its number is no form's.
    #[tactic(auto, unfolding(crate::specs::Operands::form_in, laws::specs::Choice::pick))]
    pub fn form(&self, node: u16) -> Option<Form>
        ensures { IsForm self.now.cells.now self.now.count node result }
    {
        if !self.has(node) {
            return None;
        }
        Form::try_from(self.form_number(node)).ok()
    }

    // The number of the operand at a place; 0 where it is absent.
    pub fn operand_number(&self, node: u16, place: u16) -> u16
        ensures { result ≡ operand_at self.now.cells.now self.now.count node place }
    {
        operand_of(self.count, node, self.cell(node, place))
    }

    // The operand at a place: present where its number is above the node's and at most the count.
    #[tactic(auto, unfolding(crate::specs::Operands::presence))]
    pub fn operand(&self, node: u16, place: u16) -> Operand
        ensures { result ≡ presence (operand_at self.now.cells.now self.now.count node place) }
    {
        match self.operand_number(node, place) {
            0 => None,
            number => Some(number),
        }
    }

    pub fn first(&self, node: u16) -> Operand
        ensures { result ≡ presence (operand_at self.now.cells.now self.now.count node first_column) }
    {
        self.operand(node, columns::FIRST)
    }

    pub fn second(&self, node: u16) -> Operand
        ensures { result ≡ presence (operand_at self.now.cells.now self.now.count node second_column) }
    {
        self.operand(node, columns::SECOND)
    }
}
