// The compact table of a component.
use crate::entry::Entry;
use crate::row::Row;
use crate::variable::{State, Variable};

// What becomes of a slack that leaves the basis: it stays as a nonbasic variable, whose numbers give multipliers, or it
// goes for good, since it may stand nowhere but at 0.
#[derive(Clone, Copy)]
pub(crate) enum Slacks {
    Stay,
    Go,
}

// A row for each basic variable, the objective as one more row, and all variables: first the cells, then the slacks.
#[derive(Drop)]
pub(crate) struct Table {
    pub(crate) rows: Vec<Row>,
    pub(crate) objective: Row,
    pub(crate) variables: Vec<Variable>,
    // How many of the variables are cells.
    pub(crate) cells: usize,
    // What becomes of a slack that leaves the basis.
    pub(crate) slacks: Slacks,
    // Where a list of numbers is made, with room for one at each variable.
    pub(crate) made: Vec<Entry>,
}

impl Table {
    // A copy of a variable.
    pub(crate) fn variable(&self, variable: usize) -> Option<Variable> {
        Some(*self.variables.get(variable)?)
    }

    // Whether a variable that leaves the basis goes for good.
    pub(crate) fn goes(&self, variable: usize) -> bool {
        matches!(&self.slacks, Slacks::Go) && variable >= self.cells
    }

    // Puts where a nonbasic variable stands.
    pub(crate) fn put_state(&mut self, variable: usize, state: State) -> Option<()> {
        let one = self.variables.get_mut(variable)?;
        one.state = state;
        Some(())
    }

    // Makes a variable the basic one of a row.
    pub(crate) fn put_basic(&mut self, variable: usize, row: usize) -> Option<()> {
        let one = self.variables.get_mut(variable)?;
        one.state = State::Basic;
        one.row = row;
        Some(())
    }
}
