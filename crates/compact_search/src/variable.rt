// The variables of a table: the moves of its cells, and the slacks of its relations.
use crate::bounds::Bounds;

// Where a variable stands: nonbasic at 0 or at a bound, or basic, with a row of its own.
#[derive(Clone, Copy)]
pub(crate) enum State {
    Zero,
    Upper,
    Lower,
    Basic,
}

// A variable: its bounds, where it stands, the place of its row while it is basic, and whether it is left out.
#[derive(Clone, Copy)]
pub(crate) struct Variable {
    pub(crate) bounds: Bounds,
    pub(crate) state: State,
    pub(crate) row: usize,
    pub(crate) left_out: bool,
}

impl Variable {
    // Where it stands while it is nonbasic.
    pub(crate) fn stand(&self) -> i64 {
        match (self.state, self.bounds.most) {
            (State::Upper, Some(most)) => most,
            (State::Lower, _) => self.bounds.least,
            _ => 0,
        }
    }

    // Whether it is basic.
    pub(crate) fn is_basic(&self) -> bool {
        matches!(&self.state, State::Basic)
    }

    // Whether it may enter the basis by rising, or else by falling.
    pub(crate) fn may_enter(&self, rises: bool) -> bool {
        if self.left_out {
            return false;
        }
        match self.state {
            State::Zero => true,
            State::Upper => !rises,
            State::Lower => rises,
            State::Basic => false,
        }
    }
}
