// Which cells a question may move.
use sdc_base::{Cell, is_hidden};
use worlds::Pattern;

// Those that a pattern hides; where a last cell is given, of the free ones only those up to it.
#[derive(Clone, Copy)]
pub(crate) struct Scope<'a> {
    flags: &'a [bool],
    cells: &'a [Cell],
    last: Option<u32>,
}

impl<'a> Scope<'a> {
    // All that a pattern hides.
    pub(crate) fn of(pattern: &'a Pattern<'a>) -> Scope<'a> {
        Scope {
            flags: pattern.hidden.flags.as_slice(),
            cells: pattern.cells,
            last: None,
        }
    }

    // The same without the free cells beyond this one.
    pub(crate) fn up_to(self, last: u32) -> Scope<'a> {
        Scope {
            flags: self.flags,
            cells: self.cells,
            last: Some(last),
        }
    }

    // Whether a cell is within.
    pub(crate) fn has(self, cell: u32) -> bool {
        is_hidden(self.flags, cell as usize) && !self.is_beyond(cell)
    }

    // Whether a cell is a free one beyond the last.
    fn is_beyond(self, cell: u32) -> bool {
        match (self.last, self.cells.get(cell as usize)) {
            (Some(last), Some(one)) => cell > last && one.kind.is_free(),
            _ => false,
        }
    }
}
