// Lists of numbers at variables, ascending by their variables.

// The number at a variable.
#[derive(Clone, Copy)]
pub(crate) struct Entry {
    pub(crate) variable: usize,
    pub(crate) number: i64,
}

impl Entry {
    // One that says nothing.
    pub(crate) fn none() -> Entry {
        Entry {
            variable: 0,
            number: 0,
        }
    }
}

// No list has so many entries that it can be halved more often.
const MOST_HALVINGS: u32 = 64;

// The number at a variable, 0 where there is none.
pub(crate) fn number_at(entries: &[Entry], variable: usize) -> i64 {
    let mut from = 0;
    let mut to = entries.len();
    'halvings: for _ in 0..MOST_HALVINGS {
        let middle = middle_of(from, to);
        let Some(entry) = entries.get(middle) else {
            return 0;
        };
        if entry.variable == variable {
            return entry.number;
        }
        if from >= to {
            return 0;
        }
        if entry.variable < variable {
            from = middle.saturating_add(1);
        } else {
            to = middle;
        }
    }
    0
}

// The place in the middle of two places.
fn middle_of(from: usize, to: usize) -> usize {
    from.saturating_add(to.saturating_sub(from) / 2)
}
