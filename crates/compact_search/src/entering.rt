// Which nonbasic variable enters the basis.
use crate::entry::Entry;
use crate::table::Table;

// A nonbasic variable that is to rise, or else to fall.
#[derive(Clone, Copy)]
pub(crate) struct Entering {
    pub(crate) variable: usize,
    pub(crate) rises: bool,
}

// How much an entry of the objective speaks for its variable: by whether the variable's bounds lie apart, and then by the
// size of its number.
#[derive(Clone, Copy)]
struct Pull {
    has_room: bool,
    size: u64,
}

// The variable with the strongest pull of those that may move so that the objective grows; none where the table is
// blocked.
pub(crate) fn best_entering(table: &Table) -> Option<Entering> {
    let mut best = None;
    let mut strongest = Pull {
        has_room: false,
        size: 0,
    };
    for entry in &table.objective.entries {
        let pull = pull_of(table, *entry);
        let rises = entry.number > 0;
        if is_stronger(pull, strongest) && may_enter(table, entry.variable, rises) {
            strongest = pull;
            best = Some(Entering {
                variable: entry.variable,
                rises,
            });
        }
    }
    best
}

// How much an entry pulls.
fn pull_of(table: &Table, entry: Entry) -> Pull {
    let has_room = match table.variables.get(entry.variable) {
        Some(one) => one.bounds.lie_apart(),
        None => false,
    };
    Pull {
        has_room,
        size: entry.number.unsigned_abs(),
    }
}

// Whether a pull is stronger than another.
fn is_stronger(one: Pull, other: Pull) -> bool {
    if one.has_room == other.has_room {
        one.size > other.size
    } else {
        one.has_room
    }
}

// Whether a variable may enter by rising, or else by falling.
fn may_enter(table: &Table, variable: usize, rises: bool) -> bool {
    match table.variables.get(variable) {
        Some(one) => one.may_enter(rises),
        None => false,
    }
}
