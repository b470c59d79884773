// How far a variable may move.
use sdc_base::Cell;

// The least move, 0 or below, and the greatest, 0 or above; no greatest where nothing bounds it.
#[derive(Clone, Copy)]
pub(crate) struct Bounds {
    pub(crate) least: i64,
    pub(crate) most: Option<i64>,
}

impl Bounds {
    // Those of a relation's slack, which stays.
    pub(crate) fn still() -> Bounds {
        Bounds {
            least: 0,
            most: Some(0),
        }
    }

    // Whether they leave more than one place to stand.
    pub(crate) fn lie_apart(&self) -> bool {
        self.most != Some(self.least)
    }
}

// A cell's bounds; none where a number leaves 64 bits.
pub(crate) fn bounds_of(cell: &Cell) -> Option<Bounds> {
    let least = i64::try_from(cell.low.checked_sub(cell.truth)?).ok()?;
    let most = match cell.high {
        Some(high) => Some(i64::try_from(high.checked_sub(cell.truth)?).ok()?),
        None => None,
    };
    Some(Bounds { least, most })
}
