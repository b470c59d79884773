ghost use Rattle.std.specs.Prelude.{◌≢◌, ◌≤ℤ◌, pos};
ghost use Rattle.std.specs.Option.{ForSome};
ghost use Rattle.sdc_base.specs.declared.cell.Kind.TheVariants.{Primary};

use sdc_base::{Cell, Kind};

/// A cell of a kind, of which nothing is known but that it is from 0; a primary one with this level to both sides, as
/// far as its truth allows.
pub fn cell_of(truth: u32, kind: Kind, level: u8) -> Cell {
    let truth = i128::from(truth);
    match kind {
        Kind::Primary => {
            let down = truth.min(i128::from(level));
            primary_cell(truth, i128::from(level.max(1)), down)
        }
        Kind::Free => shown_cell(truth, 0, None, Kind::Free),
        Kind::Fixed => shown_cell(truth, 0, None, Kind::Fixed),
    }
}

// A primary cell with these levels.
fn primary_cell(truth: i128, up: i128, down: i128) -> Cell
    requires up { pos 1 ≤ℤ up }
    requires down { pos 0 ≤ℤ down }
    requires within { down ≤ℤ truth }
{
    Cell {
        truth,
        low: 0,
        high: None,
        up,
        down,
        kind: Kind::Primary,
        price: None,
    }
}

/// A cell that isn't primary, with bounds that its truth is within.
pub fn shown_cell(truth: i128, low: i128, high: Option<i128>, kind: Kind) -> Cell
    requires low { pos 0 ≤ℤ low }
    requires within { low ≤ℤ truth }
    requires high { ForSome high (λ bound. truth ≤ℤ bound) }
    requires kind { kind ≢ Primary }
{
    Cell {
        truth,
        low,
        high,
        up: 0,
        down: 0,
        kind,
        price: None,
    }
}

/// A free cell of a truth between its bounds; none where it is outside of them.
pub fn cell_within(truth: i128, low: i128, high: Option<i128>) -> Option<Cell> {
    if low < 0 || truth < low {
        return None;
    }
    match high {
        Some(high) if high < truth => None,
        Some(high) => Some(shown_cell(truth, low, Some(high), Kind::Free)),
        None => Some(shown_cell(truth, low, None, Kind::Free)),
    }
}

/// A free cell of 50 that is known to be from 48 to 52.
pub fn bounded_cell() -> Cell {
    shown_cell(50, 48, Some(52), Kind::Free)
}
