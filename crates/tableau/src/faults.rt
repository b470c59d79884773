ghost use Rattle.std.specs.Prelude.{◌≡◌, ℕ, ◌<◌, ◌≤◌};
ghost use Rattle.tableau.specs.FaultPlaces.{IsFaultAt};

// Why a row was not made: for want of memory, or because a number that is needed at a place of it is wide.
#[derive(Clone, Copy, Debug, PartialEq, Eq)]
pub(crate) enum RowFault {
    Memory,
    Wide(usize),
}

// Why an exchange was not made: for want of memory, or because a number that is needed at a row and a place of it is
// wide.
#[derive(Clone, Copy, Debug, PartialEq, Eq)]
pub(crate) enum ExchangeFault {
    Memory,
    Wide(usize, usize),
}

// A fault of a row as one of the exchange; the place behind the value's, where the row's own den stands, counts as the
// pivot's.
pub(crate) fn at_place(
    k: usize,
    row: usize,
    column: usize,
    last: usize,
    fault: RowFault,
) -> ExchangeFault
    ensures { (i j : ℕ) → result ≡ ExchangeFault.Wide i j → IsFaultAt k row column last fault i j }
{
    match fault {
        RowFault::Memory => ExchangeFault::Memory,
        RowFault::Wide(j) => {
            if j > last {
                return ExchangeFault::Wide(row, column);
            }
            ExchangeFault::Wide(k, j)
        }
    }
}
