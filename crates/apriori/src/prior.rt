ghost use Rattle.std.specs.Prelude.{◌≡◌, List, length, replicate, IfOk};
ghost use Rattle.linked_tables.specs.declared.mark.Mark.{Mark};
ghost use Rattle.apriori.specs.Priors.{ArePriors};
ghost use Rattle.apriori.specs.Priors as spec;

use sdc_base::{Levels, Memory};
use std::alloc::Global;

/// What the office declares a cell to be, whatever the rules say.
#[derive(Clone, Copy, Debug, PartialEq, Eq)]
pub enum Status {
    /// It discloses a contributor, so it is primary.
    Unsafe,
    /// It discloses none, so no rule makes it primary.
    Safe,
}

/// What the office states of one cell beforehand.
#[derive(Clone, Copy, Debug, PartialEq, Eq)]
pub struct Prior {
    /// Whether the cell is declared unsafe or safe, where it is; only a cell with records is declared unsafe.
    pub status: Option<Status>,
    /// The table, from 0, and the line, from 1, of the first statement that the cell is always shown, where there is
    /// one.
    pub keep: Option<(u32, u32)>,
    /// What it costs to hide the cell, from 1 to `2^40`, where that is stated.
    pub price: Option<u64>,
    /// How far the cell must be open, in units, where that is stated: upwards from 1, downwards from 0, each at most
    /// `10^29`.
    pub levels: Option<Levels>,
    /// What an attacker knows that the cell is at least and at most, in units, where that is stated: from 0 to the
    /// truth, and from the truth to `10^29`.
    pub bounds: Option<(i128, i128)>,
}

/// So many priors that state nothing, one for each cell of a book.
///
/// `Memory` is the only refusal. The cost is that of the list. That nothing is stated by default is argus's own.
pub fn blank_priors(alloc: Global, cells: u32) -> Result<Vec<Prior>, Memory>
    ensures blank { IfOk result (λ priors. priors.items ≡ replicate cells spec.empty_prior) }
    ensures fit { IfOk result (λ priors. (marks : List Mark) → length marks ≡ cells → ArePriors marks priors.items) }
{
    let mut priors = Vec::new(alloc);
    'cells: for _ in 0..cells {
        priors.push(blank())?;
    }
    Ok(priors)
}

// Nothing is stated.
fn blank() -> Prior
    ensures { result ≡ spec.empty_prior }
{
    Prior {
        status: None,
        keep: None,
        price: None,
        levels: None,
        bounds: None,
    }
}
