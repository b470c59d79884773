ghost use Rattle.std.specs.Prelude.{◌≡◌, ◌++◌, ◌∷◌, [], length, OnOk};
ghost use Rattle.microdata.specs.KeptRows.{kept_of, kept_rows};

use sdc_base::{Memory, Row};
use std::alloc::Global;
use std::marker::Model;

/// The rows of the records so far, each with the numbers of its codes where their places will stand, and beside each
/// row the number of its record, from 1. Contracts see a list of what is kept of each record.
#[derive(Drop)]
pub(crate) struct KeptRows {
    numbers: Vec<u32>,
    rows: Vec<Row>,
}

impl Model for KeptRows {
    ghost use Rattle.std.specs.Prelude.{◌≡◌, List, length};
    ghost use Rattle.microdata.specs.KeptRows.{KeptRow, kept_rows};

    ghost Value = { List KeptRow };

    ghost view = { λ s. kept_rows s.numbers.items s.rows.items };

    ghost invariant = { λ s. length s.numbers.items ≡ length s.rows.items };
}

impl KeptRows {
    /// Before the first record.
    pub(crate) fn empty(alloc: Global) -> KeptRows
        ensures { result ≡ [] }
    {
        KeptRows {
            numbers: Vec::new(alloc),
            rows: Vec::new(alloc),
        }
    }

    /// One row more, of the record with this number. Without memory there are as many numbers as rows, as before.
    pub(crate) fn push(&mut self, number: u32, row: Row) -> Result<(), Memory>
        ensures { OnOk result (self.new ≡ self.old ++ kept_of number row ∷ []) }
    {
        self.numbers.push(number)?;
        match self.rows.push(row) {
            Ok(()) => Ok(()),
            Err(_) => {
                self.numbers.truncate(self.rows.len());
                Err(Memory)
            }
        }
    }

    /// The numbers of the records, and their rows.
    pub(crate) fn into_parts(self) -> (Vec<u32>, Vec<Row>)
        ensures same { self ≡ kept_rows result.0.items result.1.items }
        ensures as_many { length result.0.items ≡ length result.1.items }
    {
        (self.numbers, self.rows)
    }
}
