ghost use Rattle.std.specs.Prelude.{◌≡◌, length, IfOk};

use crate::lists::place;
use sdc_base::Row;
use std::alloc::{AllocError, Global};

/// A record: its place in each tree, its value, and its weight in steps.
pub type Record<'a> = (&'a [u32], i64, u32);

/// The rows of these records.
pub fn rows(alloc: Global, records: &[Record<'_>]) -> Result<Vec<Row>, AllocError>
    ensures { IfOk result (λ rows. length rows.items ≡ length records.now) }
{
    let mut rows = Vec::new(alloc);
    'records: for (codes, value, weight) in records {
        rows.push(Row {
            codes: place(codes),
            value: *value,
            weight: *weight,
        })?;
    }
    Ok(rows)
}

/// Thirteen records over three variables of two codes each. Over the first two they make the table 20, 50, 30, 40.
pub fn thirteen() -> [Record<'static>; 13] {
    [
        (&[1, 1, 1], 10, 1),
        (&[1, 1, 2], 10, 1),
        (&[1, 2, 1], 10, 1),
        (&[1, 2, 1], 10, 1),
        (&[1, 2, 2], 10, 1),
        (&[1, 2, 2], 20, 1),
        (&[2, 1, 1], 5, 1),
        (&[2, 1, 1], 5, 1),
        (&[2, 1, 2], 10, 1),
        (&[2, 1, 2], 10, 1),
        (&[2, 2, 1], 15, 1),
        (&[2, 2, 2], 10, 1),
        (&[2, 2, 2], 15, 1),
    ]
}
