ghost use Rattle.std.specs.Prelude.{◌≡◌, ◌≤◌, ◌<◌, [], true, length, slice_get, slice_index_or, All, IfOk, pos, ◌≤ℤ◌};
ghost use Rattle.std.specs.Option.{ForSome};
ghost use Rattle.sdc_base.specs.TableText.{shown_text};
ghost use Rattle.linked_tables.specs.BookCells.{name_in_table, is_in};
ghost use Rattle.release_writer.specs.Sheets.{IsFromZero};
ghost use Rattle.release_writer.specs.ShownCells.{CanBeShown, open_truth, shown_in, number_shown};

use crate::shown::Shown;
use linked_tables::{Book, Mark};
use plain_text::print_units;
use sdc_base::{Memory, Text, is_hidden};
use std::alloc::Global;

/// The text of what the cell at a place of a table shows.
pub(crate) fn number_text(
    alloc: Global,
    book: &Book,
    t: u32,
    place: &[u32],
    decimals: u8,
    shown: Shown<'_>,
) -> Result<Text, Memory>
    requires table { t < length book.now.tables }
    requires place { is_in book.now (slice_index_or book.now.tables t []) place.now ≡ true }
    requires decimals { decimals ≤ 13 }
    requires shown { CanBeShown book.now shown }
    ensures text { IfOk result (λ text. text
        ≡ shown_text decimals (number_shown book.now shown.entry
        (name_in_table book.now (slice_index_or book.now.tables t []) place.now))) }
{
    value_text(alloc, decimals, shown_at(book, t, place, shown))
}

/// The text of what a cell shows, with `x` for nothing.
pub(crate) fn value_text(alloc: Global, decimals: u8, value: Option<i128>) -> Result<Text, Memory>
    requires decimals { decimals ≤ 13 }
    requires from_zero { IsFromZero value }
    ensures text { IfOk result (λ text. text ≡ shown_text decimals value) }
{
    match value {
        Some(number) => print_units(alloc, number, decimals),
        None => Ok(Text::from_slice(alloc, b"x")?),
    }
}

// What the cell at a place of a table shows.
fn shown_at(book: &Book, t: u32, place: &[u32], shown: Shown<'_>) -> Option<i128>
    requires table { t < length book.now.tables }
    requires place { is_in book.now (slice_index_or book.now.tables t []) place.now ≡ true }
    requires shown { CanBeShown book.now shown }
    ensures from_zero { ForSome result (λ number. pos 0 ≤ℤ number) }
    ensures value { result ≡ number_shown book.now shown.entry
        (name_in_table book.now (slice_index_or book.now.tables t []) place.now) }
{
    let cell = book.id(t, place)?;
    shown_of(book, cell, shown)
}

// What a cell shows.
fn shown_of(book: &Book, cell: u32, shown: Shown<'_>) -> Option<i128>
    requires shown { CanBeShown book.now shown }
    ensures from_zero { ForSome result (λ number. pos 0 ≤ℤ number) }
    ensures value { result ≡ shown_in book.now shown.entry cell }
{
    match shown {
        Shown::Hidden(hidden) => truth_of(book.marks(), hidden.flags.as_slice(), cell as usize),
        Shown::Rounded(numbers) => number_at(numbers, cell as usize),
    }
}

// The number at a place.
fn number_at(numbers: &[i128], cell: usize) -> Option<i128>
    requires from_zero { All (λ number. pos 0 ≤ℤ number) numbers.now }
    ensures from_zero { ForSome result (λ number. pos 0 ≤ℤ number) }
    ensures value { result ≡ slice_get numbers.now cell }
{
    let number = numbers.get(cell)?;
    Some(*number)
}

// The truth of a cell, unless it is hidden.
fn truth_of(marks: &[Mark], flags: &[bool], cell: usize) -> Option<i128>
    requires from_zero { All (λ mark. pos 0 ≤ℤ mark.facts.truth) marks.now }
    ensures from_zero { ForSome result (λ number. pos 0 ≤ℤ number) }
    ensures value { result ≡ open_truth marks.now flags.now cell }
{
    if is_hidden(flags, cell) {
        return None;
    }
    let mark = marks.get(cell)?;
    Some(mark.facts.truth)
}
