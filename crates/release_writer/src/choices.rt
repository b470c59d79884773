ghost use Rattle.std.specs.Prelude.{◌≡◌, ◌≤◌, ◌<◌, length, take, drop, All, IfOk, option_map, pos, ◌≤ℤ◌};
ghost use Rattle.std.specs.List.{before_first};
ghost use Rattle.std.specs.Option.{ForSome};
ghost use Rattle.sdc_base.specs.Lines.{is_line_feed};
ghost use Rattle.release_writer.specs.LineChoices as spec;
ghost use Rattle.release_writer.specs.Sheets.{form_of, fit_of, IsFromZero, IsTableLayout};

use crate::lines::write_place;
use crate::numbers::value_text;
use crate::sheet::{LineMatch, TableLayout};
use crate::tables::bytes_of;
use csv::WriterBuilder;
use linked_tables::Mark;
use plain_text::{cut_at, read_units};
use sdc_base::Memory;
use std::alloc::Global;

/// What the cell of a place shows, by the line with which these bytes begin: what is known of it, or else a choice that
/// the line gives.
pub(crate) fn value_there<'a>(
    alloc: Global,
    sheet: &TableLayout<'_>,
    place: &[u32],
    bytes: &'a [u8],
    cell: u32,
    known: Option<Option<i128>>,
) -> Result<Option<LineMatch<'a>>, Memory>
    requires sheet { IsTableLayout sheet.now }
    requires code_for_each_variable { length place.now ≡ length sheet.now.table.now }
    requires known { ForSome known IsFromZero }
    ensures fit { IfOk result (λ fit. fit_of fit ≡ spec.value_there (form_of sheet.now) place.now bytes.now cell known) }
    ensures from_zero { IfOk result (λ fit. ForSome fit (λ fit. IsFromZero fit.value)) }
{
    match known {
        Some(value) => choice_there(alloc, sheet, place, bytes, value),
        None => new_value(alloc, sheet, place, bytes, cell),
    }
}

// What a cell shows that no earlier line shows.
fn new_value<'a>(
    alloc: Global,
    sheet: &TableLayout<'_>,
    place: &[u32],
    bytes: &'a [u8],
    cell: u32,
) -> Result<Option<LineMatch<'a>>, Memory>
    requires sheet { IsTableLayout sheet.now }
    requires code_for_each_variable { length place.now ≡ length sheet.now.table.now }
    ensures fit { IfOk result (λ fit. fit_of fit ≡ spec.new_value (form_of sheet.now) place.now bytes.now cell) }
    ensures from_zero { IfOk result (λ fit. ForSome fit (λ fit. IsFromZero fit.value)) }
{
    if sheet.rounded {
        return rounded_value(alloc, sheet, place, bytes);
    }
    let truth = truth_of(sheet.book.marks(), cell as usize);
    match choice_there(alloc, sheet, place, bytes, truth)? {
        Some(fit) => Ok(Some(fit)),
        None => choice_there(alloc, sheet, place, bytes, None),
    }
}

// The number that a cell shows.
fn rounded_value<'a>(
    alloc: Global,
    sheet: &TableLayout<'_>,
    place: &[u32],
    bytes: &'a [u8],
) -> Result<Option<LineMatch<'a>>, Memory>
    requires sheet { IsTableLayout sheet.now }
    requires code_for_each_variable { length place.now ≡ length sheet.now.table.now }
    ensures fit { IfOk result (λ fit. fit_of fit ≡ spec.rounded_value (form_of sheet.now) place.now bytes.now) }
    ensures from_zero { IfOk result (λ fit. ForSome fit (λ fit. IsFromZero fit.value)) }
{
    match number_there(alloc, sheet, place, bytes)? {
        Some(number) => choice_there(alloc, sheet, place, bytes, Some(number)),
        None => Ok(None),
    }
}

// A choice for the cell of a place, where the bytes begin with the line that shows it.
fn choice_there<'a>(
    alloc: Global,
    sheet: &TableLayout<'_>,
    place: &[u32],
    bytes: &'a [u8],
    value: Option<i128>,
) -> Result<Option<LineMatch<'a>>, Memory>
    requires sheet { IsTableLayout sheet.now }
    requires code_for_each_variable { length place.now ≡ length sheet.now.table.now }
    requires from_zero { IsFromZero value }
    ensures fit { IfOk result (λ fit. fit_of fit ≡ spec.choice_there (form_of sheet.now) place.now bytes.now value) }
    ensures from_zero { IfOk result (λ fit. ForSome fit (λ fit. IsFromZero fit.value)) }
{
    let line = line_showing(alloc, sheet, place, value)?;
    Ok(fit_behind(line.as_slice(), bytes, value))
}

// A value, where the bytes begin with its line.
fn fit_behind<'a>(line: &[u8], bytes: &'a [u8], value: Option<i128>) -> Option<LineMatch<'a>>
    requires from_zero { IsFromZero value }
    ensures fit { fit_of result ≡ option_map (λ rest. (value, rest)) (spec.rest_behind line.now bytes.now) }
    ensures from_zero { ForSome result (λ fit. IsFromZero fit.value) }
{
    let rest = rest_behind(line, bytes)?;
    Some(LineMatch { value, rest })
}

/// What is left of bytes behind a line with which they begin.
pub(crate) fn rest_behind<'a>(line: &[u8], bytes: &'a [u8]) -> Option<&'a [u8]>
    ensures { option_map (λ rest. rest.now) result ≡ spec.rest_behind line.now bytes.now }
{
    bytes.strip_prefix(line)
}

// The line of a place whose cell shows this.
fn line_showing(
    alloc: Global,
    sheet: &TableLayout<'_>,
    place: &[u32],
    value: Option<i128>,
) -> Result<Vec<u8>, Memory>
    requires sheet { IsTableLayout sheet.now }
    requires code_for_each_variable { length place.now ≡ length sheet.now.table.now }
    requires from_zero { IsFromZero value }
    ensures line { IfOk result (λ line. line.items ≡ spec.line_showing (form_of sheet.now) place.now value) }
{
    // for the proof: a table spans at most eight variables
    let few = sheet.table.len() <= 8;
    prove!(few);
    let number = value_text(alloc, sheet.decimals, value)?;
    let mut writer = WriterBuilder::new().from_writer(Vec::new(alloc));
    write_place(
        &mut writer,
        sheet.book,
        sheet.table.as_slice(),
        place,
        number.as_slice(),
    )?;
    bytes_of(writer)
}

// The number whose text stands where the line of a hidden cell has its `x`.
fn number_there(
    alloc: Global,
    sheet: &TableLayout<'_>,
    place: &[u32],
    bytes: &[u8],
) -> Result<Option<i128>, Memory>
    requires sheet { IsTableLayout sheet.now }
    requires code_for_each_variable { length place.now ≡ length sheet.now.table.now }
    ensures number { IfOk result (λ number. number ≡ spec.number_there (form_of sheet.now) place.now bytes.now) }
    ensures from_zero { IfOk result IsFromZero }
{
    let crossed = line_showing(alloc, sheet, place, None)?;
    Ok(number_behind(crossed.len(), bytes, sheet.decimals))
}

// The number that begins where the last two bytes of a line of this length begin.
fn number_behind(length: usize, bytes: &[u8], decimals: u8) -> Option<i128>
    requires decimals { decimals ≤ 13 }
    ensures number { result ≡ spec.number_behind length bytes.now decimals }
    ensures from_zero { IsFromZero result }
{
    match read_units(
        up_to_feed(window(bytes, length.saturating_sub(2))),
        decimals,
    ) {
        Ok(number) => Some(number),
        Err(_) => None,
    }
}

// The next 60 bytes from a place on.
fn window(bytes: &[u8], from: usize) -> &[u8]
    ensures bytes { result.now ≡ take 60 (drop from bytes.now) }
    ensures at_most_60 { length result.now ≤ 60 }
{
    at_most(behind_place(bytes, from), 60)
}

// The bytes from a place on.
fn behind_place(bytes: &[u8], from: usize) -> &[u8]
    ensures { result.now ≡ drop from bytes.now }
{
    if from >= bytes.len() {
        return &[];
    }
    &bytes[from..]
}

// So many bytes, or all where there are fewer.
fn at_most(bytes: &[u8], most: usize) -> &[u8]
    ensures bytes { result.now ≡ take most bytes.now }
    ensures at_most { length result.now ≤ most }
{
    if bytes.len() <= most {
        return bytes;
    }
    &bytes[..most]
}

// What stands before the first LF.
fn up_to_feed(bytes: &[u8]) -> &[u8]
    ensures bytes { result.now ≡ before_first is_line_feed bytes.now }
    ensures no_longer { length result.now ≤ length bytes.now }
{
    let (front, _) = cut_at(b'\n', bytes);
    front
}

// The truth of a cell.
fn truth_of(marks: &[Mark], cell: usize) -> Option<i128>
    requires from_zero { All (λ mark. pos 0 ≤ℤ mark.facts.truth) marks.now }
    ensures truth { result ≡ spec.truth_of marks.now cell }
    ensures from_zero { IsFromZero result }
{
    let mark = marks.get(cell)?;
    Some(mark.facts.truth)
}
