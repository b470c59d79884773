ghost use Rattle.std.specs.Prelude.{◌≡◌, ◌≢◌, ◌↔◌, None, Err, option_map};
ghost use Rattle.sdc_base.specs.WhereTold.{WhereTold};
ghost use Rattle.job_inputs.specs.ReadFiles.{output_limit};
ghost use Rattle.job_inputs.specs.Reading.{HasOnlyLooked};
ghost use Rattle.cell_listing.specs.Asked.{IsRelationsAnswer, IsReleasesAnswer};
ghost use Rattle.cell_listing.specs.Asked as spec;
ghost use Rattle.cell_listing.specs.Calls.{job_named};
ghost use Rattle.cell_listing.specs.IntervalRuns.{IsIntervalsRun};
ghost use Rattle.cell_listing.specs.Runs.{IsListingRun};

use crate::calls::list_cells;
use crate::interval_reading::list_intervals;
use crate::relations_reading::list_relations;
use crate::released_reading::list_released;
use crate::stop::ListingStop;
use office_io::Shelf;
use sdc_base::Text;
use std::alloc::Global;

/// What the words ask for, from the shelf: with the name of a job alone, the listing of [`list_cells`]; with
/// `--released` behind the name, that of [`list_released`], and with `--intervals` and the name of a file behind that,
/// the one of [`list_intervals`]; with `--relations` behind the name, that of [`list_relations`]. Nothing is put.
///
/// Other words are `Usage`; else each answer is that of the call. Its cost is theirs too. The words are argus's own.
pub fn list_asked<S: Shelf>(
    alloc: Global,
    words: &[Text],
    shelf: &mut S,
) -> Result<Vec<u8>, ListingStop>
    ensures usage { (result ≡ Err ListingStop.Usage)
        ↔ ((job_named words.now ≡ None) × (spec.job_for_release words.now ≡ None)
        × (spec.job_for_relations words.now ≡ None) × (spec.job_and_file_for_intervals words.now ≡ None)) }
    // The name of a job alone.
    ensures cells { WhereTold (job_named words.now)
        (λ name. IsListingRun name result (S.state shelf.old) (S.state shelf.new)) }
    // The name of a job, and `--released`.
    ensures released { WhereTold (spec.job_for_release words.now)
        (λ name. IsReleasesAnswer name result (S.state shelf.old) (S.state shelf.new)) }
    // The name of a job, and `--relations`.
    ensures relations { WhereTold (spec.job_for_relations words.now)
        (λ name. IsRelationsAnswer name result (S.state shelf.old) (S.state shelf.new)) }
    // The name of a job, `--released --intervals`, and the name of a file.
    ensures intervals { WhereTold (spec.job_and_file_for_intervals words.now)
        (λ names. IsIntervalsRun names.0 names.1 result (S.state shelf.old) (S.state shelf.new)) }
    // It was only read from, and no more than was wanted.
    ensures shelf { HasOnlyLooked output_limit (S.state shelf.old) (S.state shelf.new) }
{
    if let Some(names) = names_of(words) {
        return list_intervals(alloc, shelf, names.0, names.1);
    }
    if let Some(name) = named_with(words, b"--relations") {
        return asked_relations(alloc, shelf, name);
    }
    if let Some(name) = named_with(words, b"--released") {
        return asked_release(alloc, shelf, name);
    }
    list_cells(alloc, words, shelf)
}

// The listing of the relations between the cells of a job.
fn asked_relations<S: Shelf>(
    alloc: Global,
    shelf: &mut S,
    name: &Text,
) -> Result<Vec<u8>, ListingStop>
    ensures answers { IsRelationsAnswer name.now result (S.state shelf.old) (S.state shelf.new) }
    ensures no_usage { result ≢ Err ListingStop.Usage }
{
    let bytes = list_relations(alloc, shelf, name)?;
    Ok(bytes)
}

// The listing of a job with its release.
fn asked_release<S: Shelf>(
    alloc: Global,
    shelf: &mut S,
    name: &Text,
) -> Result<Vec<u8>, ListingStop>
    ensures answers { IsReleasesAnswer name.now result (S.state shelf.old) (S.state shelf.new) }
    ensures no_usage { result ≢ Err ListingStop.Usage }
{
    let bytes = list_released(alloc, shelf, name)?;
    Ok(bytes)
}

// The name of a job, where this word stands behind it, and nothing else.
fn named_with<'a>(words: &'a [Text], option: &[u8]) -> Option<&'a Text>
    ensures { option_map (λ name. name.now) result ≡ spec.named_with option.now words.now }
{
    if words.len() == 2 && !words[0].as_slice().is_empty() && words[1].as_slice() == option {
        Some(&words[0])
    } else {
        None
    }
}

// The names of a job and of a file, where the words for intervals stand between them, and nothing else.
fn names_of(words: &[Text]) -> Option<(&Text, &Text)>
    ensures { option_map (λ names. (names.0.now, names.1.now)) result ≡ spec.job_and_file_for_intervals words.now }
{
    if words.len() != 4 {
        return None;
    }
    let name = &words[0];
    let file = &words[3];
    if !asks_for_intervals(name, &words[1], &words[2], file) {
        return None;
    }
    Some((name, file))
}

// Whether two names of one byte or more have the words for intervals between them.
fn asks_for_intervals(name: &Text, first: &Text, second: &Text, file: &Text) -> bool
    ensures { result ≡ spec.asks_for_intervals name.now first.now second.now file.now }
{
    if name.as_slice().is_empty() {
        return false;
    }
    if file.as_slice().is_empty() {
        return false;
    }
    if first.as_slice() != b"--released".as_slice() {
        return false;
    }
    second.as_slice() == b"--intervals".as_slice()
}
