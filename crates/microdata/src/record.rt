ghost use Rattle.std.specs.Prelude.{◌≡◌, ◌+◌, ◌<◌, ◌≤◌, ◌^◌, All, length, pos, OnOk};
ghost use Rattle.sdc_base.specs.Answers.{Gives};
ghost use Rattle.plain_text.specs.Stops.{why_of};
ghost use Rattle.microdata.specs.Faults.{row_fault_of, at_record};
ghost use Rattle.microdata.specs.Fields as spec;
ghost use Rattle.microdata.specs.Keeping.{IsVariable, AreSoundRecords};
ghost use Rattle.microdata.specs.OneRecord.{line_says, record_says, response_says, variable_says, variables_say, with_skipped};

use crate::faults::{RowError, RowWhy, error_at};
use crate::fields::field;
use crate::kept_rows::KeptRows;
use crate::layout::{Field, Measures};
use crate::numbers::{has_no_response_in, value_in, weight_of};
use crate::taking::{Seen, take_code};
use arrayvec::ArrayVec;
use plain_text::Stop;
use sdc_base::{Few, Place, Row};
use std::alloc::Global;
use std::marker::Model;

/// The most bytes of a record.
pub(crate) const MOST_BYTES: usize = 1000;

// The most records.
const MOST_RECORDS: u64 = 1_000_000;

/// A spanning variable with its codes so far.
#[derive(Drop)]
pub(crate) struct Variable {
    pub field: Field,
    pub seen: Seen,
}

/// The spanning variables, which contracts see as a list. They are changed where they stand.
#[derive(Drop)]
pub(crate) struct Variables {
    variables: Vec<Variable>,
}

impl Model for Variables {
    ghost use Rattle.std.specs.Prelude.{List};
    ghost use Rattle.microdata.specs.declared.record.Variable.{Variable};

    ghost Value = { List Variable };

    ghost view = { λ s. s.variables.items };
}

impl Variables {
    /// The variables of a vector.
    pub(crate) fn new(variables: Vec<Variable>) -> Variables
        ensures { result ≡ variables.items }
    {
        Variables { variables }
    }

    /// The vector of the variables.
    pub(crate) fn into_vec(self) -> Vec<Variable>
        ensures { result.items ≡ self }
    {
        self.variables
    }

    // Takes in the codes of a record, each at its variable, and says where they stand.
    fn take_codes(&mut self, alloc: Global, needed: u32, line: &[u8]) -> Result<Place, Stop<RowWhy>>
        requires variables { All (IsVariable needed) self.old }
        requires at_most_8 { length self.old ≤ 8 }
        requires long_enough { needed ≤ length line.now }
        ensures said { Gives why_of (λ places. (self.new, places)) result (variables_say self.old line.now) }
        ensures sound { OnOk result (All (IsVariable needed) self.new) }
        ensures at_most_8 { OnOk result (length self.new ≤ 8) }
    {
        take_codes(alloc, &mut self.variables, needed, line)
    }
}

/// What the records so far say.
#[derive(Drop)]
pub(crate) struct ReaderProgress {
    pub variables: Variables,
    pub rows: KeptRows,
    pub number: u64,
    pub skipped: u64,
}

/// Takes in a line without its end: one record more where it has a byte, and else nothing. After an error what was
/// lent is to be let go.
#[tactic(auto, using(crate::proofs::FaultsAt::fails_at))]
pub(crate) fn take_line(
    alloc: Global,
    measures: &Measures,
    so_far: &mut ReaderProgress,
    line: &[u8],
) -> Result<(), RowError>
    requires { AreSoundRecords measures.now so_far.old }
    ensures said { Gives row_fault_of (λ _. so_far.new) result (line_says measures.now so_far.old line.now) }
    ensures sound { OnOk result (AreSoundRecords measures.now so_far.new) }
{
    if line.is_empty() {
        return Ok(());
    }
    let number = so_far.number + 1;
    match take_record(alloc, measures, so_far, line) {
        Ok(()) => Ok(()),
        Err(error) => Err(error_at(number, error)),
    }
}

// Takes in a record.
#[tactic(auto, unfolding(crate::specs::OneRecord::record_says))]
fn take_record(
    alloc: Global,
    measures: &Measures,
    so_far: &mut ReaderProgress,
    line: &[u8],
) -> Result<(), Stop<RowWhy>>
    requires { AreSoundRecords measures.now so_far.old }
    ensures said { Gives why_of (λ _. so_far.new) result (record_says measures.now so_far.old line.now) }
    ensures sound { OnOk result (AreSoundRecords measures.now so_far.new) }
{
    if line.len() > MOST_BYTES {
        return Err(Stop::Fault(RowWhy::TooLong));
    }
    if so_far.number >= MOST_RECORDS {
        return Err(Stop::Fault(RowWhy::TooMany));
    }
    if line.len() < measures.needed as usize {
        return Err(Stop::Fault(RowWhy::Short));
    }
    let text = field(measures.response.first, measures.response.width, line);
    if has_no_response_in(&measures.response, text) {
        so_far.number += 1;
        so_far.skipped += 1;
        return Ok(());
    }
    take_response(alloc, measures, so_far, text, line)
}

// Takes in a record with a response, whose field has this text.
#[tactic(auto, unfolding(crate::specs::OneRecord::response_says))]
fn take_response(
    alloc: Global,
    measures: &Measures,
    so_far: &mut ReaderProgress,
    text: &[u8],
    line: &[u8],
) -> Result<(), Stop<RowWhy>>
    requires sound { AreSoundRecords measures.now so_far.old }
    requires more { so_far.old.number < 1000000 }
    requires long_enough { measures.now.needed ≤ length line.now }
    requires at_most_1000 { length line.now ≤ 1000 }
    requires text { text.now ≡ spec.field measures.now.response.first measures.now.response.width line.now }
    requires short { length text.now ≤ 1000 }
    ensures said { Gives why_of (λ _. so_far.new) result (response_says measures.now so_far.old line.now) }
    ensures sound { OnOk result (AreSoundRecords measures.now so_far.new) }
{
    let value = value_in(&measures.response, text)?;
    let weight = weight_of(&measures.weight, line)?;
    let places = so_far.variables.take_codes(alloc, measures.needed, line)?;
    so_far.number += 1;
    let row = Row {
        codes: places,
        value: value as i64,
        weight,
    };
    so_far.rows.push(so_far.number as u32, row)?;
    Ok(())
}

// Takes in the codes of a record, each at its variable, and says where they stand.
fn take_codes(
    alloc: Global,
    variables: &mut Vec<Variable>,
    needed: u32,
    line: &[u8],
) -> Result<Place, Stop<RowWhy>>
    requires variables { All (IsVariable needed) variables.old.items }
    requires at_most_8 { length variables.old.items ≤ 8 }
    requires long_enough { needed ≤ length line.now }
    ensures said { Gives why_of (λ places. (variables.new.items, places)) result
        (variables_say variables.old.items line.now) }
    ensures sound { OnOk result (All (IsVariable needed) variables.new.items) }
    ensures at_most_8 { OnOk result (length variables.new.items ≤ 8) }
{
    let mut places = ArrayVec::new();
    let mut k = 0;
    'variables: while k < variables.len() {
        let place = take_variable(alloc, &mut variables[k], needed, line)?;
        places.push(place);
        k += 1;
    }
    Ok(Few::new(places))
}

// Takes in the code of a record at one variable.
#[tactic(auto, unfolding(crate::specs::OneRecord::variable_says))]
fn take_variable(
    alloc: Global,
    variable: &mut Variable,
    needed: u32,
    line: &[u8],
) -> Result<u32, Stop<RowWhy>>
    requires variable { IsVariable needed variable.old }
    requires long_enough { needed ≤ length line.now }
    ensures said { Gives why_of (λ place. (variable.new, place)) result (variable_says variable.old line.now) }
    ensures sound { OnOk result (IsVariable needed variable.new) }
{
    let code = field(variable.field.first, variable.field.width, line);
    take_code(alloc, &variable.field.source, &mut variable.seen, code)
}
