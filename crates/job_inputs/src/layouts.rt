ghost use Rattle.std.specs.Prelude.{◌≡◌, ◌<◌, ◌+◌, Some, IfOk, IfSome, length, fold};
ghost use Rattle.std.specs.List.{AllByRecursion};
ghost use Rattle.microdata.specs.Layouts.{IsLayout};
ghost use Rattle.job_inputs.specs.Layouts.{number_at, weight_in, up_to_field, needed_for, layout_of};
ghost use Rattle.job_inputs.specs.Layouts as spec;
ghost use Rattle.job_inputs.specs.PlacedFields.{IsPlaced, IsPlacedField, AreFieldsOf};
ghost use Rattle.job_inputs.specs.SoundJobs.{IsSoundJob};

use crate::described::DescribedJob;
use crate::fields::variable_at;
use microdata::{Field, Layout, NumberField};
use rda_meta::Variable;
use sdc_base::{Items, Memory, Text};
use std::alloc::Global;

/// The layout of a job's records: the fields of its spanning variables, its response and its weight.
#[tactic(auto, using(crate::proofs::Placing::is_layout))]
pub(crate) fn layout_for(
    alloc: Global,
    described: &DescribedJob,
    fields: Items<Field>,
) -> Result<Layout, Memory>
    requires sound { IsSoundJob described.now }
    requires fields { AreFieldsOf described.now fields }
    ensures exact { IfOk result (λ layout. layout ≡ layout_of described.now.meta.variables described.now.bound fields) }
    ensures layout { IfOk result IsLayout }
{
    let response = response_of(alloc, described)?;
    let weight = weight_of(alloc, described)?;
    let needed = needed_by(fields.as_slice(), &response, &weight);
    Ok(Layout {
        spanning: fields,
        response,
        weight,
        needed,
    })
}

// The response.
fn response_of(alloc: Global, described: &DescribedJob) -> Result<NumberField, Memory>
    requires { IsSoundJob described.now }
    ensures exact { IfOk result (λ number. number ≡ number_at described.now.meta.variables described.now.bound.response) }
{
    number_of(
        alloc,
        described.meta.variables.as_slice(),
        described.bound.response,
    )
}

// The weight, where the job has weights.
fn weight_of(alloc: Global, described: &DescribedJob) -> Result<Option<NumberField>, Memory>
    requires { IsSoundJob described.now }
    ensures exact { IfOk result (λ weight. weight ≡ weight_in described.now.meta.variables described.now.bound) }
{
    match described.bound.weight {
        None => Ok(None),
        Some(place) => Ok(Some(number_of(alloc, described.meta.variables.as_slice(), place)?)),
    }
}

// The number at a place of the metadata.
fn number_of(alloc: Global, variables: &[Variable], place: u32) -> Result<NumberField, Memory>
    requires { place < length variables.now }
    ensures { IfOk result (λ number. number ≡ number_at variables.now place) }
{
    let variable = variable_at(variables, place);
    Ok(NumberField {
        first: variable.first,
        width: variable.width,
        decimals: variable.decimals,
        missing: copy_texts(alloc, variable.missing.as_slice())?,
    })
}

// A copy of texts.
fn copy_texts(alloc: Global, texts: &[Text]) -> Result<Items<Text>, Memory>
    ensures { IfOk result (λ copies. copies ≡ texts.now) }
{
    let mut copies = Items::empty(alloc);
    'texts: for text in texts {
        copies.push(text.copy(alloc)?)?;
    }
    Ok(copies)
}

// The greatest last position of all fields.
fn needed_by(fields: &[Field], response: &NumberField, weight: &Option<NumberField>) -> u32
    requires fields { AllByRecursion IsPlacedField fields.now }
    requires response { IsPlaced response.now.first response.now.width }
    requires weight { IfSome weight.now (λ number. IsPlaced number.first number.width) }
    ensures { result ≡ needed_for fields.now response.now weight.now }
{
    let last = last_of_fields(fields).max(last_position(response.first, response.width));
    match weight {
        None => last,
        Some(number) => last.max(last_position(number.first, number.width)),
    }
}

// The greatest last position of these fields, and 0 where there is none.
fn last_of_fields(fields: &[Field]) -> u32
    requires { AllByRecursion IsPlacedField fields.now }
    ensures { result ≡ fold up_to_field 0 fields.now }
{
    let mut last = 0;
    'fields: for field in fields {
        last = last.max(last_position(field.first, field.width));
    }
    last
}

// The last position of a field.
fn last_position(first: u32, width: u32) -> u32
    requires { IsPlaced first width }
    ensures { result ≡ spec.last_position first width }
{
    first + width - 1
}
