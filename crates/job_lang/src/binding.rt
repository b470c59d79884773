ghost use Rattle.std.specs.Prelude.{◌≡◌, ◌≤◌, ◌<◌, ◌^◌, length, map, find, IfOk};
ghost use Rattle.std.specs.List.{All};
ghost use Rattle.std.specs.Option.{option_copied};
ghost use Rattle.sdc_base.specs.Answers.{Gives};
ghost use Rattle.sdc_base.specs.Places.{first_place};
ghost use Rattle.job_lang.specs.Faults.{job_fault_of};
ghost use Rattle.job_lang.specs.JobLimits.{AreTables};
ghost use Rattle.job_lang.specs.BoundLimits.{AreVariables, IsBound};
ghost use Rattle.job_lang.specs.Binding.{bound_of};
ghost use Rattle.job_lang.specs.Binding as spec;
ghost use Rattle.job_lang.specs.BindingFaults as binding_faults;

use crate::binding_faults::{earliest_fault, is_named, is_spanning};
use crate::bound::Bound;
use crate::faults::JobError;
use crate::job::{DepthLine, Job, TableLine};
use arrayvec::ArrayVec;
use rda_meta::{Meta, Variable};
use sdc_base::{Dimension, Dimensions, Few, Items, Memory, Place, Rules, Text};
use std::alloc::Global;

// No code of a tree is deeper.
const WHOLE_DEPTH: u32 = 9;

/// The variables of a job as places in the metadata, each table's with the depth to which it takes their trees, or the
/// earliest line with a fault and what is wrong with it.
///
/// A table's line is looked at for `NoSuchVariable`, `NotSpanning` and `NotNumeric`, each over all its variables and
/// the response; the line of the rules for `NoWeight`; the lines of outputs, certificate and contributors' file for
/// `SameName`, where the metadata name that file for a variable that spans a table. Names are compared byte for byte. The rules are argus's
/// own.
///
/// The caller sees to it that the job has a table, all of one response, each of distinct variables and of at most 8 in
/// all, as each job that was read has; and that the metadata are within their limits, as those that were read are: at
/// most 64 variables of distinct names, one of them the weight at most, with at most 9 digits behind the point, and a
/// weight with at most 4. Nothing is changed. Want of memory aside, the answer is the definition's.
///
/// The cost is a look at each variable of the metadata, and one at each depth of the job, for each name of the job.
#[tactic(auto, unfolding(crate::specs::Binding::bound_of))]
pub fn bind(alloc: Global, job: &Job, meta: &Meta) -> Result<Bound, JobError>
    requires tables { AreTables job.now.tables }
    requires variables { AreVariables meta.now.variables }
    ensures exact { Gives job_fault_of (λ bound. bound) result (bound_of job.now meta.now) }
    ensures within { IfOk result (λ bound. IsBound job.now meta.now.variables bound) }
{
    let variables = meta.variables.as_slice();
    if let Some((line, why)) = earliest_fault(job, variables) {
        return Err(JobError::At { line, why });
    }
    Ok(places_of(alloc, job, variables)?)
}

// The variables of a job as places.
fn places_of(alloc: Global, job: &Job, variables: &[Variable]) -> Result<Bound, Memory>
    requires at_most_64 { length variables.now ≤ 64 }
    requires spanning { length (spec.spanning_of job.now.tables variables.now) ≤ 8 }
    requires widths { All (λ t. length t.variables ≤ 8) job.now.tables }
    requires at_least_one_table { 0 < length job.now.tables }
    requires decimals { spec.response_decimals job.now.tables variables.now ≤ 9 }
    requires weight { spec.weight_decimals job.now.rules variables.now ≤ 4 }
    ensures { IfOk result (λ bound. bound ≡ spec.places_of job.now variables.now) }
{
    let tables = job.tables.as_slice();
    let spanning = spanning_of(tables, variables);
    let dimensions = tables_dimensions(
        alloc,
        spanning.as_slice(),
        variables,
        job.depths.as_slice(),
        tables,
    )?;
    let response = response_place(variables, tables);
    let weight = weight_place(&job.rules, variables);
    let weight_decimals = weight_decimals(&job.rules, variables);
    let decimals = response_decimals(variables, tables) + weight_decimals;
    let scale = 10u32.pow(u32::from(weight_decimals));
    Ok(Bound {
        spanning,
        tables: dimensions,
        response,
        weight,
        decimals,
        scale,
    })
}

// The variables that span tables, in the order of the metadata.
fn spanning_of(tables: &[TableLine], variables: &[Variable]) -> Place
    requires at_most_64 { length variables.now ≤ 64 }
    requires spanning { length (spec.spanning_of tables.now variables.now) ≤ 8 }
    ensures { result ≡ spec.spanning_of tables.now variables.now }
{
    let mut places = ArrayVec::new();
    for (k, variable) in variables.iter().enumerate() {
        if is_spanning(tables, &variable.name) {
            places.push(k as u32);
        }
    }
    Few::new(places)
}

// The place of the variable of this name, and 0 where there is none.
fn variable_place(variables: &[Variable], name: &Text) -> u32
    requires { length variables.now ≤ 64 }
    ensures { result ≡ spec.variable_place variables.now name.now }
{
    for (k, variable) in variables.iter().enumerate() {
        if is_named(name, variable) {
            return k as u32;
        }
    }
    0
}

// The place of the variable of this name among those that span tables, and 0 where it isn't there.
fn spanning_place(spanning: &[u32], variables: &[Variable], name: &Text) -> u32
    requires at_most_8 { length spanning.now ≤ 8 }
    requires variables { length variables.now ≤ 64 }
    ensures { result ≡ spec.spanning_place spanning.now variables.now name.now }
{
    let place = variable_place(variables, name);
    for (k, other) in spanning.iter().enumerate() {
        if *other == place {
            return k as u32;
        }
    }
    0
}

// Whether the line is of this variable in the table at this place.
fn is_depth_for(place: usize, name: &Text, line: &DepthLine) -> bool
    ensures { result ≡ spec.is_depth_for place name.now line.now }
{
    line.table as usize == place && line.variable.equals(name)
}

// The line of this variable in the table at this place.
fn depth_line<'a>(depths: &'a [DepthLine], place: usize, name: &Text) -> Option<&'a DepthLine>
    ensures { option_copied result ≡ find (spec.is_depth_for place name.now) depths.now }
{
    for line in depths {
        if is_depth_for(place, name, line) {
            return Some(line);
        }
    }
    None
}

// The depth to which the table at this place takes the tree of this variable; the whole tree's where no line says one.
fn depth_of(depths: &[DepthLine], place: usize, name: &Text) -> u32
    ensures { result ≡ spec.depth_of depths.now place name.now }
{
    let Some(line) = depth_line(depths, place, name) else {
        return WHOLE_DEPTH;
    };
    line.depth
}

// The dimensions of the table at this place, its variables as places among those that span tables.
fn table_dimensions(
    spanning: &[u32],
    variables: &[Variable],
    depths: &[DepthLine],
    place: usize,
    names: &[Text],
) -> Dimensions
    requires at_most_8 { length spanning.now ≤ 8 }
    requires variables { length variables.now ≤ 64 }
    requires names { length names.now ≤ 8 }
    ensures { result ≡ map
        (λ name. record {
          variable = spec.spanning_place spanning.now variables.now name;
          depth = spec.depth_of depths.now place name;
        })
        names.now }
{
    let mut dimensions: ArrayVec<Dimension, 8> = ArrayVec::new();
    for name in names {
        dimensions.push(Dimension {
            variable: spanning_place(spanning, variables, name),
            depth: depth_of(depths, place, name),
        });
    }
    Few::new(dimensions)
}

// The dimensions of each table.
fn tables_dimensions(
    alloc: Global,
    spanning: &[u32],
    variables: &[Variable],
    depths: &[DepthLine],
    tables: &[TableLine],
) -> Result<Items<Dimensions>, Memory>
    requires at_most_8 { length spanning.now ≤ 8 }
    requires variables { length variables.now ≤ 64 }
    requires widths { All (λ t. length t.variables ≤ 8) tables.now }
    ensures { IfOk result (λ all. all ≡ spec.dimensions_from spanning.now variables.now depths.now 0 tables.now) }
{
    let mut all = Items::empty(alloc);
    for (place, table) in tables.iter().enumerate() {
        let names = table.variables.as_slice();
        all.push(table_dimensions(spanning, variables, depths, place, names))?;
    }
    Ok(all)
}

// The response of the tables.
fn response_of(tables: &[TableLine]) -> &Text
    requires { 0 < length tables.now }
    ensures { result.now ≡ spec.response_of tables.now }
{
    &tables[0].response
}

// The place of the response.
fn response_place(variables: &[Variable], tables: &[TableLine]) -> u32
    requires at_least_one_table { 0 < length tables.now }
    requires at_most_64 { length variables.now ≤ 64 }
    ensures { result ≡ spec.variable_place variables.now (spec.response_of tables.now) }
{
    variable_place(variables, response_of(tables))
}

// The digits behind the point of the response.
fn response_decimals(variables: &[Variable], tables: &[TableLine]) -> u8
    requires { 0 < length tables.now }
    ensures { result ≡ spec.response_decimals tables.now variables.now }
{
    decimals_of(variable_named(variables, response_of(tables)))
}

// The variable of this name.
fn variable_named<'a>(variables: &'a [Variable], name: &Text) -> Option<&'a Variable>
    ensures { option_copied result ≡ find (λ v. binding_faults.is_named name.now v) variables.now }
{
    for variable in variables {
        if is_named(name, variable) {
            return Some(variable);
        }
    }
    None
}

// The variable that is the weight.
fn weight_variable(variables: &[Variable]) -> Option<&Variable>
    ensures { option_copied result ≡ find (λ v. v.weight) variables.now }
{
    for variable in variables {
        if variable.weight {
            return Some(variable);
        }
    }
    None
}

// The digits behind the point of a variable.
fn decimals_of(variable: Option<&Variable>) -> u8
    ensures { result ≡ spec.decimals_of (option_copied variable.entry) }
{
    let Some(variable) = variable else {
        return 0;
    };
    variable.decimals
}

// The digits behind the point of the weight, where records have weights.
fn weight_decimals(rules: &Rules, variables: &[Variable]) -> u8
    ensures { result ≡ spec.weight_decimals rules.now variables.now }
{
    if !rules.weighted {
        return 0;
    }
    decimals_of(weight_variable(variables))
}

// The first place of a weight.
fn first_weight(variables: &[Variable]) -> Option<u32>
    requires { length variables.now ≤ 64 }
    ensures { result ≡ first_place (λ v. v.weight) variables.now }
{
    for (k, variable) in variables.iter().enumerate() {
        if variable.weight {
            return Some(k as u32);
        }
    }
    None
}

// The place of the weight, where records have weights.
fn weight_place(rules: &Rules, variables: &[Variable]) -> Option<u32>
    requires { length variables.now ≤ 64 }
    ensures { result ≡ spec.weight_place rules.now variables.now }
{
    if !rules.weighted {
        return None;
    }
    first_weight(variables)
}
