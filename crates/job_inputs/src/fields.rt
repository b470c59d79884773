ghost use Rattle.std.specs.Prelude.{◌≡◌, ◌<◌, IfOk, Some, length, slice_get};
ghost use Rattle.rda_meta.specs.Limits.{IsVariable};
ghost use Rattle.microdata.specs.Layouts.{IsSource};
ghost use Rattle.job_inputs.specs.CodeSources.{source_of, field_of, spanning_variables, spanning_fields, source_in};
ghost use Rattle.job_inputs.specs.ListedCodes.{AreListed};
ghost use Rattle.job_inputs.specs.Looks.{IsHierarchyOf, FieldComesTo, FieldsComeTo};
ghost use Rattle.job_inputs.specs.PlacedFields.{IsPlacedField, AreFieldsOf};
ghost use Rattle.job_inputs.specs.ReadFiles.{limit};
ghost use Rattle.job_inputs.specs.Reading.{IsReadFrom, IsValueReadFrom};
ghost use Rattle.job_inputs.specs.SoundJobs.{IsSoundJob};

use crate::codes::{read_list, read_tree};
use crate::described::DescribedJob;
use crate::stop::InputStop;
use microdata::{Field, Source};
use office_io::Shelf;
use rda_meta::{Shape, Variable};
use sdc_base::{Items, Memory, Text};
use std::alloc::Global;

/// The fields of the variables that span a job's tables, in the order of the metadata.
///
/// For each variable its code list is looked at and then its hierarchy file, each for Absent, then TooLong, then what
/// it says; the first fault is the answer.
pub(crate) fn read_fields<S: Shelf>(
    alloc: Global,
    shelf: &mut S,
    described: &DescribedJob,
) -> Result<Items<Field>, InputStop>
    requires { IsSoundJob described.now }
    ensures { IsValueReadFrom (λ fs. spanning_fields fs described.now)
        (λ fs. FieldsComeTo fs (spanning_variables described.now)) (AreFieldsOf described.now) limit result
        (S.state shelf.old) (S.state shelf.new) }
{
    let variables = described.meta.variables.as_slice();
    let mut fields = Items::empty(alloc);
    'places: for place in described.bound.spanning.as_slice() {
        let variable = variable_at(variables, *place);
        let field = read_field(alloc, shelf, *place, variable)?;
        fields.push(field)?;
    }
    Ok(fields)
}

/// The variable at a place of the metadata.
pub(crate) fn variable_at(variables: &[Variable], place: u32) -> &Variable
    requires { place < length variables.now }
    ensures { slice_get variables.now place ≡ Some result.now }
{
    &variables[place as usize]
}

// The field of a variable.
#[tactic(auto, unfolding(crate::specs::CodeSources::field_of))]
fn read_field<S: Shelf>(
    alloc: Global,
    shelf: &mut S,
    place: u32,
    variable: &Variable,
) -> Result<Field, InputStop>
    requires { IsVariable variable.now }
    ensures { IsReadFrom (λ field. field) (λ fs. field_of fs place variable.now)
        (λ fs. FieldComesTo fs place variable.now) IsPlacedField limit result (S.state shelf.old) (S.state shelf.new) }
{
    let codes = read_list(alloc, shelf, place, variable)?;
    let source = read_source(alloc, shelf, place, variable, codes)?;
    Ok(Field {
        first: variable.first,
        width: variable.width,
        source,
    })
}

// Where the codes of a variable come from, given the codes of its list.
#[tactic(auto, unfolding(crate::specs::CodeSources::source_of))]
fn read_source<S: Shelf>(
    alloc: Global,
    shelf: &mut S,
    place: u32,
    variable: &Variable,
    codes: Vec<Text>,
) -> Result<Source, InputStop>
    requires variable { IsVariable variable.now }
    requires listed { AreListed variable.now.total codes.items }
    ensures { IsReadFrom (λ source. source) (λ fs. source_in fs place variable.now codes.items)
        (λ fs. IsHierarchyOf place variable.now.shape) IsSource limit result (S.state shelf.old) (S.state shelf.new) }
{
    match &variable.shape {
        Shape::Flat => Ok(Source::Flat {
            codes: Items::new(codes),
            total: variable.total.copy(alloc)?,
        }),
        Shape::Levels(widths) => Ok(Source::Levels {
            widths: copy_widths(alloc, widths)?,
            total: variable.total.copy(alloc)?,
        }),
        Shape::Listed { file, lead } => {
            let tree = read_tree(alloc, shelf, place, variable, file, lead)?;
            Ok(Source::Listed(tree))
        }
    }
}

// A copy of the widths of levels.
fn copy_widths(alloc: Global, widths: &Items<u8>) -> Result<Items<u8>, Memory>
    ensures { IfOk result (λ copy. copy ≡ widths.now) }
{
    Ok(Items::new(widths.as_slice().to_vec(alloc)?))
}
