ghost use Rattle.std.specs.Prelude.{◌≡◌};
ghost use Rattle.std.specs.List.{list_any};
ghost use Rattle.std.specs.Str.{bytes_eq};
ghost use Rattle.job_lang.specs.BindingFaults as spec;

use crate::faults::JobWhy;
use crate::job::{Job, OutputLine, TableLine};
use rda_meta::{Shape, Variable};
use sdc_base::{Rules, Text};

/// Whether the variable has this name.
pub(crate) fn is_named(name: &Text, variable: &Variable) -> bool
    ensures { result ≡ spec.is_named name.now variable.now }
{
    variable.name.equals(name)
}

// Whether no variable has this name.
fn is_absent(variables: &[Variable], name: &Text) -> bool
    ensures { result ≡ spec.is_absent variables.now name.now }
{
    !has_name(variables, name)
}

// Whether some variable has this name.
fn has_name(variables: &[Variable], name: &Text) -> bool
    ensures { result ≡ list_any (λ v. spec.is_named name.now v) variables.now }
{
    variables.iter().any(|v| is_named(name, v))
}

// Whether the variable has this name and is numeric.
fn is_numeric_named(name: &Text, variable: &Variable) -> bool
    ensures { result ≡ spec.is_numeric_named name.now variable.now }
{
    is_named(name, variable) && variable.numeric
}

// Whether a numeric variable has this name.
fn is_numeric(variables: &[Variable], name: &Text) -> bool
    ensures { result ≡ spec.is_numeric variables.now name.now }
{
    variables.iter().any(|v| is_numeric_named(name, v))
}

// Whether one of the names is that of no variable.
fn some_absent(variables: &[Variable], names: &[Text]) -> bool
    ensures { result ≡ list_any (λ name. spec.is_absent variables.now name) names.now }
{
    names.iter().any(|name| is_absent(variables, name))
}

// Whether one of the names is that of a numeric variable.
fn some_numeric(variables: &[Variable], names: &[Text]) -> bool
    ensures { result ≡ list_any (λ name. spec.is_numeric variables.now name) names.now }
{
    names.iter().any(|name| is_numeric(variables, name))
}

// The fault of a table's line.
fn table_fault(variables: &[Variable], table: &TableLine) -> Option<JobWhy>
    ensures { result ≡ spec.table_fault variables.now table.now }
{
    if some_absent(variables, table.variables.as_slice()) || is_absent(variables, &table.response) {
        return Some(JobWhy::NoSuchVariable);
    }
    if some_numeric(variables, table.variables.as_slice()) {
        return Some(JobWhy::NotSpanning);
    }
    if !is_numeric(variables, &table.response) {
        return Some(JobWhy::NotNumeric);
    }
    None
}

// Whether some variable is the weight.
fn has_weight(variables: &[Variable]) -> bool
    ensures { result ≡ list_any (λ v. v.weight) variables.now }
{
    variables.iter().any(|v| v.weight)
}

// The fault of the rules' line.
fn weight_fault(variables: &[Variable], rules: &Rules) -> Option<JobWhy>
    ensures { result ≡ spec.weight_fault variables.now rules.now }
{
    if rules.weighted && !has_weight(variables) {
        return Some(JobWhy::NoWeight);
    }
    None
}

/// Whether the table is spanned by the variable of this name.
pub(crate) fn is_spanned_by(name: &Text, names: &[Text]) -> bool
    ensures { result ≡ list_any (λ n. bytes_eq n name.now) names.now }
{
    names.iter().any(|n| n.equals(name))
}

/// Whether some table is spanned by the variable of this name.
pub(crate) fn is_spanning(tables: &[TableLine], name: &Text) -> bool
    ensures { result ≡ spec.is_spanning tables.now name.now }
{
    tables
        .iter()
        .any(|t| is_spanned_by(name, t.variables.as_slice()))
}

/// Whether the list of codes has this name; where there is no list, it hasn't. The rule is argus's own.
pub fn is_code_list(file: &Text, codes: &Option<Text>) -> bool
    ensures { result ≡ spec.is_code_list file.now codes.now }
{
    match codes {
        Some(name) => name.equals(file),
        None => false,
    }
}

/// Whether the hierarchy file has this name; where there is no such file, it hasn't. The rule is argus's own.
pub fn is_hierarchy_file(file: &Text, shape: &Shape) -> bool
    ensures { result ≡ spec.is_hierarchy_file file.now shape.now }
{
    match shape {
        Shape::Listed { file: name, .. } => name.equals(file),
        _ => false,
    }
}

// Whether the metadata name this file for the variable, which spans a table.
fn is_file_of(tables: &[TableLine], file: &Text, variable: &Variable) -> bool
    ensures { result ≡ spec.is_file_of tables.now file.now variable.now }
{
    is_spanning(tables, &variable.name)
        && (is_code_list(file, &variable.codes) || is_hierarchy_file(file, &variable.shape))
}

// Whether the metadata name this file for a variable that spans a table.
fn is_read_file(tables: &[TableLine], variables: &[Variable], file: &Text) -> bool
    ensures { result ≡ list_any (λ v. spec.is_file_of tables.now file.now v) variables.now }
{
    variables.iter().any(|v| is_file_of(tables, file, v))
}

// The fault of a line that puts a file.
fn file_fault(tables: &[TableLine], variables: &[Variable], file: &Text) -> Option<JobWhy>
    ensures { result ≡ spec.file_fault tables.now variables.now file.now }
{
    if is_read_file(tables, variables, file) {
        return Some(JobWhy::SameName);
    }
    None
}

// The earlier of two faults, the first where both stand at one line.
fn earlier_fault(
    first: Option<(u32, JobWhy)>,
    line: u32,
    why: Option<JobWhy>,
) -> Option<(u32, JobWhy)>
    ensures { result ≡ spec.earlier_fault first line why }
{
    let Some(why) = why else {
        return first;
    };
    let Some(fault) = first else {
        return Some((line, why));
    };
    if line < fault.0 {
        return Some((line, why));
    }
    Some(fault)
}

// The earliest fault of tables.
fn tables_fault(variables: &[Variable], tables: &[TableLine]) -> Option<(u32, JobWhy)>
    ensures { result ≡ spec.tables_fault variables.now tables.now }
{
    let mut first = None;
    for table in tables {
        first = earlier_fault(first, table.line, table_fault(variables, table));
    }
    first
}

// The earliest fault of outputs, and of what was looked at before.
fn outputs_fault(
    tables: &[TableLine],
    variables: &[Variable],
    before: Option<(u32, JobWhy)>,
    outputs: &[OutputLine],
) -> Option<(u32, JobWhy)>
    ensures { result ≡ spec.outputs_fault tables.now variables.now before outputs.now }
{
    let mut first = before;
    for output in outputs {
        first = earlier_fault(
            first,
            output.line,
            file_fault(tables, variables, &output.file),
        );
    }
    first
}

// The earliest fault of a contributors' file, where there is one, and of what was looked at before.
fn contributors_fault(
    tables: &[TableLine],
    variables: &[Variable],
    before: Option<(u32, JobWhy)>,
    contributors: &Option<OutputLine>,
) -> Option<(u32, JobWhy)>
    ensures { result ≡ spec.contributors_fault tables.now variables.now before contributors.now }
{
    match contributors {
        Some(output) => earlier_fault(
            before,
            output.line,
            file_fault(tables, variables, &output.file),
        ),
        None => before,
    }
}

/// The earliest fault of a job's lines.
pub(crate) fn earliest_fault(job: &Job, variables: &[Variable]) -> Option<(u32, JobWhy)>
    ensures { result ≡ spec.earliest_fault job.now variables.now }
{
    let tables = job.tables.as_slice();
    let first = tables_fault(variables, tables);
    let first = earlier_fault(first, job.rules_line, weight_fault(variables, &job.rules));
    let first = outputs_fault(tables, variables, first, job.outputs.as_slice());
    let last = file_fault(tables, variables, &job.certificate);
    let first = earlier_fault(first, job.certificate_line, last);
    contributors_fault(tables, variables, first, &job.contributors)
}
