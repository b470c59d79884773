ghost use Rattle.std.specs.Prelude.{◌≡◌, ◌≤◌, Some};
ghost use Rattle.std.specs.List.{list_any, count_by};
ghost use Rattle.std.specs.Option.{option_copied};
ghost use Rattle.sdc_base.specs.Answers.{Gives};
ghost use Rattle.job_lang.specs.Faults.{job_fault_of};
ghost use Rattle.job_lang.specs.FilesApart as spec;
ghost use Rattle.job_lang.specs.RoundedContributors as rounded_contributors;
ghost use Rattle.job_lang.specs.SpannedDepths as spanned_depths;

use crate::binding_faults::is_spanned_by;
use crate::faults::{JobError, JobWhy};
use crate::job::TableLine;
use crate::looked_up::{method_of, statement_by, table_place};
use crate::statement::{Instruction, Keyword, Statement};
use plain_text::number_in;
use sdc_base::{Method, Text};

// The fault of a statement's line.
fn statement_error(statement: &Statement, why: JobWhy) -> JobError
    ensures { job_fault_of result ≡ Some (statement.now.line, why) }
{
    JobError::At {
        line: statement.line,
        why,
    }
}

// Whether a method is given, and it rounds.
fn is_rounding(method: Option<Method>) -> bool
    ensures { result ≡ rounded_contributors.is_rounding method }
{
    match method {
        Some(Method::Rnd(_)) => true,
        _ => false,
    }
}

/// The line of a contributors' file is a fault of a job that rounds.
#[tactic(auto, unfolding(crate::specs::RoundedContributors::no_rounded_contributors))]
pub(crate) fn no_rounded_contributors(said: &[Statement]) -> Result<(), JobError>
    ensures { Gives job_fault_of (λ fine. fine) result (rounded_contributors.no_rounded_contributors said.now) }
{
    let rounds = is_rounding(method_of(statement_by(Keyword::Suppress, said)));
    let Some(statement) = statement_by(Keyword::Contributors, said) else {
        return Ok(());
    };
    if rounds {
        return Err(statement_error(statement, JobWhy::BadValue));
    }
    Ok(())
}

// Whether no table has this number.
fn is_no_table(count: usize, number: &Text) -> bool
    requires { count ≤ 8 }
    ensures { result ≡ spec.is_no_table count number.now }
{
    number_in(1, count as u64, number.as_slice()).is_none()
}

// Whether it is said of no table.
fn is_astray(count: usize, said: &Instruction) -> bool
    requires { count ≤ 8 }
    ensures { result ≡ spec.is_astray count said.now }
{
    match said {
        Instruction::Prior { number, .. } => is_no_table(count, number),
        Instruction::Output { number, .. } => is_no_table(count, number),
        Instruction::Depth { number, .. } => is_no_table(count, number),
        _ => false,
    }
}

/// The first statement of no table is a fault of its line, where there are so many tables.
#[tactic(auto, unfolding(crate::specs::FilesApart::no_stray))]
pub(crate) fn no_stray(count: usize, said: &[Statement]) -> Result<(), JobError>
    requires { count ≤ 8 }
    ensures { Gives job_fault_of (λ fine. fine) result (spec.no_stray count said.now) }
{
    'said: for statement in said {
        if is_astray(count, &statement.said) {
            return Err(statement_error(statement, JobWhy::NoSuchTable));
        }
    }
    Ok(())
}

// Whether the variable of this name spans the table.
fn spans_table(name: &Text, table: Option<&TableLine>) -> bool
    ensures { result ≡ spanned_depths.spans_table name.now (option_copied table.entry) }
{
    let Some(table) = table else {
        return false;
    };
    is_spanned_by(name, table.variables.as_slice())
}

// Whether it is a depth of a variable that its table doesn't span.
fn is_outside(tables: &[TableLine], said: &Instruction) -> bool
    ensures { result ≡ spanned_depths.is_outside tables.now said.now }
{
    match said {
        Instruction::Depth {
            number,
            variable,
            ..
        } => !spans_table(variable, tables.get(table_place(number) as usize)),
        _ => false,
    }
}

/// The first depth of a variable that its table doesn't span is a fault of its line.
#[tactic(auto, unfolding(crate::specs::SpannedDepths::no_outside))]
pub(crate) fn no_outside(tables: &[TableLine], said: &[Statement]) -> Result<(), JobError>
    ensures { Gives job_fault_of (λ fine. fine) result (spanned_depths.no_outside tables.now said.now) }
{
    'said: for statement in said {
        if is_outside(tables, &statement.said) {
            return Err(statement_error(statement, JobWhy::NotInTable));
        }
    }
    Ok(())
}

// Whether a file of this name is put.
fn puts(name: &Text, said: &Instruction) -> bool
    ensures { result ≡ spec.puts name.now said.now }
{
    match said {
        Instruction::Output { file, .. } => file.equals(name),
        Instruction::Certificate(file) => file.equals(name),
        Instruction::Contributors(file) => file.equals(name),
        _ => false,
    }
}

// Whether a file of this name is read.
fn reads(name: &Text, said: &Instruction) -> bool
    ensures { result ≡ spec.is_read_file name.now said.now }
{
    match said {
        Instruction::Microdata(file) => file.equals(name),
        Instruction::Metadata(file) => file.equals(name),
        Instruction::Prior { file, .. } => file.equals(name),
        _ => false,
    }
}

// How many files of this name are put.
fn put_count(name: &Text, all: &[Statement]) -> usize
    ensures { result ≡ count_by (λ s. spec.puts name.now s.said) all.now }
{
    all.iter().filter(|s| puts(name, &s.said)).count()
}

// Whether some file of this name is read.
fn is_read(name: &Text, all: &[Statement]) -> bool
    ensures { result ≡ list_any (λ s. spec.is_read_file name.now s.said) all.now }
{
    all.iter().any(|s| reads(name, &s.said))
}

// Whether two files of this name are put, or one is read.
fn is_shared(name: &Text, all: &[Statement]) -> bool
    ensures { result ≡ spec.is_shared name.now all.now }
{
    if put_count(name, all) > 1 {
        return true;
    }
    is_read(name, all)
}

// Whether a file is put whose name another one has.
fn puts_shared_file(all: &[Statement], said: &Instruction) -> bool
    ensures { result ≡ spec.puts_shared_file all.now said.now }
{
    match said {
        Instruction::Output { file, .. } => is_shared(file, all),
        Instruction::Certificate(file) => is_shared(file, all),
        Instruction::Contributors(file) => is_shared(file, all),
        _ => false,
    }
}

/// The first statement that puts a file whose name another one has is a fault of its line.
#[tactic(auto, unfolding(crate::specs::FilesApart::no_same_name))]
pub(crate) fn no_same_name(all: &[Statement]) -> Result<(), JobError>
    ensures { Gives job_fault_of (λ fine. fine) result (spec.no_same_name all.now all.now) }
{
    'said: for statement in all {
        if puts_shared_file(all, &statement.said) {
            return Err(statement_error(statement, JobWhy::SameName));
        }
    }
    Ok(())
}
