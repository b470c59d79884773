ghost use Rattle.std.specs.Prelude.{◌≡◌, ◌<◌, ◌≤◌, ◌^◌, length, IfOk};
ghost use Rattle.sdc_base.specs.Answers.{Gives};
ghost use Rattle.sdc_base.specs.Lines as lines_specs;
ghost use Rattle.job_lang.specs.Faults.{job_fault_of};
ghost use Rattle.job_lang.specs.MissingCommands as missing_commands;
ghost use Rattle.job_lang.specs.Jobs.{job_of};
ghost use Rattle.job_lang.specs.Jobs as jobs;
ghost use Rattle.job_lang.specs.JobLimits.{IsJob};

use crate::closing::{no_outside, no_rounded_contributors, no_same_name, no_stray};
use crate::faults::{Command, JobError, JobWhy};
use crate::job::{Job, OutputLine};
use crate::lines::read_lines;
use crate::looked_up::{
    cost_of, depths_in, file_line, method_of, output_said, priors_in, rules_line, statement_by,
    work_of,
};
use crate::statement::{Draft, Keyword, Statement};
use sdc_base::Items;
use std::alloc::Global;

// The steps of a question where a job says nothing.
const USUAL_STEPS: u64 = 100_000;
// The nodes of a search for a rounding where a job says nothing.
const USUAL_NODES: u64 = 1_000_000;

/// The job that the bytes of a file state, or the line of the first fault and what is wrong with it.
///
/// Lines are looked at in their order, and each for `BadLine`, `UnknownCommand`, `BadValue`, `Twice`, `TooMany` and
/// `OtherResponse`. Where no line has a fault there follow, of a job that rounds, `BadValue` at its line of a
/// contributors' file, then `NoSuchTable`, `NotInTable` and `SameName`, each at the first line that has it, and at line
/// 0 `Missing` with the first command that lacks, in the order of `Command`. Nothing is kept of a job with a fault. The
/// words are those of tau-ARGUS's batch files, but for `COST`, `STEPS`, `NODES`, `CERTIFICATE`, `CONTRIBUTORS` and
/// `DEPTH`; the exact form, the ranges and the order of the faults are argus's own.
///
/// The caller sees to it that there are fewer than `2^32` bytes, so that a line's number fits. Want of memory aside,
/// the answer is the definition's.
///
/// The cost is a look at each byte a few times, for each line one at what the lines before it say, for each table
/// and each file that is put one at what all lines say, and for each depth one at its table's variables.
#[tactic(auto, unfolding(crate::specs::Jobs::job_of))]
pub fn read_job(alloc: Global, bytes: &[u8]) -> Result<Job, JobError>
    requires { length bytes.now < 2 ^ 32 }
    ensures exact { Gives job_fault_of (λ job. job) result (job_of bytes.now) }
    ensures within { IfOk result (λ job. IsJob job) }
{
    let draft = read_lines(alloc, bytes)?;
    closed_job(alloc, draft)
}

// The closing looks at what the lines say, and the job.
#[tactic(auto, unfolding(crate::specs::Jobs::closed_job))]
fn closed_job(alloc: Global, draft: Draft) -> Result<Job, JobError>
    requires { length draft.tables ≤ 8 }
    ensures { Gives job_fault_of (λ job. job) result (jobs.closed_job draft) }
{
    no_rounded_contributors(draft.said.as_slice())?;
    no_stray(draft.tables.as_slice().len(), draft.said.as_slice())?;
    no_outside(draft.tables.as_slice(), draft.said.as_slice())?;
    no_same_name(draft.said.as_slice())?;
    job_made(alloc, draft)
}

// The fault of a job that lacks this command.
fn missing_command(which: Command) -> JobError
    ensures { result ≡ JobError.At 0 (JobWhy.Missing which) }
{
    JobError::At {
        line: 0,
        why: JobWhy::Missing(which),
    }
}

// The output of the table at this place, which must have one.
fn output_of_table(alloc: Global, place: usize, said: &[Statement]) -> Result<OutputLine, JobError>
    requires { place < 8 }
    ensures { Gives job_fault_of (λ output. output) result (missing_commands.output_of_table place said.now) }
{
    let Some(output) = file_line(alloc, output_said(place, said))? else {
        return Err(missing_command(Command::WriteTable));
    };
    Ok(output)
}

// The outputs of so many tables.
fn outputs_of_tables(
    alloc: Global,
    count: usize,
    said: &[Statement],
) -> Result<Items<OutputLine>, JobError>
    requires { count ≤ 8 }
    ensures { Gives job_fault_of (λ outputs. outputs) result (missing_commands.outputs_from count 0 said.now) }
{
    let mut outputs = Items::empty(alloc);
    for place in 0..count {
        let output = output_of_table(alloc, place, said)?;
        outputs.push(output)?;
    }
    Ok(outputs)
}

// The job of all that was said, each command that must be there in its order, and the others with their defaults.
#[tactic(auto, unfolding(crate::specs::Jobs::job_made))]
fn job_made(alloc: Global, draft: Draft) -> Result<Job, JobError>
    requires { length draft.tables ≤ 8 }
    ensures { Gives job_fault_of (λ job. job) result (jobs.job_made draft) }
{
    let said = draft.said.as_slice();
    let Some(micro) = file_line(alloc, statement_by(Keyword::OpenMicrodata, said))? else {
        return Err(missing_command(Command::OpenMicrodata));
    };
    let Some(meta) = file_line(alloc, statement_by(Keyword::OpenMetadata, said))? else {
        return Err(missing_command(Command::OpenMetadata));
    };
    let count = draft.tables.as_slice().len();
    if count == 0 {
        return Err(missing_command(Command::SpecifyTable));
    }
    let Some(rules) = rules_line(statement_by(Keyword::SafetyRule, said)) else {
        return Err(missing_command(Command::SafetyRule));
    };
    let Some(method) = method_of(statement_by(Keyword::Suppress, said)) else {
        return Err(missing_command(Command::Suppress));
    };
    let outputs = outputs_of_tables(alloc, count, said)?;
    let Some(certificate) = file_line(alloc, statement_by(Keyword::Certificate, said))? else {
        return Err(missing_command(Command::Certificate));
    };
    let contributors = file_line(alloc, statement_by(Keyword::Contributors, said))?;
    let priors = priors_in(alloc, said)?;
    let depths = depths_in(alloc, said)?;
    let cost = cost_of(statement_by(Keyword::Cost, said));
    let steps = work_of(USUAL_STEPS, statement_by(Keyword::Steps, said));
    let nodes = work_of(USUAL_NODES, statement_by(Keyword::Nodes, said));
    Ok(Job {
        micro: micro.file,
        meta: meta.file,
        tables: draft.tables,
        rules: rules.rules,
        rules_line: rules.line,
        priors,
        cost,
        steps,
        nodes,
        method,
        outputs,
        certificate: certificate.file,
        certificate_line: certificate.line,
        contributors,
        depths,
    })
}
