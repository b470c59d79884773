ghost use Rattle.std.specs.Prelude.{◌≡◌};
ghost use Rattle.job_lang.specs.Faults.{error_of};

use plain_text::Stop;
use sdc_base::Memory;

/// A command that a job must have.
#[derive(Clone, Copy, Debug, PartialEq, Eq)]
pub enum Command {
    OpenMicrodata,
    OpenMetadata,
    SpecifyTable,
    SafetyRule,
    Suppress,
    WriteTable,
    Certificate,
}

/// What is wrong with a job. The kinds up to `OtherResponse` are looked for line by line, and within a line in their
/// order; the next four behind the last line, one after the other; and the last four, with `SameName` once more,
/// where a job is bound to metadata.
#[derive(Clone, Copy, Debug, PartialEq, Eq)]
pub enum JobWhy {
    /// The line has no word between `<` and `>` at its front.
    BadLine,
    /// The word is no command.
    UnknownCommand,
    /// The argument isn't as the command wants it, is out of range, or names a variable twice in one table.
    BadValue,
    /// A command that stands once stands again, or once more for the same table.
    Twice,
    /// The table is the ninth, or the variables of all tables are now more than 8.
    TooMany,
    /// The table has another response than the first one.
    OtherResponse,
    /// The number is that of no table.
    NoSuchTable,
    /// The table of a depth isn't spanned by the variable.
    NotInTable,
    /// A file to be put has the name of another one, or of a file that is read.
    SameName,
    /// The job lacks a command; the fault is given at line 0.
    Missing(Command),
    /// The metadata have no variable of this name.
    NoSuchVariable,
    /// A variable that spans a table is numeric.
    NotSpanning,
    /// The response isn't numeric.
    NotNumeric,
    /// Records have weights, and the metadata have no weight variable.
    NoWeight,
}

/// Why a job isn't read or bound: the line with the first fault, from 1 and 0 for the job as a whole, and what is wrong
/// with it; or want of memory.
#[derive(Clone, Copy, Debug, PartialEq, Eq)]
pub enum JobError {
    At { line: u32, why: JobWhy },
    Memory,
}

impl From<Memory> for JobError {
    ghost use Rattle.job_lang.specs.declared.faults.JobError.TheVariants as job_error;

    ghost from_gives = { λ _ e. e ≡ job_error.Memory };

    fn from(_: Memory) -> Self {
        JobError::Memory
    }
}

/// The error of the line with this number.
pub(crate) fn error_at(line: u32, error: Stop<JobWhy>) -> JobError
    ensures { result ≡ error_of line error }
{
    match error {
        Stop::Fault(why) => JobError::At { line, why },
        Stop::Memory => JobError::Memory,
    }
}
