use crate::file_ref::FileRef;
use crate::kinds::{JobKind, TreeKind, certificate_kind, meta_kind, prior_kind, row_kind};
use apriori::PriorWhy;
use certificate::CertWhy;
use code_trees::TreeFault;
use job_lang::JobWhy;
use microdata::RowWhy;
use rda_meta::MetaWhy;
use std::fmt;
use std::fmt::Display;

/// What is wrong with the files of a job: the first fault in the order job, metadata, the job's variables in the
/// metadata, for each spanning variable in the order of the metadata its code list and then its hierarchy, the
/// microdata, the number of cells, the a priori files by table, primary cells that are to be always shown, an output
/// that has the name of an input, and then, where they are read, the certificate, the contributors' file and the tables
/// that were put.
#[derive(Clone, Copy, Debug, PartialEq, Eq)]
pub enum Fault {
    /// The file isn't there.
    Absent(FileRef),
    /// The file has too many bytes: an input more than 268,435,456, and one that was put more than `2^60`.
    TooLong(FileRef),
    /// A line of the job, from 1, or the job as a whole, 0; also where the metadata lack what it names.
    Job {
        line: u32,
        why: JobWhy,
    },
    /// A line of the metadata, from 1.
    Meta {
        line: u32,
        why: MetaWhy,
    },
    /// A code list or a hierarchy file, with its line or, for a missing code, the code's number, from 1; never want of
    /// memory.
    Tree(FileRef, TreeFault),
    /// A record of the microdata, from 1.
    Row {
        number: u64,
        why: RowWhy,
    },
    /// With this table the distinct cells pass 60,000.
    Cells(u32),
    /// A line of a table's a priori file, the table from 0 and the line from 1.
    Prior {
        table: u32,
        line: u32,
        why: PriorWhy,
    },
    /// A line of the certificate, from 1.
    Certificate {
        line: u64,
        why: CertWhy,
    },
    /// A line of the contributors' file, from 1.
    Contributors {
        line: u64,
        why: CertWhy,
    },
    /// A file to be put would take the name of the job's own file, or of another input.
    OutName,
}

impl Display for Fault {
    ghost use Rattle.std.specs.Prelude.{Some};
    ghost use Rattle.job_inputs.specs.FaultTexts.{fault_text};

    ghost output = { λ fault. Some (fault_text fault) };

    fn fmt<W: fmt::Write>(&self, f: &mut fmt::Formatter<W>) -> fmt::Result {
        match self {
            Fault::Absent(file) => write!(f, "{file}: Absent"),
            Fault::TooLong(file) => write!(f, "{file}: TooLong"),
            Fault::Job { line, why } => {
                let kind = JobKind { why: *why };
                write!(f, "job line {line}: {kind}")
            }
            Fault::Meta { line, why } => {
                let kind = meta_kind(*why);
                write!(f, "metadata line {line}: {kind}")
            }
            Fault::Tree(file, fault) => {
                let at = TreeKind { fault: *fault };
                write!(f, "{file} line {at}")
            }
            Fault::Row { number, why } => {
                let kind = row_kind(*why);
                write!(f, "record {number}: {kind}")
            }
            Fault::Cells(table) => {
                let number = u64::from(*table) + 1;
                write!(f, "table {number}: TooManyCells")
            }
            Fault::Prior { table, line, why } => {
                let number = u64::from(*table) + 1;
                let kind = prior_kind(*why);
                write!(f, "apriori table {number} line {line}: {kind}")
            }
            Fault::Certificate { line, why } => {
                let kind = certificate_kind(*why);
                write!(f, "certificate line {line}: {kind}")
            }
            Fault::Contributors { line, why } => {
                let kind = certificate_kind(*why);
                write!(f, "contributors line {line}: {kind}")
            }
            Fault::OutName => write!(f, "out: OutName"),
        }
    }
}
