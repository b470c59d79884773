use std::fmt;
use std::fmt::Display;

/// A file of a job, or the one that is to be put under a name of its own. A variable is numbered by its place in the
/// metadata, from 0, and a table from 0.
#[derive(Clone, Copy, Debug, PartialEq, Eq)]
pub enum FileRef {
    Job,
    Metadata,
    CodeList(u32),
    Hierarchy(u32),
    Microdata,
    Apriori(u32),
    Certificate,
    Contributors,
    Table(u32),
    Out,
}

impl Display for FileRef {
    ghost use Rattle.std.specs.Prelude.{Some};
    ghost use Rattle.job_inputs.specs.FileTexts.{file_text};

    ghost output = { λ file. Some (file_text file) };

    fn fmt<W: fmt::Write>(&self, f: &mut fmt::Formatter<W>) -> fmt::Result {
        match self {
            FileRef::Job => write!(f, "job"),
            FileRef::Metadata => write!(f, "metadata"),
            FileRef::CodeList(place) => {
                let number = u64::from(*place) + 1;
                write!(f, "codelist {number}")
            }
            FileRef::Hierarchy(place) => {
                let number = u64::from(*place) + 1;
                write!(f, "hierarchy {number}")
            }
            FileRef::Microdata => write!(f, "microdata"),
            FileRef::Apriori(table) => {
                let number = u64::from(*table) + 1;
                write!(f, "apriori table {number}")
            }
            FileRef::Certificate => write!(f, "certificate"),
            FileRef::Contributors => write!(f, "contributors"),
            FileRef::Table(table) => {
                let number = u64::from(*table) + 1;
                write!(f, "table {number}")
            }
            FileRef::Out => write!(f, "out"),
        }
    }
}
