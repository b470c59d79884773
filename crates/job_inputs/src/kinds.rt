ghost use Rattle.std.specs.Prelude.{◌≡◌};
ghost use Rattle.job_inputs.specs.FaultTexts.{certificate_text, command_text, meta_text, prior_text, row_text};

use apriori::PriorWhy;
use certificate::CertWhy;
use code_trees::TreeFault;
use job_lang::{Command, JobWhy};
use microdata::RowWhy;
use rda_meta::MetaWhy;
use std::fmt;
use std::fmt::Display;

/// A kind of fault of a job, as it is printed.
#[derive(Clone, Copy)]
pub(crate) struct JobKind {
    pub why: JobWhy,
}

impl Display for JobKind {
    ghost use Rattle.std.specs.Prelude.{Some};
    ghost use Rattle.job_inputs.specs.FaultTexts.{job_text};

    ghost output = { λ kind. Some (job_text kind.why) };

    fn fmt<W: fmt::Write>(&self, f: &mut fmt::Formatter<W>) -> fmt::Result {
        match self.why {
            JobWhy::BadLine => write!(f, "BadLine"),
            JobWhy::UnknownCommand => write!(f, "UnknownCommand"),
            JobWhy::BadValue => write!(f, "BadValue"),
            JobWhy::Twice => write!(f, "Twice"),
            JobWhy::TooMany => write!(f, "TooMany"),
            JobWhy::OtherResponse => write!(f, "OtherResponse"),
            JobWhy::NoSuchTable => write!(f, "NoSuchTable"),
            JobWhy::NotInTable => write!(f, "NotInTable"),
            JobWhy::SameName => write!(f, "SameName"),
            JobWhy::Missing(which) => {
                let command = command_word(which);
                write!(f, "Missing {command}")
            }
            JobWhy::NoSuchVariable => write!(f, "NoSuchVariable"),
            JobWhy::NotSpanning => write!(f, "NotSpanning"),
            JobWhy::NotNumeric => write!(f, "NotNumeric"),
            JobWhy::NoWeight => write!(f, "NoWeight"),
        }
    }
}

// A command as it is written in a job.
fn command_word(command: Command) -> &'static str
    ensures { result.now ≡ command_text command }
{
    match command {
        Command::OpenMicrodata => "OPENMICRODATA",
        Command::OpenMetadata => "OPENMETADATA",
        Command::SpecifyTable => "SPECIFYTABLE",
        Command::SafetyRule => "SAFETYRULE",
        Command::Suppress => "SUPPRESS",
        Command::WriteTable => "WRITETABLE",
        Command::Certificate => "CERTIFICATE",
    }
}

/// A kind of fault of metadata, as it is printed.
pub(crate) fn meta_kind(why: MetaWhy) -> &'static str
    ensures { result.now ≡ meta_text why }
{
    match why {
        MetaWhy::BadName => "BadName",
        MetaWhy::BadPlace => "BadPlace",
        MetaWhy::UnknownKeyword => "UnknownKeyword",
        MetaWhy::BadValue => "BadValue",
        MetaWhy::Twice => "Twice",
        MetaWhy::Clash => "Clash",
        MetaWhy::TooMany => "TooMany",
    }
}

/// A kind of fault of a record, as it is printed.
pub(crate) fn row_kind(why: RowWhy) -> &'static str
    ensures { result.now ≡ row_text why }
{
    match why {
        RowWhy::TooLong => "TooLong",
        RowWhy::TooMany => "TooMany",
        RowWhy::Short => "Short",
        RowWhy::Negative => "Negative",
        RowWhy::BadNumber => "BadNumber",
        RowWhy::LightWeight => "LightWeight",
        RowWhy::UnknownCode => "UnknownCode",
        RowWhy::NotLeaf => "NotLeaf",
        RowWhy::TooManyCodes => "TooManyCodes",
    }
}

/// A kind of fault of an a priori file, as it is printed.
pub(crate) fn prior_kind(why: PriorWhy) -> &'static str
    ensures { result.now ≡ prior_text why }
{
    match why {
        PriorWhy::BadShape => "BadShape",
        PriorWhy::UnknownCode => "UnknownCode",
        PriorWhy::BadNumber => "BadNumber",
        PriorWhy::EmptyUnsafe => "EmptyUnsafe",
        PriorWhy::OutsideTruth => "OutsideTruth",
        PriorWhy::Twice => "Twice",
        PriorWhy::ProtectedPrimary => "ProtectedPrimary",
    }
}

/// A kind of fault of a certificate, or of a contributors' file, as it is printed.
pub(crate) fn certificate_kind(why: CertWhy) -> &'static str
    ensures { result.now ≡ certificate_text why }
{
    match why {
        CertWhy::Version => "Version",
        CertWhy::Shape => "Shape",
        CertWhy::Number => "Number",
        CertWhy::Order => "Order",
        CertWhy::NoEnd => "NoEnd",
    }
}

/// The line of a fault in a file of codes and its kind, as they are printed.
#[derive(Clone, Copy)]
pub(crate) struct TreeKind {
    pub fault: TreeFault,
}

impl Display for TreeKind {
    ghost use Rattle.std.specs.Prelude.{Some};
    ghost use Rattle.job_inputs.specs.FaultTexts.{tree_text};

    ghost output = { λ kind. Some (tree_text kind.fault) };

    fn fmt<W: fmt::Write>(&self, f: &mut fmt::Formatter<W>) -> fmt::Result {
        match self.fault {
            TreeFault::NoCode(n) => write!(f, "{n}: NoCode"),
            TreeFault::Jump(n) => write!(f, "{n}: Jump"),
            TreeFault::TooDeep(n) => write!(f, "{n}: TooDeep"),
            TreeFault::Blank(n) => write!(f, "{n}: Blank"),
            TreeFault::IsTotal(n) => write!(f, "{n}: IsTotal"),
            TreeFault::Twice(n) => write!(f, "{n}: Twice"),
            TreeFault::TooMany(n) => write!(f, "{n}: TooMany"),
            TreeFault::Memory => write!(f, "0: Memory"),
        }
    }
}
