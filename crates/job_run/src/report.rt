use attackers::{Against, ExtraFault};
use cert_check::CheckFault;
use certificate::Certificate;
use interval_audit::{Question, Walk, WidePlace};
use job_inputs::{Fault, FileRef};
use repair::Stopped;
use sdc_base::{Items, Side};
use worlds::{Multipliers, Refuted};

/// The numbers of a release.
#[derive(Clone, Copy, Debug, PartialEq, Eq)]
pub struct Summary {
    /// Records that were read, without the skipped ones.
    pub records: u64,
    /// Records that were skipped.
    pub skipped: u64,
    /// Lines of the metadata that were passed over.
    pub passed_over: u32,
    /// Cells of all tables.
    pub cells: u32,
    /// Primary cells.
    pub primary: u32,
    /// Hidden cells, the primary and the extra ones with them; 0 where the job rounds.
    pub hidden: u32,
}

/// What came of a demonstration.
#[derive(Drop)]
pub struct DemoSummary {
    /// The status: 0 for a release, 2 for a refusal, 3 for a cell that can't be protected, 4 for a question that
    /// stopped short.
    pub status: u8,
    /// The numbers of the release, exactly where the status is 0.
    pub summary: Option<Summary>,
    /// The certificate of the release, exactly where the status is 0.
    pub certificate: Option<Certificate>,
    /// The question that stopped short, exactly where the status is 4, with the repairs and the cells shown again until
    /// then. Never want of memory.
    pub stopped: Option<Stopped>,
}

/// Why a question, or the search for a rounding, stopped short of an answer.
#[derive(Drop)]
pub enum Stuck {
    /// Its walk made as many improvements as the job allows, and goes on from there.
    Work(Walk),
    /// Its walk needs a number of more than 128 bits at this place.
    Wide(Walk, WidePlace),
    /// The component of its cell has too many hidden cells.
    Size { question: Question, hidden: u32 },
    /// The search for a rounding has so many lists of choices or more, which are as many as the job allows, and none of
    /// the first so many is a rounding.
    Nodes(u64),
}

/// What a run of the words comes to.
#[derive(Drop)]
pub enum Report {
    /// The certificate and the tables were put, and the contributors' file where the job names one.
    Released(Summary),
    /// The certificate and the tables that stand under the job's names are a release of it.
    Accepted,
    /// The intervals of so many hidden cells were put.
    Intervals(u32),
    /// The audit of a rounded release was put: it has so many primary cells, of which so many are exposed, that is, not
    /// covered on some side.
    Audited {
        primary: u32,
        exposed: u32,
    },
    /// What came of a demonstration.
    Demo(DemoSummary),
    /// A certificate was put again, in the second version of its text.
    Migrated,
    /// The words are none of the six forms.
    Usage,
    /// The inputs have this fault, and nothing was put.
    Refused(Fault),
    /// The job hides cells, and no permitted hidden set protects this cell to this side, the first such pair: the
    /// multipliers refute it with all cells hidden that may be. Cells are numbered from 0. Nothing was put.
    Cannot {
        cell: u32,
        side: Side,
        multipliers: Multipliers,
    },
    /// The job names a file for contributors, and a hidden set protects every primary cell, but no permitted one guards
    /// this cell to this side against the contributor at this row, the first such row, cell and side: the multipliers
    /// refute it with all cells hidden that may be but those that the contributor knows. Rows are numbered from 0 among
    /// those that weren't skipped. Nothing was put.
    CannotAgainst {
        row: u32,
        cell: u32,
        side: Side,
        multipliers: Multipliers,
    },
    /// The job rounds, and no numbers at all are a rounding of its truths to its base. Nothing was put.
    NoRounding,
    /// The certificate and the tables that stand under the job's names have this fault; for intervals and an audit, the
    /// tables do. Where the files are told, never want of memory. Nothing was put.
    NotAccepted(CheckFault),
    /// The certificate shows that its own hidden set protects, and the tables hide exactly that set and the extra
    /// cells, but the file of contributors has this fault. Where the files are told, never want of memory. Nothing was
    /// put.
    NotGuarded(ExtraFault),
    /// A question stopped short, after these repairs and with these cells shown again, ascending, the last of which may
    /// be one that was being tried; or the search for a rounding did, or a question of intervals or an audit, and both
    /// lists are empty. Where it is a question against a contributor, the repairs and the shown cells are all those of the
    /// hidden set that is to be guarded. Nothing was put.
    Undecided {
        stuck: Stuck,
        repairs: Items<Refuted>,
        shown: Items<u32>,
        against: Option<Against>,
    },
    /// The shelf failed at this file, and nothing was put.
    ReadFault(FileRef),
    /// The tray failed at this file: the files put before it stand whole.
    WriteFault(FileRef),
    /// There was no memory: some of the files may have been put whole.
    Memory,
}
