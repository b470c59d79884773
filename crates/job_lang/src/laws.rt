//! Laws of jobs, each the contract of a function with an empty body.

ghost use Rattle.job_lang.specs.Laws.{IsInOrder, MetadataFit};
ghost use Rattle.job_lang.specs.FileLaws.{PutsAreNotRead, PutsAreNotNamed, PutsDiffer};
ghost use Rattle.job_lang.specs.BindingOrder.{GivesEarliest, GivesFirstKind};
ghost use Rattle.job_lang.specs.Meaning.{JobsAreMeant};
ghost use Rattle.job_lang.specs.WritableJobs.{LinesAreRead, TextIsRead, IsRoundTrip, JobsAreWritable, JobsAreReadAgain};
ghost use Rattle.job_lang.specs.Rows.{EightLines, FullText, FullLines, NameBeforeMissing, RoundedContributorsFirst, OutsideBeforeNames, NumbersBeforeOutside, DepthTwice, DepthFromOneToNine, BindsInAnyOrder, BindsDepths, CodeListMet};
ghost use Rattle.job_lang.specs.BoundNames.{BoundAsNamed};

/// The definitions give what worked jobs say by hand.
#[tactic(auto, using(crate::proofs::RowsHold::eight_lines, crate::proofs::RowsHold::full_text, crate::proofs::RowsHold::full_lines, crate::proofs::RowsHold::name_before_missing, crate::proofs::RowsHold::rounded_contributors, crate::proofs::RowsHold::outside_before_names, crate::proofs::RowsHold::numbers_before_outside, crate::proofs::RowsHold::depth_twice, crate::proofs::RowsHold::depth_range, crate::proofs::RowsHold::bindable, crate::proofs::RowsHold::binds_depths, crate::proofs::RowsHold::code_list_met))]
pub fn worked_jobs()
    ensures eight_lines { EightLines }
    ensures full_text { FullText }
    ensures full_lines { FullLines }
    ensures name_before_missing { NameBeforeMissing }
    ensures rounded_contributors { RoundedContributorsFirst }
    ensures outside_before_names { OutsideBeforeNames }
    ensures numbers_before_outside { NumbersBeforeOutside }
    ensures depth_twice { DepthTwice }
    ensures depth_range { DepthFromOneToNine }
    ensures bindable { BindsInAnyOrder }
    ensures binds_depths { BindsDepths }
    ensures code_list_met { CodeListMet }
{}

/// The fault that is given is the first in the stated order.
#[tactic(auto, using(crate::proofs::FirstFault::in_order))]
pub fn first_fault_is_given()
    ensures { IsInOrder }
{}

/// The fault that binding gives is that of the earliest line that has one, and of a table's line the first of its
/// kinds.
#[tactic(auto, using(crate::proofs::Earliest::gives_earliest, crate::proofs::Earliest::gives_first_kind))]
pub fn binding_order()
    ensures line { GivesEarliest }
    ensures kind { GivesFirstKind }
{}

/// At the places of a bound job stand the variables that its lines name, for every table.
pub fn binding_by_name()
    ensures { BoundAsNamed }
{}

/// No file that is put is one that is read, or another one that is put.
#[tactic(auto, using(crate::proofs::NamesApart::not_named, crate::proofs::PutsApart::differ))]
pub fn names_apart()
    ensures read { PutsAreNotRead }
    ensures put { PutsDiffer }
    ensures named { PutsAreNotNamed }
{}

/// Metadata that were read can have a job bound to them.
#[tactic(auto, using(crate::proofs::MetadataLimits::metadata_fit))]
pub fn metadata_fit()
    ensures { MetadataFit }
{}

/// A job has what its lines state, each by itself, and the defaults where none does.
#[tactic(auto, using(crate::proofs::Meant::are_meant))]
pub fn jobs_are_as_stated()
    ensures { JobsAreMeant }
{}

/// The canonical text of a job is read as that job, with the lines of the text; so a job that has these lines is read
/// again as it is. Each job that was read has such a text, and is read again from it. And each line of such a text is
/// read as what it says.
#[tactic(auto, using(crate::proofs::SpelledLines::lines_read))]
pub fn jobs_are_read_again()
    ensures lines { LinesAreRead }
    ensures text { TextIsRead }
    ensures round_trip { IsRoundTrip }
    ensures writable { JobsAreWritable }
    ensures again { JobsAreReadAgain }
{}
