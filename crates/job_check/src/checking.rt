ghost use Rattle.std.specs.Prelude.{◌≡◌, Err, IfOk};
ghost use Rattle.sdc_base.specs.WhereTold.{WhereTold};
ghost use Rattle.job_inputs.specs.Reading.{HasCause, ReachedFile};
ghost use Rattle.job_inputs.specs.ClassifiedJobs.{HasOnlyLookedOn};
ghost use Rattle.job_inputs.specs.declared.purpose.Purpose.TheVariants.{Release};
ghost use Rattle.job_inputs.specs.declared.stop.InputStop.{InputStop as AnyStop};
ghost use Rattle.job_check.specs.Accepted.{IsReadReleaseAnswer, IsAcceptedRead};
ghost use Rattle.job_check.specs.Answers.{IsReleaseCheckAnswer};
ghost use Rattle.job_check.specs.Reading.{ReleaseComesTo};
ghost use Rattle.job_check.specs.ReleaseFiles.{released_of};

use crate::judging::judge;
use crate::reading::{ReadRelease, read_release};
use crate::stop::CheckStop;
use office_io::Shelf;
use sdc_base::Text;
use std::alloc::Global;

/// Whether the certificate and the tables that stand on the shelf under the names of a job are a release of the job,
/// whoever made them.
///
/// The inputs of the job of this name are read up to its settled cells, as for a release, then the certificate, then
/// the contributors' file where the job names one, and then the tables in the order of the job; the first fault is the
/// answer. Then the certificate and the tables are judged by the relations between the cells, by the cells, and by the
/// trail that the job's method makes: the first fault that `cert_check` names in its order is `NotAccepted`. Where
/// there is none, `Ok` says that the cells which the tables hide protect every primary cell, as the certificate shows,
/// or that the tables are a rounding to the job's base. Want of memory is `Inputs`. Nothing is written, and no question
/// is asked.
///
/// Where the job names a contributors' file, the certificate is judged for its own hidden set, whatever the tables show;
/// its fault is `NotAccepted`. So is then the first line of a table that doesn't hide exactly that set and the extra
/// cells; a number of an extra cell that is none adds nothing. Then the first fault of the extra cells that `attackers`
/// names in its order is `NotGuarded`. Where there is none, `Ok` says too that what the tables hide guards every primary
/// cell against each contributor that doesn't know it.
///
/// Over a shelf that tells nothing, as one over real files, three answers have a cause that counts show: that a file is
/// absent, that one is too long, and that the shelf failed.
///
/// The cost is that of reading each file once, with the records, the certificate and the tables kept in memory, that of
/// the plan, and that of judging, which goes once through each list of the certificate; with a contributors' file also
/// that of finding who alone makes up a cell, once over the records, and of judging its lists. The order is argus's own.
pub fn check_release<S: Shelf>(alloc: Global, shelf: &mut S, name: &Text) -> Result<(), CheckStop>
    // The answer is what the told files come to.
    ensures told { WhereTold (S.state shelf.old).files (λ fs. IsReleaseCheckAnswer (released_of fs name.now) result) }

    // Where the shelf failed at a file, it is one to which the check came with no fault before it.
    ensures came_to { WhereTold (S.state shelf.old).files (λ fs. (e : AnyStop) → result ≡ Err (CheckStop.Inputs e)
        → ReachedFile {X = Unit {0}} (ReleaseComesTo fs name.now) (Err e) fs (S.state shelf.new)) }

    // The shelf was only looked at: its files stay, and of the file that was looked for last no more was taken than up
    // to its end, or within the limit for inputs with a fault or for files that were put.
    ensures shelf { HasOnlyLookedOn Release name.now (S.state shelf.old) (S.state shelf.new) }
    ensures cause { (e : AnyStop) → result ≡ Err (CheckStop.Inputs e)
        → HasCause {X = Unit {0}} (Err e) (S.state shelf.old) (S.state shelf.new) }
{
    let _read = accepted_release(alloc, shelf, name)?;
    Ok(())
}

/// The release of a job as [`check_release`] accepts it: the job with its settled cells, and the certificate, the extra
/// cells and the tables that stand under its names.
///
/// It reads, judges and refuses as `check_release` does, at the same cost. The marks of the book may say that other
/// cells are hidden than those of the release; all else of the job is what
/// [`read_settled`](job_inputs::read_settled) gives. The order is argus's own.
pub fn accepted_release<S: Shelf>(
    alloc: Global,
    shelf: &mut S,
    name: &Text,
) -> Result<ReadRelease, CheckStop>
    // The answer is what the told files come to.
    ensures told { WhereTold (S.state shelf.old).files (λ fs. IsReadReleaseAnswer (released_of fs name.now) result) }

    // Where the shelf failed at a file, it is one to which the check came with no fault before it.
    ensures came_to { WhereTold (S.state shelf.old).files (λ fs. (e : AnyStop) → result ≡ Err (CheckStop.Inputs e)
        → ReachedFile {X = Unit {0}} (ReleaseComesTo fs name.now) (Err e) fs (S.state shelf.new)) }

    // The shelf was only looked at: its files stay, and of the file that was looked for last no more was taken than up
    // to its end, or within the limit for inputs with a fault or for files that were put.
    ensures shelf { HasOnlyLookedOn Release name.now (S.state shelf.old) (S.state shelf.new) }
    ensures cause { (e : AnyStop) → result ≡ Err (CheckStop.Inputs e)
        → HasCause {X = Unit {0}} (Err e) (S.state shelf.old) (S.state shelf.new) }
    // Of a shelf that tells nothing too.
    ensures accepted { IfOk result IsAcceptedRead }
{
    let mut read = read_release(alloc, shelf, name)?;
    judge(alloc, &mut read)?;
    Ok(read)
}
