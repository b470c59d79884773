ghost use Rattle.std.specs.Prelude.{◌≡◌, ◌≢◌, ◌↔◌, IfErr, IfOk};
ghost use Rattle.sdc_base.specs.WhereTold.{WhereTold};
ghost use Rattle.job_inputs.specs.ClassifiedJobs.{settled_of};
ghost use Rattle.job_inputs.specs.declared.purpose.Purpose.TheVariants as purpose;
ghost use Rattle.job_run.specs.AuditRuns.{IsAuditRunOf};
ghost use Rattle.job_run.specs.Checks.{IsCheckOf};
ghost use Rattle.job_run.specs.Commands as commands;
ghost use Rattle.job_run.specs.Commands.{AreUsage};
ghost use Rattle.job_run.specs.Demos.{IsDemoRunOf};
ghost use Rattle.job_run.specs.IntervalRuns.{IsIntervalRunOf};
ghost use Rattle.job_run.specs.Migrations.{IsMigrationOf};
ghost use Rattle.job_run.specs.ReleaseRuns.{IsReleaseRunOf, StopsRelease, report_of};
ghost use Rattle.job_run.specs.Promise.{IsPromiseOf};
ghost use Rattle.job_run.specs.PutReleases.{HasReleased};
ghost use Rattle.job_run.specs.Reports.{FaultsHaveCauses, LeavesAll};

use crate::audit_run::put_audit;
use crate::check_run::check_job;
use crate::commands::{audit_names, demo_numbers, interval_names, job_behind, migration_names};
use crate::demo::run_demo;
use crate::interval_run::put_intervals;
use crate::migration::migrate;
use crate::put::Release;
use crate::puts::put_files;
use crate::release::release_for;
use crate::report::Report;
use job_inputs::{Purpose, read_settled};
use office_io::{Shelf, Tray};
use sdc_base::Text;
use std::alloc::Global;

/// Does what the words say: `run JOB` puts a release of a job, `check JOB` says whether the release that stands under
/// the job's names is one, `intervals JOB OUT` puts what a reader of its tables can find out of each hidden cell,
/// `audit JOB OUT` puts what a reader of its rounded tables can find out of each primary cell, `demo SEED RECORDS`
/// protects a made survey of so many records, 1 to 1,000,000, drawn from a seed, and `migrate OLD NEW` puts the
/// certificate OLD again as NEW, in the second version of its text.
///
/// Of a job its metadata, the code lists and hierarchies of its spanning variables and its microdata are looked at in
/// this order, then the number of cells, the a priori files by table, the cells with what is stated of them, and
/// whether a put would take the name of the job's own file, or for `intervals` and `audit` that of any file which the
/// job names; for `check` then the certificate, and for `check`, `intervals` and `audit` the tables. The first fault is
/// the answer. `intervals` refuses a job that rounds as soon as it is read, and `audit` one that doesn't. The microdata
/// are read in pieces, every other file whole. All that is put is made before the first put.
///
/// A job that hides comes to a release, to a cell that can't be protected, or to a question that stopped short; where
/// it names a file for contributors, its hidden set is also guarded against each record's contributor that alone makes
/// up a cell, or a cell can't be guarded. The certificate is put first, then that file, then the tables, which hide the
/// extra cells too. A job that rounds comes to a release, to no rounding, or to a search that stopped short; its
/// primary cells are counted and not hidden.
///
/// Other words are answered with the usage line. Usage, a refusal and a fault of the shelf leave the tray as it was,
/// and so does each answer without a release, intervals, an audit or a certificate that was put again. After a fault of
/// the tray the files put before the one that failed stand whole, and of that one its first bytes may be there; after
/// want of memory some of the files may have been put whole. No file is put twice, and `check` puts nothing. `demo`
/// makes its files in memory, runs its job there in the same way, and says what came of it; it looks neither at the
/// shelf nor at the tray. `migrate` refuses equal names first, then looks at the file OLD alone; what it puts is read
/// as the same certificate. It takes any words, any shelf and any tray.
///
/// Over a shelf that tells nothing, as one over real files, four answers have a cause that counts show: that a file is
/// absent, that one is too long, a read fault and a write fault. What else is refused, and what is put, is said of told
/// files alone.
///
/// The cost is that of reading each file once, with the records kept in memory; one look-up for each record and table,
/// and one for each cell and variable; the bytes of the tables; and that of the questions, or of the search for a
/// rounding. The commands are the manual's, the order in which the inputs are looked at is argus's own.
pub fn run<S: Shelf, T: Tray>(alloc: Global, words: &[Text], shelf: &mut S, tray: &mut T) -> Report
    // What `run JOB` promises: what its answer says of the tables that it put, or of why there are none, by the records,
    // the cells and their sums alone.
    ensures promise { WhereTold (commands.run_job words.now) (λ name. WhereTold (S.state shelf.old).files
        (λ fs. WhereTold (T.state tray.new).files
        (λ out. IsPromiseOf result (settled_of purpose.Release fs name) out))) }

    // What `check JOB` promises where it accepts: the same of the tables that stand under the job's names, whoever made
    // them.
    ensures accepted { WhereTold (commands.check_job words.now) (λ name. WhereTold (S.state shelf.old).files
        (λ fs. IsPromiseOf result (settled_of purpose.Release fs name) fs)) }

    // Usage comes exactly where the words are none of the forms that are built.
    ensures usage { (result ≡ Report.Usage) ↔ AreUsage words.now }

    // What `run JOB`, `check JOB` and `intervals JOB OUT` answer of told files, what they put, and to which files they
    // come.
    ensures release { WhereTold (commands.run_job words.now)
        (λ name. IsReleaseRunOf name result (S.state shelf.old) (S.state shelf.new) (T.state tray.old)
        (T.state tray.new)) }
    ensures check { WhereTold (commands.check_job words.now)
        (λ name. IsCheckOf name result (S.state shelf.old) (S.state shelf.new) (T.state tray.old) (T.state tray.new)) }
    ensures intervals { WhereTold (commands.interval_names words.now)
        (λ names. IsIntervalRunOf names.0 names.1 result (S.state shelf.old) (S.state shelf.new) (T.state tray.old)
        (T.state tray.new)) }

    // What `audit JOB OUT` answers of told files, what it puts, and to which files it comes.
    ensures audit { WhereTold (commands.audit_names words.now)
        (λ names. IsAuditRunOf names.0 names.1 result (S.state shelf.old) (S.state shelf.new) (T.state tray.old)
        (T.state tray.new)) }

    // What `demo SEED RECORDS` answers, whatever the shelf and the tray tell.
    ensures demo { WhereTold (commands.demo_numbers words.now)
        (λ numbers. IsDemoRunOf numbers.0 numbers.1 result (S.state shelf.old) (S.state shelf.new) (T.state tray.old)
        (T.state tray.new)) }

    // What `migrate OLD NEW` answers of told files, what it puts, and to which file it comes.
    ensures migration { WhereTold (commands.migration_names words.now)
        (λ names. IsMigrationOf names.0 names.1 result (S.state shelf.old) (S.state shelf.new) (T.state tray.old)
        (T.state tray.new)) }

    // That the tray is as it was, and that a file is absent or too long, a read fault and a write fault have their
    // cause, whatever the shelf and the tray tell.
    ensures untouched { LeavesAll result (T.state tray.old) (T.state tray.new) }
    ensures cause { FaultsHaveCauses result (S.state shelf.old) (S.state shelf.new) (T.state tray.old)
        (T.state tray.new) }
{
    if let Some(name) = job_behind(b"run".as_slice(), words) {
        return put_release(alloc, name, shelf, tray);
    }
    if let Some(name) = job_behind(b"check".as_slice(), words) {
        return check_job(alloc, name, shelf, tray);
    }
    if let Some((name, out)) = interval_names(words) {
        return put_intervals(alloc, name, out, shelf, tray);
    }
    if let Some((name, out)) = audit_names(words) {
        return put_audit(alloc, name, out, shelf, tray);
    }
    if let Some((seed, records)) = demo_numbers(words) {
        return run_demo(alloc, seed, records);
    }
    if let Some((old, new)) = migration_names(words) {
        return migrate(alloc, old, new, shelf, tray);
    }
    Report::Usage
}

// Puts a release of a job.
fn put_release<S: Shelf, T: Tray>(alloc: Global, name: &Text, shelf: &mut S, tray: &mut T) -> Report
    ensures promise { WhereTold (S.state shelf.old).files (λ fs. WhereTold (T.state tray.new).files
        (λ out. IsPromiseOf result (settled_of purpose.Release fs name.now) out)) }
    ensures release { IsReleaseRunOf name.now result (S.state shelf.old) (S.state shelf.new) (T.state tray.old)
        (T.state tray.new) }
    ensures untouched { LeavesAll result (T.state tray.old) (T.state tray.new) }
    ensures cause { FaultsHaveCauses result (S.state shelf.old) (S.state shelf.new) (T.state tray.old)
        (T.state tray.new) }
{
    match run_job(alloc, name, shelf, tray) {
        Ok(release) => Report::Released(release.summary),
        Err(stop) => stop,
    }
}

// The whole run of a job: everything that is put is made before the first put.
pub(crate) fn run_job<S: Shelf, T: Tray>(
    alloc: Global,
    name: &Text,
    shelf: &mut S,
    tray: &mut T,
) -> Result<Release, Report>
    ensures run { IsReleaseRunOf name.now (report_of result) (S.state shelf.old) (S.state shelf.new) (T.state tray.old)
        (T.state tray.new) }
    ensures untouched { LeavesAll (report_of result) (T.state tray.old) (T.state tray.new) }
    ensures cause { FaultsHaveCauses (report_of result) (S.state shelf.old) (S.state shelf.new) (T.state tray.old)
        (T.state tray.new) }
    ensures stops { IfErr result StopsRelease }
    ensures released { WhereTold (S.state shelf.old).files
        (λ fs. IfOk result (λ release. HasReleased fs name.now release (T.state tray.old) (T.state tray.new))) }
{
    let settled = read_settled(alloc, shelf, name, Purpose::Release)?;
    let release = release_for(alloc, settled)?;
    put_files(tray, release.puts.as_slice())?;
    Ok(release)
}
