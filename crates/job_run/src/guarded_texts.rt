ghost use Rattle.std.specs.Prelude.{◌≡◌, ◌+◌, Ok, IfOk, length};
ghost use Rattle.certificate.specs.Certificates.{certificate_of};
ghost use Rattle.certificate.specs.ExtraReadings.{extra_of};
ghost use Rattle.certificate.specs.ExtraTexts.{extra_text, IsExtraSpellable};
ghost use Rattle.certificate.specs.Spelling.{IsSpellable};
ghost use Rattle.certificate.specs.Texts.{text_of};
ghost use Rattle.job_inputs.specs.TabulatedBooks.{IsBookOf};
ghost use Rattle.job_inputs.specs.declared.inputs.Inputs.{Inputs as AnyInputs};
ghost use Rattle.job_inputs.specs.declared.file_ref.FileRef.TheVariants as AnyFile;
ghost use Rattle.job_run.specs.Books.{IsHidingBook};
ghost use Rattle.job_run.specs.GuardedReleases as releases;

use crate::put::FilePut;
use crate::release_texts::{add_tables, certificate_put};
use attackers::{Extra, write_extra};
use contributor_protection::GuardedCells;
use job_inputs::{DescribedJob, FileRef};
use linked_tables::Book;
use release_writer::Shown;
use sdc_base::{Items, Memory, Text};
use std::alloc::Global;

/// What a guarded release puts: first its certificate, then the contributors' file under this name, and then the tables
/// in the order of the job, which hide the extra cells too.
pub(crate) fn guarded_puts(
    alloc: Global,
    described: &DescribedJob,
    book: &Book,
    name: Text,
    guarded: &GuardedCells,
) -> Result<Items<FilePut>, Memory>
    requires shown { IsHidingBook described.now book.now guarded.now.hidden.flags }
    requires text { IsSpellable guarded.now.certificate }
    requires extra_text { IsExtraSpellable guarded.now.extra }
    ensures puts { IfOk result (λ puts. (inputs : AnyInputs) → inputs.described ≡ described.now
        → IsBookOf inputs book.now
        → puts ≡ releases.puts_of_guarded inputs name guarded.now) }
    ensures each { IfOk result (λ puts. length puts ≡ 2 + length described.now.job.tables) }
    ensures read_back { IfOk result (λ puts. certificate_of (text_of guarded.now.certificate)
        ≡ Ok guarded.now.certificate) }
    ensures extra_read_back { IfOk result (λ puts. extra_of (extra_text guarded.now.extra)
        ≡ Ok guarded.now.extra) }
{
    let shown = Shown::Hidden(&guarded.hidden);
    let mut puts = Items::empty(alloc);
    puts.push(certificate_put(alloc, described, &guarded.certificate)?)?;
    puts.push(contributors_put(alloc, name, &guarded.extra)?)?;
    add_tables(alloc, described, book, shown, &mut puts)?;
    Ok(puts)
}

// The contributors' file.
fn contributors_put(alloc: Global, name: Text, extra: &Extra) -> Result<FilePut, Memory>
    requires { IsExtraSpellable extra.now }
    ensures put { IfOk result (λ put. put
        ≡ record { file = AnyFile.Contributors; name = name; bytes = extra_text extra.now }) }
    ensures read_back { IfOk result (λ put. extra_of (extra_text extra.now) ≡ Ok extra.now) }
{
    let bytes = Items::new(write_extra(alloc, extra)?);
    Ok(FilePut {
        file: FileRef::Contributors,
        name,
        bytes,
    })
}
