ghost use Rattle.std.specs.Prelude.{◌≡◌, ◌<◌, ◌+◌, ◌++◌, [], Ok, IfOk, OnOk, length, slice_index_or};
ghost use Rattle.certificate.specs.Spelling.{IsSpellable};
ghost use Rattle.certificate.specs.Certificates.{certificate_of};
ghost use Rattle.certificate.specs.Texts.{text_of};
ghost use Rattle.job_inputs.specs.TabulatedBooks.{IsBookOf};
ghost use Rattle.job_inputs.specs.declared.inputs.Inputs.{Inputs as AnyInputs};
ghost use Rattle.job_run.specs.Books.{IsShownBook, shown_by, puts_of_shown_tables, put_of_shown_table};
ghost use Rattle.job_run.specs.Releases as releases;

use crate::put::FilePut;
use certificate::{Certificate, write_certificate};
use job_inputs::{DescribedJob, FileRef, header_for};
use job_lang::{OutputLine, TableLine};
use linked_tables::Book;
use release_writer::{Shown, table_bytes};
use sdc_base::{Items, Memory};
use std::alloc::Global;

/// What a release puts: first its certificate, and then the tables in the order of the job, whose cells show this.
pub(crate) fn puts_for(
    alloc: Global,
    described: &DescribedJob,
    book: &Book,
    shown: Shown<'_>,
    certificate: &Certificate,
) -> Result<Items<FilePut>, Memory>
    requires shown { IsShownBook described.now book.now shown }
    requires text { IsSpellable certificate.now }
    ensures puts { IfOk result (λ puts. (inputs : AnyInputs) → inputs.described ≡ described.now
        → IsBookOf inputs book.now
        → puts ≡ releases.puts_of inputs (shown_by inputs shown.entry) certificate.now) }
    ensures each { IfOk result (λ puts. length puts ≡ 1 + length described.now.job.tables) }
    ensures read_back { IfOk result (λ puts. certificate_of (text_of certificate.now) ≡ Ok certificate.now) }
{
    let mut puts = Items::empty(alloc);
    puts.push(certificate_put(alloc, described, certificate)?)?;
    add_tables(alloc, described, book, shown, &mut puts)?;
    Ok(puts)
}

/// The put of a certificate.
pub(crate) fn certificate_put(
    alloc: Global,
    described: &DescribedJob,
    certificate: &Certificate,
) -> Result<FilePut, Memory>
    requires { IsSpellable certificate.now }
    ensures put { IfOk result (λ put. put
        ≡ record {
          file = FileRef.Certificate;
          name = described.now.job.certificate;
          bytes = text_of certificate.now;
        }) }
    ensures read_back { IfOk result (λ put. certificate_of (text_of certificate.now) ≡ Ok certificate.now) }
{
    Ok(FilePut {
        file: FileRef::Certificate,
        name: described.job.certificate.copy(alloc)?,
        bytes: Items::new(write_certificate(alloc, certificate)?),
    })
}

/// Adds the tables in the order of the job.
pub(crate) fn add_tables(
    alloc: Global,
    described: &DescribedJob,
    book: &Book,
    shown: Shown<'_>,
    puts: &mut Items<FilePut>,
) -> Result<(), Memory>
    requires shown { IsShownBook described.now book.now shown }
    ensures puts { OnOk result ((inputs : AnyInputs) → inputs.described ≡ described.now → IsBookOf inputs book.now
        → puts.new ≡ puts.old ++ puts_of_shown_tables inputs shown.entry described.now.job) }
    ensures each { OnOk result (length puts.new ≡ length puts.old + length described.now.job.tables) }
{
    let outputs = described.job.outputs.as_slice();
    'tables: for (t, line) in described.job.tables.as_slice().iter().enumerate() {
        let put = table_put(alloc, described, book, shown, t as u32, line, &outputs[t])?;
        puts.push(put)?;
    }
    Ok(())
}

// A table, with its line of the job and its output.
fn table_put(
    alloc: Global,
    described: &DescribedJob,
    book: &Book,
    shown: Shown<'_>,
    t: u32,
    line: &TableLine,
    output: &OutputLine,
) -> Result<FilePut, Memory>
    requires shown { IsShownBook described.now book.now shown }
    requires table { t < length book.now.tables }
    requires header { length line.now.variables ≡ length (slice_index_or book.now.tables t []) }
    ensures { IfOk result (λ put. (inputs : AnyInputs) → inputs.described ≡ described.now → IsBookOf inputs book.now
        → put ≡ put_of_shown_table inputs shown.entry t line.now output.now) }
{
    let header = header_for(alloc, line)?;
    let decimals = described.bound.decimals;
    let bytes = table_bytes(alloc, book, t, header.as_slice(), decimals, shown)?;
    Ok(FilePut {
        file: FileRef::Table(t),
        name: output.file.copy(alloc)?,
        bytes: Items::new(bytes),
    })
}
