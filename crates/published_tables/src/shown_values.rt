ghost use Rattle.std.specs.Prelude.{◌≡◌, IfOk, length};
ghost use Rattle.sdc_base.specs.Answers.{Gives};
ghost use Rattle.cert_check.specs.FirstFault.{check_fault_of};
ghost use Rattle.published_tables.specs.TablesOnShelf.{IsReadyShelved};
ghost use Rattle.published_tables.specs.ShownValues.{values_read};

use crate::shelved::ShelvedJob;
use cert_check::CheckFault;
use job_inputs::table_names;
use release_writer::{rounded_numbers_have_texts, rounded_of};
use sdc_base::Items;
use std::alloc::Global;

/// The numbers whose texts the tables of a job are, or the first line that the texts of none have.
pub(crate) fn values_in(alloc: Global, shelved: &ShelvedJob) -> Result<Items<i128>, CheckFault>
    requires { IsReadyShelved shelved.now }
    ensures exact { Gives check_fault_of (λ values. values) result (values_read shelved.now.job shelved.now.tables) }
    ensures each { IfOk result (λ values. length values ≡ length shelved.now.job.cells) }
{
    let job = &shelved.job;
    let names = table_names(alloc, &job.described.job)?;
    let decimals = job.described.bound.decimals;
    let tables = shelved.tables.as_slice();
    let values = rounded_of(alloc, &job.book, names.as_slice(), decimals, tables)?;
    // for the proof: there is a number for each cell.
    rounded_numbers_have_texts();
    Ok(values)
}
