ghost use Rattle.std.specs.Prelude.{◌≡◌, ◌<◌, ◌^◌, IfOk, length};
ghost use Rattle.sdc_base.specs.Answers.{Gives};
ghost use Rattle.cert_check.specs.FirstFault.{check_fault_of};
ghost use Rattle.published_tables.specs.TablesOnShelf.{IsReadyShelved};
ghost use Rattle.published_tables.specs.HiddenLines.{fixed_fault, flags_in, lines_read};

use crate::shelved::ShelvedJob;
use cert_check::CheckFault;
use job_inputs::table_names;
use release_writer::{hidden_of, hidden_sets_are_read_back};
use sdc_base::{Cell, Hidden};
use std::alloc::Global;
use worlds::hidden_fixed;

/// The cells that the tables of a job hide, or the first fault of the tables: the first line that the texts of no
/// hidden set have, or else the first fixed cell that is hidden.
#[tactic(auto, unfolding(crate::specs::HiddenLines::flags_in))]
pub(crate) fn hidden_in(alloc: Global, shelved: &ShelvedJob) -> Result<Hidden, CheckFault>
    requires { IsReadyShelved shelved.now }
    ensures exact { Gives check_fault_of (λ hidden. hidden.flags) result (flags_in shelved.now.job shelved.now.tables) }
    ensures each { IfOk result (λ hidden. length hidden.flags ≡ length shelved.now.job.cells) }
{
    let hidden = hidden_by_lines(alloc, shelved)?;
    check_fixed(shelved.job.cells.as_slice(), hidden.flags.as_slice())?;
    Ok(hidden)
}

// The cells that the tables hide, or the first bad line.
fn hidden_by_lines(alloc: Global, shelved: &ShelvedJob) -> Result<Hidden, CheckFault>
    requires { IsReadyShelved shelved.now }
    ensures exact { Gives check_fault_of (λ hidden. hidden.flags) result
        (lines_read shelved.now.job shelved.now.tables) }
    ensures each { IfOk result (λ hidden. length hidden.flags ≡ length shelved.now.job.cells) }
{
    let job = &shelved.job;
    let names = table_names(alloc, &job.described.job)?;
    let decimals = job.described.bound.decimals;
    let tables = shelved.tables.as_slice();
    let hidden = hidden_of(alloc, &job.book, names.as_slice(), decimals, tables)?;
    // for the proof: what is read has a flag for each cell.
    hidden_sets_are_read_back();
    Ok(hidden)
}

// Refuses a hidden set in which a fixed cell is hidden.
fn check_fixed(cells: &[Cell], flags: &[bool]) -> Result<(), CheckFault>
    requires flags { length flags.now ≡ length cells.now }
    requires fewer_than_2_32 { length cells.now < 2 ^ 32 }
    ensures { result ≡ fixed_fault cells.now flags.now }
{
    match hidden_fixed(cells, flags) {
        Some(number) => Err(CheckFault::FixedHidden(number)),
        None => Ok(()),
    }
}
