//! Laws of the intervals and audits of tables, each the contract of a function that does nothing.

ghost use Rattle.published_tables.specs.HiddenLines.{flags_in};
ghost use Rattle.published_tables.specs.Laws.{AreReadAlike, AuditedHaveNoFault, HaveOneFile};
ghost use Rattle.published_tables.specs.ShownValues.{values_read};

use cell_intervals::file_is_one;

/// What the tables of a job hide, the numbers that its rounded tables show, and the first fault of both are those of its
/// settled inputs and the tables.
pub fn tables_are_read_alike()
    ensures hidden { AreReadAlike flags_in }
    ensures rounded { AreReadAlike values_read }
{}

/// The tables of a job have one file of intervals.
pub fn tables_have_one_file()
    ensures { HaveOneFile }
{
    file_is_one();
}

/// Tables of a job that have a file of their audit have no fault.
pub fn audited_tables_have_no_fault()
    ensures { AuditedHaveNoFault }
{}
