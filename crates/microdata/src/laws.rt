//! Laws of microdata, as contracts of functions that do nothing.

ghost use Rattle.microdata.specs.Laws.{FaultsStand};
ghost use Rattle.microdata.specs.Leaves.{RowsAreAtLeaves};
ghost use Rattle.microdata.specs.Meaning.{RowsAreTheirRecords, FaultsAreNumbered};
ghost use Rattle.microdata.specs.OtherOrder.{OrderChangesNoTree};
ghost use Rattle.microdata.specs.Ranges.{ReadIsWithinLimits};

/// Whatever is read is within its limits: at most a million records, each with one place in each tree, with a
/// value from 0 and below `10^15` units and a weight of at least one and below `10^8` steps; and there are as many
/// trees as spanning variables.
pub fn read_is_within_limits()
    ensures { ReadIsWithinLimits }
{}

/// A fault that a reader finds before all bytes are there is the fault of all of them, whatever follows.
pub fn faults_stand()
    ensures { FaultsStand }
{}

/// The rows are those of the records with a response, in their order, each as its record says by itself: its places
/// are those of the codes in the record's fields, and no other places have these codes; its value and weight are those
/// that stand there. The records without a response are counted.
pub fn rows_are_their_records()
    ensures { RowsAreTheirRecords }
{}

/// A fault is given with the number of a record, in which every line of at least one byte is counted, skipped records
/// too.
pub fn faults_are_numbered()
    ensures { FaultsAreNumbered }
{}

/// The order of the records changes nothing but the order of the rows: where the lines of one text are those of
/// another in some order, and both are read, their trees are the same, each row of one is a row of the other with
/// the same places, value and weight, and as many records were skipped.
pub fn order_changes_no_tree()
    ensures { OrderChangesNoTree }
{}

/// The records that were read are at the lowest level of each tree: below the place of a row's code there is no other
/// code, whichever record or file brought it.
pub fn rows_are_at_leaves()
    ensures { RowsAreAtLeaves }
{}
