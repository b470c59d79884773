//! Laws of releases, each the contract of a function with an empty body.

ghost use Rattle.job_run.specs.Laws.{CellsShowAdjacent, ShownMarginsAddUp};
ghost use Rattle.job_run.specs.SecondRuns.{SecondRunsComplete};

/// Where values are a rounding of a job's cells, each cell has a multiple of the base less than one base from the weighted
/// sum of its records; and a cell of a table that spans a variable and goes below the cell's code, with codes right below
/// that one, has the sum of what the cells with one of these codes in its place have.
pub fn rounded_tables_add_up()
    ensures adjacent { CellsShowAdjacent }
    ensures margins { ShownMarginsAddUp }
{}

/// After a run that stopped at a write fault, a second one over the same files that releases leaves the whole release,
/// and every file that the job doesn't put as it was before the first.
pub fn second_runs_complete()
    ensures { SecondRunsComplete }
{}
