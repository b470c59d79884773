//! Laws of the definitions, each the contract of a function with an empty body.

ghost use Rattle.tableau.specs.TableLaws.{ExchangeOperates, ExchangeKeeps, ExchangeKeepsBack, DivisionKeeps, BlockedIsBest};
ghost use Rattle.tableau.specs.Problems.{StartHolds, TablesGiveDuals, NoRowIsZero};
ghost use Rattle.tableau.specs.RowLists.{ExchangeRises, DivisionRises, RisingIsTransitive, RisingIsApart, BasisDetermines};
ghost use Rattle.tableau.specs.BlockedTables.{BlockedIsOne, BlockedAnyTable, BlockedAnyChain, BlockedIsNotReached};
ghost use Rattle.tableau.specs.OptimalPairs.{PairIsRead, PairIsNotReached, PairEnds, PairInIsRead, PairInIsNotReached, PairInEnds, TableGivesPair, TableGivesPairIn};
ghost use Rattle.tableau.specs.Walks.{StepGivesTable, ChainsAreShort, StartGivesTable, WalkGivesTable, WalksAreShort, StepExists, StepIsOne, WalkIsOne, EndIsOne, EndExists};
ghost use Rattle.tableau.specs.Solutions.{ValuesAreFeasible, TargetBounds, SomeMemberLeaves, NoneBelow, ComplementarySlackness, TargetIsFree};
ghost use Rattle.tableau.specs.WorkedRows.{OneRow, TwoWide};

/// The first table is true of a problem's amounts. An exchange is a row operation, which takes nothing away and adds
/// nothing, and so does its division.
pub fn exchanges_keep()
    ensures start { StartHolds }
    ensures operates { ExchangeOperates }
    ensures exchange { ExchangeKeeps }
    ensures back { ExchangeKeepsBack }
    ensures division { DivisionKeeps }
{}

/// With the choice of the member that leaves, the rows' lists stay above 0 and the objective's list rises. No row is 0
/// at every slack, and a basis determines the objective's list.
pub fn lists_rise()
    ensures independent { NoRowIsZero }
    ensures rises { ExchangeRises }
    ensures division_rises { DivisionRises }
    ensures transitive { RisingIsTransitive }
    ensures apart { RisingIsApart }
    ensures basis { BasisDetermines }
{}

/// From every table that can be improved there is one step, and what a step keeps holds of every table of a walk. No
/// basis comes twice, so walks are short, and a problem has one walk to an end, and always one.
pub fn walks_are_one_and_short()
    ensures begins { StartGivesTable }
    ensures step { StepGivesTable }
    ensures walk { WalkGivesTable }
    ensures some_step { StepExists }
    ensures one_step { StepIsOne }
    ensures one_walk { WalkIsOne }
    ensures one_end { EndIsOne }
    ensures some_end { EndExists }
    ensures chains { ChainsAreShort }
    ensures short { WalksAreShort }
{}

/// Whatever way led to them, the tables of a problem where no number in the objective's row is below 0 have the same
/// value and the same numbers at every column and slack.
pub fn blocked_tables_are_one()
    ensures objective { BlockedIsOne }
    ensures any_table { BlockedAnyTable }
    ensures any_chain { BlockedAnyChain }
    ensures not_reached { BlockedIsNotReached }
{}

/// Whatever found a pair of solutions of a problem and of its dual that show each other to be the best, in lexicographic
/// order, its weights are the numbers at the slacks of each blocked table of the problem, and its value is theirs.
/// And a pair of a larger problem, where columns may be left out, gives those of a smaller one.
pub fn pairs_are_read()
    ensures read { PairIsRead }
    ensures not_reached { PairIsNotReached }
    ensures ends { PairEnds }
    ensures read_in { PairInIsRead }
    ensures not_reached_in { PairInIsNotReached }
    ensures ends_in { PairInEnds }
    ensures table { TableGivesPair }
    ensures table_in { TableGivesPairIn }
{}

/// The values of a table are amounts that its problem allows, with the objective at most the target, so some member
/// always leaves. The objective's numbers at the slacks weigh the rows, and where none is below 0 no amounts give more.
pub fn tables_solve()
    ensures feasible { ValuesAreFeasible }
    ensures bounded { TargetBounds }
    ensures leaves { SomeMemberLeaves }
    ensures duals { TablesGiveDuals }
    ensures none_below { NoneBelow }
    ensures blocked { BlockedIsBest }
    ensures value_or_number { ComplementarySlackness }
    ensures target_free { TargetIsFree }
{}

/// The definitions give what small problems come to by hand.
#[tactic(auto, using(crate::proofs::SmallProblems::one_row_is, crate::proofs::SmallProblems::two_wide_is))]
pub fn worked_rows()
    ensures one_row { OneRow }
    ensures two_wide { TwoWide }
{}
