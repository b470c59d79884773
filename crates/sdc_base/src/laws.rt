//! Laws of the definitions, each the contract of a function with an empty body.

ghost use Rattle.sdc_base.specs.Trees.{UnderIsTested, FlatIsCodeTree};
ghost use Rattle.sdc_base.specs.CutLaws.{DeeperChangesNothing};
ghost use Rattle.sdc_base.specs.Records.{FallsWhereUnderInEach};
ghost use Rattle.sdc_base.specs.CellOrder.{PlacesAreLexicographic, NamesAreFirst};
ghost use Rattle.sdc_base.specs.Shares.{RankingIsFair};
ghost use Rattle.sdc_base.specs.Examples.{FlatTable, WeightSteps, LastInPart, TwoLevels, SharedMargins, RelationRows, DepthRows};
ghost use Rattle.sdc_base.specs.CubeExamples.{CubeRows};
ghost use Rattle.sdc_base.specs.RuleExamples.{RuleRows};
ghost use Rattle.sdc_base.specs.AddingUp.{TablesAddUp};

/// The test of being under says of each place of a code tree what the walk of its parents says.
#[tactic(auto, using(crate::proofs::Walks::under_is_tested))]
pub fn under_is_tested()
    ensures { UnderIsTested }
{}

/// A total and distinct other codes make a flat code tree.
#[tactic(auto, using(crate::proofs::FlatTrees::flat_is_code_tree))]
pub fn flat_is_code_tree()
    ensures { FlatIsCodeTree }
{}

/// A table to a depth that no code of a tree exceeds has all its codes, and below each all its children.
#[tactic(auto, using(crate::proofs::CutLaws::deeper_changes_nothing))]
pub fn deeper_changes_nothing()
    ensures { DeeperChangesNothing }
{}

/// A record falls in a cell exactly where each of its codes is under the cell's.
#[tactic(auto, using(crate::proofs::InEach::falls_where_under_in_each))]
pub fn falls_where_under_in_each()
    ensures { FallsWhereUnderInEach }
{}

/// The places of a table are all that there are, in lexicographic order.
#[tactic(auto, using(crate::proofs::Places::places_are_lexicographic))]
pub fn places_are_lexicographic()
    ensures { PlacesAreLexicographic }
{}

/// The cells are all names that are given, each once, and those that are given first stand first.
#[tactic(auto, using(crate::proofs::FirstNames::names_are_first))]
pub fn names_are_first()
    ensures { NamesAreFirst }
{}

/// In the ranking each contribution counts as it does by itself, with what stands before it.
#[tactic(auto, using(crate::proofs::Fair::ranking_is_fair))]
pub fn ranking_is_fair()
    ensures { RankingIsFair }
{}

/// The definitions give what small tables come to by hand.
#[tactic(auto, using(crate::proofs::SmallTables::flat_table, crate::proofs::SmallTables::weight_steps, crate::proofs::SmallTables::last_in_part, crate::proofs::SmallTables::two_levels, crate::proofs::SmallTables::shared_margins, crate::proofs::SmallTables::relation_rows, crate::proofs::SmallTables::depth_rows, crate::proofs::SmallTables::rule_rows, crate::proofs::SmallTables::cube_rows))]
pub fn examples()
    ensures flat_table { FlatTable }
    ensures weight_steps { WeightSteps }
    ensures last_in_part { LastInPart }
    ensures two_levels { TwoLevels }
    ensures shared_margins { SharedMargins }
    ensures relation_rows { RelationRows }
    ensures depth_rows { DepthRows }
    ensures rule_rows { RuleRows }
    ensures cube_rows { CubeRows }
{}

/// In every table a total's truth is the sum of its children's, for each variable, where no record has a code with
/// children.
#[tactic(auto, using(crate::proofs::AddingUp::tables_add_up))]
pub fn tables_add_up()
    ensures { TablesAddUp }
{}
