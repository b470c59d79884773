ghost use Rattle.std.specs.Prelude.{◌≡◌, ◌≤◌, length};
ghost use Rattle.interval_audit.specs.Groups.{IsGroup, group_of, members, most_members};
ghost use Rattle.interval_audit.specs.Labels.{met_relations};

use crate::question::Question;
use worlds::Pattern;

// A question with what it is asked of: a suppression pattern, the number of each cell's component, none for a shown
// cell, and the relations in which a cell of the asked cell's component stands, ascending. The asked cell's component is
// one with at most 4,000 cells.
#[derive(Drop)]
pub(crate) struct Inquiry<'a, 'b> {
    pub pattern: Pattern<'b>,
    pub of: &'a [Option<u32>],
    pub met: &'a [u32],
    pub question: Question,
    ghost met_are: { met.now ≡ met_relations (group_of of.now question.cell) pattern.system.now.relations },
    ghost within_most_members: { length (members (group_of of.now question.cell) pattern.system.now.cells)
        ≤ most_members },
    ghost group: { IsGroup pattern.system.now pattern.hidden.now.flags (group_of of.now question.cell) question.cell },
}
