use sdc_base::Rule;

/// One of the rules that bars join: one that names cells, the level of cells that are declared unsafe, or whether
/// records have weights.
#[derive(Clone, Copy, Debug, PartialEq, Eq)]
pub(crate) enum RuleClause {
    Named(Rule),
    Man(u32),
    Weights(bool),
}
