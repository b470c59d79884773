use crate::few::Few;

/// A primary rule: it names the cells that disclose a contributor.
///
/// Its numbers are those of the job, in the ranges that stand beside each. The rules are the handbook's, the spelling
/// is that of a job.
#[derive(Clone, Copy, Debug, PartialEq, Eq)]
pub enum Rule {
    /// The frequency rule `FREQ(n,r)`: a cell with a record and fewer than `n` of them, 1 to 1,000,000, is named.
    /// Its protection level is `r` percent of the truth, 0 to 1,000.
    Freq { n: u32, r: u32 },
    /// The dominance rule `NK(n,k)`: a cell is named where its `n` largest contributions, 1 to 10, make up more than
    /// `k` percent of the truth, 1 to 100.
    Nk { n: u8, k: u32 },
    /// The p-percent rule `P(p)`: a cell is named where the contributions but for the two largest come to less than
    /// `p` percent of the largest, 1 to 1,000.
    Percent(u32),
    /// The prior-posterior rule `PQ(p,q)`: contributors are thought to know each contribution to within `q` percent. A
    /// cell is named where `q` percent of the contributions but for the two largest come to less than `p` percent of
    /// the largest. Both are from 1 to 1,000.
    Pq { p: u32, q: u32 },
    /// The rule on zeros `ZERO(r)`: a cell that has a record and shows 0 is named. Its protection level is `r` units,
    /// 1 to 1,000,000,000.
    Zero(u32),
}

impl Default for Rule {
    /// A rule to fill unused room with.
    fn default() -> Rule {
        Rule::Percent(1)
    }
}

/// The primary rules of a job.
#[derive(Drop)]
pub struct Rules {
    /// At most eight rules.
    pub list: Few<Rule, 8>,
    /// The protection level of cells that are declared unsafe, in percent of the truth, 0 to 1,000; 20 where the job
    /// says nothing.
    pub man: u32,
    /// Whether records have weights.
    pub weighted: bool,
}
