ghost use Rattle.std.specs.Prelude.{◌≡◌, ◌+◌, ◌<◌, ◌^◌, length};
ghost use Rattle.tableau.specs.Entries.{AreSparse, AreSparse-prop};

use sdc_base::Items;

// A table whose rows are kept as lists of a place with the number there, ascending, without zeros; each row is in lowest
// terms over a den of its own. The place behind those of the others is the value's, the one behind that the own den's,
// and the objective's row is the last. The table's den is the least that all own dens divide; the members' values and
// the objective's numbers are kept over it, too.
#[derive(Drop)]
pub(crate) struct SparseTable {
    pub(crate) den: i128,
    pub(crate) members: Vec<u32>,
    pub(crate) others: Vec<u32>,
    pub(crate) rows: Vec<Items<(u32, i128)>>,
    pub(crate) values: Vec<i128>,
    pub(crate) objective: Vec<i128>,
    ghost filled: { length rows.items ≡ length members.items + 1 },
    ghost fewer_than_2_32: { length others.items + 2 < 2 ^ 32 },
    ghost each: { AreSparse (length others.items + 2) rows.items } by { AreSparse-prop (length others.items + 2) rows.items },
}

impl SparseTable {
    // How many members there are, which is the place of the objective's row.
    pub(crate) fn height(&self) -> usize
        ensures { result ≡ length self.now.members.items }
    {
        self.members.len()
    }

    // How many others there are, which is the place of the value in a row.
    pub(crate) fn width(&self) -> usize
        ensures { result ≡ length self.now.others.items }
    {
        self.others.len()
    }
}
