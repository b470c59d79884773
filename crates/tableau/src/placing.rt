ghost use Rattle.std.specs.Prelude.{◌≡◌, length};
ghost use Rattle.tableau.specs.NewRows.{placed_lists};

use sdc_base::Items;

// Puts the rows that are made in the places of the old ones, the last one first, and leaves the others.
pub(crate) fn place_rows(
    rows: &mut Vec<Items<(u32, i128)>>,
    mut news: Vec<Option<Items<(u32, i128)>>>,
)
    requires { length news.items ≡ length rows.old.items }
    ensures { rows.new.items ≡ placed_lists rows.old.items news.items }
{
    'place: while let Some(new) = news.pop() {
        let k = news.len();
        if let Some(made) = new {
            rows[k] = made;
        }
    }
}
