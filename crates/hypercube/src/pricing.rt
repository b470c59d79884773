ghost use Rattle.std.specs.Prelude.{◌≡◌, if◌then◌else◌, All};
ghost use Rattle.sdc_base.specs.CubeOrder as spec;
ghost use Rattle.cost_rule.specs.Costs.{AreCosted};
ghost use Rattle.hypercube.specs.LeastCubes.{is_marked, price_in};

use cost_rule::{CostRule, TellsCosts};
use linked_tables::Book;
use sdc_base::{Cell, Corner};

/// The prices of the corners that aren't hidden yet, together.
pub(crate) fn price_of_hiding<F: TellsCosts>(
    book: &Book,
    cells: &[Cell],
    rule: &CostRule<F>,
    corners: &[Corner],
) -> u128
    requires costed { All (λ mark. AreCosted mark.facts) book.now.marks }
    ensures { result ≡ spec.price_of_hiding (is_marked book.now) (price_in book.now cells.now rule.now) corners.now }
{
    let mut sum: u128 = 0;
    for corner in corners {
        sum += u128::from(price_to_hide(book, cells, rule, corner.cell));
    }
    sum
}

/// The price of a cell, and 0 where it is hidden.
pub(crate) fn price_to_hide<F: TellsCosts>(
    book: &Book,
    cells: &[Cell],
    rule: &CostRule<F>,
    cell: u32,
) -> u64
    requires costed { All (λ mark. AreCosted mark.facts) book.now.marks }
    ensures { result ≡ (if is_marked book.now cell then 0 else price_in book.now cells.now rule.now cell) }
{
    let Some(mark) = book.marks().get(cell as usize) else {
        return 0;
    };
    if mark.hidden {
        return 0;
    }
    let Some(one) = cells.get(cell as usize) else {
        return 0;
    };
    rule.price(one, &mark.facts)
}
