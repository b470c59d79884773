ghost use Rattle.std.specs.Prelude.{◌≡◌, ◌∷◌, ◌++◌, ◌<◌, ◌≤◌, [], length};
ghost use Rattle.sdc_base.specs.Cells.{code_for, name_of};

use crate::dimension::Dimension;
use crate::few::{Few, Place};
use arrayvec::ArrayVec;

/// The name of the cell that stands at a table's place: the place's code for each variable that the
/// table spans, and the total's for the others.
///
/// There are at most 8 variables, numbered from 0; the place has a code for each variable of the table,
/// in the table's order. It takes no memory, and looks through the table once for each variable. Cells of linked
/// tables are the manual's.
#[tactic(auto, using(crate::proofs::PlaceLists::name_length, crate::proofs::PlaceLists::name_more))]
pub fn name_at(variables: usize, table: &[Dimension], place: &[u32]) -> Place
    requires { variables ≤ 8 }
    ensures { result ≡ name_of variables table.now place.now }
{
    let mut items: ArrayVec<u32, 8> = ArrayVec::new();
    'variables: for variable in 0..variables {
        items.push(code_at(table, place, variable as u32));
    }
    Few::new(items)
}

/// A place with a code more, for the next variable of a table.
///
/// The place has fewer than 8 codes. It takes no memory, and copies each code once. That a table has at most eight
/// variables is argus's own.
pub fn with_code(place: &[u32], code: u32) -> Place
    requires { length place.now < 8 }
    ensures { result ≡ place.now ++ code ∷ [] }
{
    let mut longer: ArrayVec<u32, 8> = ArrayVec::new();
    'codes: for next in place {
        longer.push(*next);
    }
    longer.push(code);
    Few::new(longer)
}

// The code that a table's place has for a variable.
fn code_at(table: &[Dimension], place: &[u32], variable: u32) -> u32
    ensures { result ≡ code_for table.now place.now variable }
{
    for (k, dimension) in table.iter().enumerate() {
        if k >= place.len() {
            return 0;
        }
        if dimension.variable == variable {
            return place[k];
        }
    }
    0
}
