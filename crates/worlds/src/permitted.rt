ghost use Rattle.std.specs.Prelude.{◌≡◌, ◌<◌, ◌^◌, length};
ghost use Rattle.worlds.specs.ProtectFaults.{primary_shown, fixed_hidden};

use sdc_base::Cell;

/// The first primary cell that is shown, if there is one, by a flag for each cell.
///
/// Nothing is refused, and it takes one look at each cell. That every sensitive cell is hidden is the handbook's rule of
/// primary suppression.
pub fn shown_primary(cells: &[Cell], flags: &[bool]) -> Option<u32>
    requires flags { length flags.now ≡ length cells.now }
    requires fewer_than_2_32 { length cells.now < 2 ^ 32 }
    ensures { result ≡ primary_shown flags.now 0 cells.now }
{
    for (number, cell) in cells.iter().enumerate() {
        if cell.kind.is_primary() && !flags[number] {
            return Some(number as u32);
        }
    }
    None
}

/// The first fixed cell that is hidden, if there is one, by a flag for each cell.
///
/// Nothing is refused, and it takes one look at each cell. Fixed cells are argus's own.
pub fn hidden_fixed(cells: &[Cell], flags: &[bool]) -> Option<u32>
    requires flags { length flags.now ≡ length cells.now }
    requires fewer_than_2_32 { length cells.now < 2 ^ 32 }
    ensures { result ≡ fixed_hidden flags.now 0 cells.now }
{
    for (number, cell) in cells.iter().enumerate() {
        if cell.kind.is_fixed() && flags[number] {
            return Some(number as u32);
        }
    }
    None
}
