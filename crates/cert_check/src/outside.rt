ghost use Rattle.std.specs.Prelude.{◌≡◌, ◌<◌, ◌^◌, length};
ghost use Rattle.cert_check.specs.OutsidePlan as spec;

use crate::faults::CheckFault;

/// Refuses a set that hides a cell which the open set shows.
pub(crate) fn check_outside(larger: &[bool], flags: &[bool]) -> Result<(), CheckFault>
    requires each { length larger.now ≡ length flags.now }
    requires fewer_than_2_32 { length flags.now < 2 ^ 32 }
    ensures { result ≡ spec.outside_fault larger.now flags.now }
{
    match first_outside(larger, flags) {
        Some(number) => Err(CheckFault::Outside(number)),
        None => Ok(()),
    }
}

// The first cell that is hidden in the second set alone.
fn first_outside(larger: &[bool], flags: &[bool]) -> Option<u32>
    requires each { length larger.now ≡ length flags.now }
    requires fewer_than_2_32 { length flags.now < 2 ^ 32 }
    ensures { result ≡ spec.first_outside larger.now 0 flags.now }
{
    for (number, hidden) in flags.iter().enumerate() {
        if *hidden && !larger[number] {
            return Some(number as u32);
        }
    }
    None
}
