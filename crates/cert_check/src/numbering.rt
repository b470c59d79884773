ghost use Rattle.std.specs.Prelude.{◌≡◌};
ghost use Rattle.worlds.specs.ProtectFaults.{line_number};

/// The number of a place in 32 bits, the greatest one for all beyond.
pub(crate) fn number_of(place: usize) -> u32
    ensures { result ≡ line_number place }
{
    place.min(4294967295) as u32
}
