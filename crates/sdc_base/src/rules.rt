ghost use Rattle.std.specs.Prelude.{◌≡◌, ◌↔◌, ◌<◌, ◌≤◌, IsTrue};
ghost use Rattle.sdc_base.specs.Rules.{frequency_names};

/// Whether the frequency rule with `n` names a cell of this frequency, since it has a record but
/// fewer than `n`. Nothing is refused. The rule is the handbook's (sensitivity rules).
pub fn is_too_few(freq: u32, n: u32) -> bool
    ensures exact { IsTrue result ↔ ((1 ≤ freq) × (freq < n)) }
    ensures value { result ≡ frequency_names n freq }
{
    1 <= freq && freq < n
}
