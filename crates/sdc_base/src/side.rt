ghost use Rattle.std.specs.Prelude.{◌≡◌};
ghost use Rattle.sdc_base.specs.Sides.{side_word};

/// A side of a cell's truth.
#[derive(Clone, Copy, Debug, PartialEq, Eq)]
pub enum Side {
    /// What lies above the truth.
    Above,
    /// What lies below the truth.
    Below,
}

impl Side {
    /// The word by which texts name the side: `above` or `below`.
    pub fn word(self) -> &'static str
        ensures { result.now ≡ side_word self }
    {
        match self {
            Side::Above => "above",
            Side::Below => "below",
        }
    }
}
