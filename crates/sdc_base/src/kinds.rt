ghost use Rattle.std.specs.Prelude.{◌≡◌};
ghost use Rattle.sdc_base.specs.Kinds.{is_primary, is_free, is_fixed};

use crate::cell::Kind;

impl Kind {
    /// Whether a cell of this kind discloses a contributor.
    pub fn is_primary(self) -> bool
        ensures { result ≡ is_primary self }
    {
        match self {
            Kind::Primary => true,
            Kind::Free => false,
            Kind::Fixed => false,
        }
    }

    /// Whether a cell of this kind may be hidden or shown.
    pub fn is_free(self) -> bool
        ensures { result ≡ is_free self }
    {
        match self {
            Kind::Primary => false,
            Kind::Free => true,
            Kind::Fixed => false,
        }
    }

    /// Whether a cell of this kind is always shown.
    pub fn is_fixed(self) -> bool
        ensures { result ≡ is_fixed self }
    {
        match self {
            Kind::Primary => false,
            Kind::Free => false,
            Kind::Fixed => true,
        }
    }
}
