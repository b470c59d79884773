ghost use Rattle.sdc_base.specs.Refutations.{WeakDuality};

/// A refutation keeps the asked cell below the level in every world, whatever its denominator.
pub fn weak_duality()
    ensures { WeakDuality }
{}
