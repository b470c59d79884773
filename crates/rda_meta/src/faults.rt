ghost use Rattle.std.specs.Prelude.{◌≡◌};
ghost use Rattle.rda_meta.specs.Faults.{error_of};

use plain_text::Stop;
use sdc_base::Memory;

/// What is wrong with a line of metadata. All but `Clash` are looked for line by line, and within a
/// line in the order `UnknownKeyword`, `BadName`, `BadPlace`, `BadValue`, `Twice`, `TooMany`.
#[derive(Clone, Copy, Debug, PartialEq, Eq)]
pub enum MetaWhy {
    /// A keyword line stands before any variable line, or a name is empty or longer than 64 bytes.
    BadName,
    /// Position or width is missing, no whole number or 0, the width is above 255, or the field's
    /// last position above 1,000.
    BadPlace,
    /// The keyword is none of the table, or its line has no `>`.
    UnknownKeyword,
    /// An argument is missing, one too many or outside its range; a third missing code is one too
    /// many.
    BadValue,
    /// A variable's name stands again, a keyword stands again for its variable, or there is a second
    /// weight.
    Twice,
    /// What is said of a variable doesn't go together. It is looked for behind the last line, and
    /// given at the variable's line.
    Clash,
    /// The variable is the 65th.
    TooMany,
}

/// Why metadata aren't read: the first line with a fault, from 1, and what is wrong with it; or want
/// of memory.
#[derive(Clone, Copy, Debug, PartialEq, Eq)]
pub enum MetaError {
    At { line: u32, why: MetaWhy },
    Memory,
}

impl From<Memory> for MetaError {
    ghost use Rattle.rda_meta.specs.declared.faults.MetaError.TheVariants as meta_error;

    ghost from_gives = { λ _ e. e ≡ meta_error.Memory };

    fn from(_: Memory) -> Self {
        MetaError::Memory
    }
}

/// The error of the line with this number.
pub(crate) fn error_at(line: u32, error: Stop<MetaWhy>) -> MetaError
    ensures { result ≡ error_of line error }
{
    match error {
        Stop::Fault(why) => MetaError::At { line, why },
        Stop::Memory => MetaError::Memory,
    }
}
