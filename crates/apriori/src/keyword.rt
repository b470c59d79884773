ghost use Rattle.std.specs.Prelude.{◌≡◌};
ghost use Rattle.std.specs.Str.{str_eq_ignore_ascii_case};
ghost use Rattle.apriori.specs.Keywords as spec;

/// A keyword of a priori files.
#[derive(Clone, Copy, Debug, PartialEq, Eq)]
pub(crate) enum Keyword {
    /// `u`: the cell is declared unsafe.
    Unsafe,
    /// `s`: the cell is declared safe.
    Safe,
    /// `p`: the cell is to be always shown.
    Shown,
    /// `c`: the price of hiding the cell.
    Price,
    /// `pl`: how far the cell must be open, downwards and upwards.
    Levels,
    /// `b`: what an attacker knows that the cell is at least and at most.
    Bounds,
}

/// The keyword that a word is, in letters of any case.
pub(crate) fn keyword_of(word: &[u8]) -> Option<Keyword>
    ensures { result ≡ spec.keyword_of word.now }
{
    if spells(word, b"u") {
        return Some(Keyword::Unsafe);
    }
    if spells(word, b"s") {
        return Some(Keyword::Safe);
    }
    if spells(word, b"p") {
        return Some(Keyword::Shown);
    }
    if spells(word, b"c") {
        return Some(Keyword::Price);
    }
    if spells(word, b"pl") {
        return Some(Keyword::Levels);
    }
    if spells(word, b"b") {
        return Some(Keyword::Bounds);
    }
    None
}

/// How many fields stand behind a keyword.
pub(crate) fn field_count(keyword: Keyword) -> usize
    ensures { result ≡ spec.field_count keyword }
{
    match keyword {
        Keyword::Unsafe => 0,
        Keyword::Safe => 0,
        Keyword::Shown => 0,
        Keyword::Price => 1,
        Keyword::Levels => 2,
        Keyword::Bounds => 2,
    }
}

// Whether the word is this name, in letters of any case.
fn spells(word: &[u8], name: &[u8]) -> bool
    ensures { result ≡ str_eq_ignore_ascii_case word.now name.now }
{
    word.eq_ignore_ascii_case(name)
}
