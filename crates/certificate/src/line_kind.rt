ghost use Rattle.std.specs.Prelude.{◌≡◌, List, ℕ, Result};
ghost use Rattle.sdc_base.specs.Answers.{Gives};
ghost use Rattle.certificate.specs.Certificates.{item_at, items_at};
ghost use Rattle.plain_text.specs.Stops.{why_of};
ghost use Rattle.certificate.specs.Faults.{cert_fault_of};
ghost use Rattle.certificate.specs.LineReadings.{item_of};
ghost use Rattle.certificate.specs.declared.faults.CertWhy.{CertWhy as Why};

use crate::faults::{CertError, CertWhy, error_at};
use crate::pieces::Pieces;
use crate::reader::Reader;
use crate::tokens::behind_word;
use plain_text::Stop;
use sdc_base::Items;
use std::alloc::Global;

/// A kind of line: the word in front of it, and what the tokens behind that word say.
pub(crate) trait LineKind {
    /// What such a line says.
    type Item: Drop;

    /// The word in front.
    ghost word: { Self → List ℕ };

    /// What the tokens behind it say, or the line's first fault.
    ghost meaning: { Self → List (List ℕ) → Result Self.Item Why };

    /// The word in front.
    fn first_word(&self) -> &[u8]
        ensures { result.now ≡ word self.now };

    /// What the tokens behind it say.
    fn read(&self, alloc: Global, tokens: &mut Pieces<'_>) -> Result<Self::Item, Stop<CertWhy>>
        ensures { Gives why_of (λ item. item) result (meaning self.now tokens.old) };
}

// What a line of a kind says.
#[tactic(auto, unfolding(crate::specs::LineReadings::item_of))]
fn item_in<K: LineKind>(alloc: Global, kind: &K, line: &[u8]) -> Result<K::Item, Stop<CertWhy>>
    ensures { Gives why_of (λ item. item) result (item_of (K.word kind.now) (K.meaning kind.now) line.now) }
{
    let mut tokens = behind_word(kind.first_word(), line).map_err(Stop::Fault)?;
    kind.read(alloc, &mut tokens)
}

/// What the next line says, which must be of this kind.
#[tactic(auto, unfolding(crate::specs::Certificates::item_at), using(crate::proofs::LineSteps::fails_at))]
pub(crate) fn read_item<K: LineKind>(
    alloc: Global,
    kind: &K,
    reader: &mut Reader<'_>,
) -> Result<K::Item, CertError>
    ensures { Gives cert_fault_of (λ item. (item, reader.new)) result
        (item_at (K.word kind.now) (K.meaning kind.now) reader.old) }
{
    let line = reader.next_line()?;
    match item_in(alloc, kind, line.text) {
        Ok(item) => Ok(item),
        Err(error) => Err(error_at(line.number, error)),
    }
}

/// What the next lines say, as many as are of this kind.
pub(crate) fn read_items<K: LineKind>(
    alloc: Global,
    kind: &K,
    reader: &mut Reader<'_>,
) -> Result<Items<K::Item>, CertError>
    ensures { Gives cert_fault_of (λ items. (items, reader.new)) result
        (items_at (K.word kind.now) (K.meaning kind.now) reader.old) }
{
    let mut items = Items::empty(alloc);
    'lines: while reader.is_next(kind.first_word()) {
        let item = read_item(alloc, kind, reader)?;
        items.push(item)?;
    }
    Ok(items)
}
