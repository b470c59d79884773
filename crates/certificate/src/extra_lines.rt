ghost use Rattle.std.specs.Prelude.{◌≡◌, codes};
ghost use Rattle.sdc_base.specs.Answers.{Gives};
ghost use Rattle.plain_text.specs.Stops.{why_of};
ghost use Rattle.certificate.specs.ExtraReadings as extra_readings;

use crate::extra::ExtraNeed;
use crate::faults::CertWhy;
use crate::line_kind::LineKind;
use crate::lines::side_of;
use crate::numerals::{are_ascending, denominator_of, natural_of};
use crate::pieces::Pieces;
use crate::tokens::{all_pairs, terms_in};
use plain_text::Stop;
use std::alloc::Global;
use worlds::Multipliers;

// A need by its tokens.
#[tactic(auto, unfolding(crate::specs::ExtraReadings::need_by))]
fn need_by(
    alloc: Global,
    subject: &[u8],
    row: &[u8],
    cell: &[u8],
    side: &[u8],
    den: &[u8],
    pairs: &mut Pieces<'_>,
) -> Result<ExtraNeed, Stop<CertWhy>>
    ensures { Gives why_of (λ need. need) result
        (extra_readings.need_by subject.now row.now cell.now side.now den.now pairs.old) }
{
    let side = side_of(side).map_err(Stop::Fault)?;
    if !all_pairs(pairs) {
        return Err(Stop::Fault(CertWhy::Shape));
    }
    let subject = natural_of(0, subject).map_err(Stop::Fault)?;
    let row = natural_of(1, row).map_err(Stop::Fault)?;
    let cell = natural_of(0, cell).map_err(Stop::Fault)?;
    let den = denominator_of(den).map_err(Stop::Fault)?;
    let by_relation = terms_in(alloc, pairs)?;
    if !are_ascending(by_relation.as_slice()) {
        return Err(Stop::Fault(CertWhy::Order));
    }
    Ok(ExtraNeed {
        subject,
        row: row - 1,
        cell,
        side,
        multipliers: Multipliers { den, by_relation },
    })
}

/// The line of a need.
#[derive(Clone, Copy)]
pub(crate) struct NeedLine;

impl LineKind for NeedLine {
    ghost use Rattle.std.specs.Prelude.{codes};
    ghost use Rattle.certificate.specs.ExtraReadings.{need_of};

    type Item = ExtraNeed;

    ghost word = { λ _. codes "need" };

    ghost meaning = { λ _. need_of };

    fn first_word(&self) -> &[u8] {
        b"need"
    }

    #[tactic(auto, unfolding(crate::specs::ExtraReadings::need_of))]
    fn read(&self, alloc: Global, tokens: &mut Pieces<'_>) -> Result<ExtraNeed, Stop<CertWhy>> {
        let subject = tokens.first().map_err(Stop::Fault)?;
        let row = tokens.first().map_err(Stop::Fault)?;
        let cell = tokens.first().map_err(Stop::Fault)?;
        let side = tokens.first().map_err(Stop::Fault)?;
        let den = tokens.first().map_err(Stop::Fault)?;
        need_by(alloc, subject, row, cell, side, den, tokens)
    }
}
