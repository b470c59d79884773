ghost use Rattle.std.specs.Prelude.{◌≡◌};
ghost use Rattle.sdc_base.specs.Answers.{Gives};
ghost use Rattle.plain_text.specs.Stops.{why_of};
ghost use Rattle.certificate.specs.Faults.{fault_itself};
ghost use Rattle.certificate.specs.LineReadings as line_readings;
ghost use Rattle.certificate.specs.MethodReadings as method_readings;

use crate::certificate::WorldLine;
use crate::faults::CertWhy;
use crate::line_kind::LineKind;
use crate::numerals::{are_ascending, ascends, denominator_of, integer_of, natural_of};
use crate::pieces::{Pieces, pieces_in};
use crate::tokens::{all_pairs, have_form, is_word, moves_by, numbers_in, places_in, terms_in};
use crate::version::Version;
use plain_text::Stop;
use sdc_base::{Items, Method, PlanStep, Side};
use std::alloc::Global;
use worlds::{Multipliers, Refuted, World};

// A method with a number of passes.
#[tactic(auto, unfolding(crate::specs::MethodReadings::passes_of))]
fn passes_of(tokens: &mut Pieces<'_>) -> Result<Method, CertWhy>
    ensures { Gives fault_itself (λ method. method) result (method_readings.passes_of tokens.old) }
{
    let token = tokens.only()?;
    let number = natural_of(0, token)?;
    Ok(Method::Gh(number))
}

// A method with a base.
#[tactic(auto, unfolding(crate::specs::MethodReadings::method_by_base))]
fn method_by_base(tokens: &mut Pieces<'_>) -> Result<Method, CertWhy>
    ensures { Gives fault_itself (λ method. method) result (method_readings.method_by_base tokens.old) }
{
    let token = tokens.only()?;
    let number = integer_of(token)?;
    Ok(Method::Rnd(number))
}

// The method without a number.
#[tactic(auto, unfolding(crate::specs::MethodReadings::modular_of))]
fn modular_of(tokens: &Pieces<'_>) -> Result<Method, CertWhy>
    ensures { Gives fault_itself (λ method. method) result (method_readings.modular_of tokens.now) }
{
    tokens.end()?;
    Ok(Method::Modular)
}

// The method of a word.
fn method_by(word: &[u8], tokens: &mut Pieces<'_>) -> Result<Method, CertWhy>
    ensures { Gives fault_itself (λ method. method) result (method_readings.method_by word.now tokens.old) }
{
    if is_word(word, b"MOD") {
        return modular_of(tokens);
    }
    if is_word(word, b"GH") {
        return passes_of(tokens);
    }
    if is_word(word, b"RND") {
        return method_by_base(tokens);
    }
    Err(CertWhy::Shape)
}

/// The line of the method.
#[derive(Clone, Copy)]
pub(crate) struct MethodLine;

impl LineKind for MethodLine {
    ghost use Rattle.std.specs.Prelude.{codes};
    ghost use Rattle.certificate.specs.MethodReadings.{method_of};

    type Item = Method;

    ghost word = { λ _. codes "method" };

    ghost meaning = { λ _. method_of };

    fn first_word(&self) -> &[u8] {
        b"method"
    }

    #[tactic(auto, unfolding(crate::specs::MethodReadings::method_of))]
    fn read(&self, _alloc: Global, tokens: &mut Pieces<'_>) -> Result<Method, Stop<CertWhy>> {
        let word = tokens.first().map_err(Stop::Fault)?;
        let method = method_by(word, tokens).map_err(Stop::Fault)?;
        Ok(method)
    }
}

/// The line of a count.
#[derive(Clone, Copy)]
pub(crate) struct CountLine<'a> {
    /// The word in front.
    pub word: &'a [u8],
}

impl<'a> LineKind for CountLine<'a> {
    ghost use Rattle.certificate.specs.MethodReadings.{count_of};

    type Item = u32;

    ghost word = { λ s. s.word.now };

    ghost meaning = { λ _. count_of };

    fn first_word(&self) -> &[u8] {
        self.word
    }

    #[tactic(auto, unfolding(crate::specs::MethodReadings::count_of))]
    fn read(&self, _alloc: Global, tokens: &mut Pieces<'_>) -> Result<u32, Stop<CertWhy>> {
        let token = tokens.only().map_err(Stop::Fault)?;
        let count = natural_of(0, token).map_err(Stop::Fault)?;
        Ok(count)
    }
}

/// The line of some cells.
#[derive(Clone, Copy)]
pub(crate) struct CellsLine<'a> {
    /// The word in front.
    pub word: &'a [u8],
}

impl<'a> LineKind for CellsLine<'a> {
    ghost use Rattle.certificate.specs.LineReadings.{hidden_of};

    type Item = Items<u32>;

    ghost word = { λ s. s.word.now };

    ghost meaning = { λ _. hidden_of };

    fn first_word(&self) -> &[u8] {
        self.word
    }

    #[tactic(auto, unfolding(crate::specs::LineReadings::hidden_of))]
    fn read(&self, alloc: Global, tokens: &mut Pieces<'_>) -> Result<Items<u32>, Stop<CertWhy>> {
        if tokens.is_count(0) {
            return Err(Stop::Fault(CertWhy::Shape));
        }
        let cells = numbers_in(alloc, tokens)?;
        if !ascends(cells.as_slice()) {
            return Err(Stop::Fault(CertWhy::Order));
        }
        Ok(cells)
    }
}

// A step by its four tokens.
#[tactic(auto, unfolding(crate::specs::LineReadings::step_by))]
fn step_by(
    alloc: Global,
    table: &[u8],
    parents: &[u8],
    cell: &[u8],
    corners: &[u8],
) -> Result<PlanStep, Stop<CertWhy>>
    ensures { Gives why_of (λ step. step) result (line_readings.step_by table.now parents.now cell.now corners.now) }
{
    if parents.is_empty() {
        return Err(Stop::Fault(CertWhy::Shape));
    }
    let mut places = pieces_in(b',', parents);
    if places.is_past(8) {
        return Err(Stop::Fault(CertWhy::Shape));
    }
    if corners.is_empty() {
        return Err(Stop::Fault(CertWhy::Shape));
    }
    let table = natural_of(1, table).map_err(Stop::Fault)?;
    let parents = places_in(&mut places).map_err(Stop::Fault)?;
    let cell = natural_of(0, cell).map_err(Stop::Fault)?;
    let mut others = pieces_in(b',', corners);
    let corners = numbers_in(alloc, &mut others)?;
    if !ascends(corners.as_slice()) {
        return Err(Stop::Fault(CertWhy::Order));
    }
    Ok(PlanStep {
        table: table - 1,
        parents,
        cell,
        corners,
    })
}

/// The line of a step.
#[derive(Clone, Copy)]
pub(crate) struct StepLine;

impl LineKind for StepLine {
    ghost use Rattle.std.specs.Prelude.{codes};
    ghost use Rattle.certificate.specs.LineReadings.{step_of};

    type Item = PlanStep;

    ghost word = { λ _. codes "step" };

    ghost meaning = { λ _. step_of };

    fn first_word(&self) -> &[u8] {
        b"step"
    }

    #[tactic(auto, unfolding(crate::specs::LineReadings::step_of))]
    fn read(&self, alloc: Global, tokens: &mut Pieces<'_>) -> Result<PlanStep, Stop<CertWhy>> {
        let table = tokens.first().map_err(Stop::Fault)?;
        let parents = tokens.first().map_err(Stop::Fault)?;
        let cell = tokens.first().map_err(Stop::Fault)?;
        let corners = tokens.only().map_err(Stop::Fault)?;
        step_by(alloc, table, parents, cell, corners)
    }
}

/// The side of a word.
pub(crate) fn side_of(word: &[u8]) -> Result<Side, CertWhy>
    ensures { Gives fault_itself (λ side. side) result (line_readings.side_of word.now) }
{
    if is_word(word, b"above") {
        return Ok(Side::Above);
    }
    if is_word(word, b"below") {
        return Ok(Side::Below);
    }
    Err(CertWhy::Shape)
}

// A refutation by its tokens.
#[tactic(auto, unfolding(crate::specs::LineReadings::refutation_by))]
fn refutation_by(
    alloc: Global,
    subject: &[u8],
    cell: &[u8],
    side: &[u8],
    den: &[u8],
    pairs: &mut Pieces<'_>,
) -> Result<Refuted, Stop<CertWhy>>
    ensures { Gives why_of (λ refuted. refuted) result
        (line_readings.refutation_by subject.now cell.now side.now den.now pairs.old) }
{
    let side = side_of(side).map_err(Stop::Fault)?;
    if !all_pairs(pairs) {
        return Err(Stop::Fault(CertWhy::Shape));
    }
    let subject = natural_of(0, subject).map_err(Stop::Fault)?;
    let cell = natural_of(0, cell).map_err(Stop::Fault)?;
    let den = denominator_of(den).map_err(Stop::Fault)?;
    let by_relation = terms_in(alloc, pairs)?;
    if !are_ascending(by_relation.as_slice()) {
        return Err(Stop::Fault(CertWhy::Order));
    }
    Ok(Refuted {
        subject,
        cell,
        side,
        multipliers: Multipliers { den, by_relation },
    })
}

/// The line of a refutation.
#[derive(Clone, Copy)]
pub(crate) struct RefutationLine<'a> {
    /// The word in front.
    pub word: &'a [u8],
}

impl<'a> LineKind for RefutationLine<'a> {
    ghost use Rattle.certificate.specs.LineReadings.{refutation_of};

    type Item = Refuted;

    ghost word = { λ s. s.word.now };

    ghost meaning = { λ _. refutation_of };

    fn first_word(&self) -> &[u8] {
        self.word
    }

    #[tactic(auto, unfolding(crate::specs::LineReadings::refutation_of))]
    fn read(&self, alloc: Global, tokens: &mut Pieces<'_>) -> Result<Refuted, Stop<CertWhy>> {
        let subject = tokens.first().map_err(Stop::Fault)?;
        let cell = tokens.first().map_err(Stop::Fault)?;
        let side = tokens.first().map_err(Stop::Fault)?;
        let den = tokens.first().map_err(Stop::Fault)?;
        refutation_by(alloc, subject, cell, side, den, tokens)
    }
}

// A complete table by its tokens.
#[tactic(auto, unfolding(crate::specs::LineReadings::world_by))]
fn world_by(
    alloc: Global,
    kind: &TableLine<'_>,
    cell: &[u8],
    side: &[u8],
    den: &[u8],
    tokens: &mut Pieces<'_>,
) -> Result<WorldLine, Stop<CertWhy>>
    ensures { Gives why_of (λ world. world) result
        (line_readings.world_by kind.now.version kind.now.hidden.now cell.now side.now den.now tokens.old) }
{
    let side = side_of(side).map_err(Stop::Fault)?;
    if !have_form(kind.version, kind.hidden, tokens) {
        return Err(Stop::Fault(CertWhy::Shape));
    }
    let cell = natural_of(0, cell).map_err(Stop::Fault)?;
    let den = denominator_of(den).map_err(Stop::Fault)?;
    let moves = moves_by(alloc, kind.version, kind.hidden, tokens)?;
    Ok(WorldLine {
        cell,
        side,
        world: World { den, moves },
    })
}

/// The line of a complete table.
#[derive(Clone, Copy)]
pub(crate) struct TableLine<'a> {
    /// The word in front.
    pub word: &'a [u8],
    /// How its moves are written.
    pub version: Version,
    /// The hidden cells.
    pub hidden: &'a [u32],
}

impl<'a> LineKind for TableLine<'a> {
    ghost use Rattle.certificate.specs.LineReadings.{world_of};

    type Item = WorldLine;

    ghost word = { λ s. s.word.now };

    ghost meaning = { λ s. world_of s.version s.hidden.now };

    fn first_word(&self) -> &[u8] {
        self.word
    }

    #[tactic(auto, unfolding(crate::specs::LineReadings::world_of))]
    fn read(&self, alloc: Global, tokens: &mut Pieces<'_>) -> Result<WorldLine, Stop<CertWhy>> {
        let cell = tokens.first().map_err(Stop::Fault)?;
        let side = tokens.first().map_err(Stop::Fault)?;
        let den = tokens.first().map_err(Stop::Fault)?;
        world_by(alloc, self, cell, side, den, tokens)
    }
}

/// The line of a word alone.
#[derive(Clone, Copy)]
pub(crate) struct WordLine<'a> {
    /// The word in front.
    pub word: &'a [u8],
}

impl<'a> LineKind for WordLine<'a> {
    ghost use Rattle.certificate.specs.TokenLists.{end_of};

    type Item = ();

    ghost word = { λ s. s.word.now };

    ghost meaning = { λ _. end_of };

    fn first_word(&self) -> &[u8] {
        self.word
    }

    fn read(&self, _alloc: Global, tokens: &mut Pieces<'_>) -> Result<(), Stop<CertWhy>> {
        tokens.end().map_err(Stop::Fault)?;
        Ok(())
    }
}
