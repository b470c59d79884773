ghost use Rattle.std.specs.Prelude.{◌≡◌, ◌<◌, ◌≤◌, ◌^◌, IfOk, IfSome, length, slice_get, unwrap_or, option_map, []};
ghost use Rattle.sdc_base.specs.Answers.{Gives};
ghost use Rattle.sdc_base.specs.Trees.{find};
ghost use Rattle.sdc_base.specs.Cells.{trees_of};
ghost use Rattle.apriori.specs.Faults.{fault_itself};
ghost use Rattle.apriori.specs.Holding.{IsClaimOf, IsClaim, IsStatementOf};
ghost use Rattle.apriori.specs.KnownCells.{basis_of, known_of};
ghost use Rattle.apriori.specs.Statements as spec;
ghost use Rattle.apriori.specs.KnownCells as known_cells;

use crate::faults::PriorWhy;
use crate::fields::{Fields, fields_in};
use crate::keyword::{Keyword, field_count, keyword_of};
use crate::numbers::{bounds_at, levels_at, price_at};
use crate::prior::Status;
use crate::statement::{Claim, Form, Statement};
use arrayvec::ArrayVec;
use linked_tables::Book;
use sdc_base::{CellFacts, Dimensions};

/// What a line of this number states.
#[tactic(auto, unfolding(crate::specs::Statements::statement_of))]
pub(crate) fn statement_of(
    book: &Book,
    form: Form,
    line: u32,
    text: &[u8],
) -> Result<Statement, PriorWhy>
    requires table { form.table < length book.now.tables }
    requires decimals { form.decimals ≤ 13 }
    requires fewer_than_2_32 { length text.now < 2 ^ 32 }
    ensures exact { Gives fault_itself (λ said. said) result (spec.statement_of (basis_of book.now) form line text.now) }
    ensures within { IfOk result (λ said. said.cell < length book.now.marks) }
    ensures fits { IfOk result (IsStatementOf book.now.marks) }
{
    let mut behind = fields_in(form.separator, text);
    behind.skip(width_of(book, form.table));
    let keyword = keyword_at(&mut behind)?;
    let mut codes = fields_in(form.separator, text);
    let Some(cell) = cell_of(book, form.table, &mut codes) else {
        return Err(PriorWhy::UnknownCode);
    };
    let Some(mark) = book.marks().get(cell as usize) else {
        return Err(PriorWhy::UnknownCode);
    };
    let claim = claim_of(form.decimals, keyword, &mut behind)?;
    check_claim(&mark.facts, claim)?;
    Ok(Statement { line, cell, claim })
}

// How many variables a table spans; one that the book doesn't have spans none.
fn width_of(book: &Book, table: u32) -> usize
    ensures { result ≡ length (known_cells.variables_of_table (basis_of book.now) table) }
{
    let Some(spanned) = book.spans(table) else {
        return 0;
    };
    spanned.as_slice().len()
}

// The keyword in front, behind which as many fields stand as it has.
#[tactic(auto, unfolding(crate::specs::Statements::keyword_at))]
fn keyword_at(fields: &mut Fields) -> Result<Keyword, PriorWhy>
    ensures { Gives fault_itself (λ keyword. (keyword, fields.new)) result (spec.keyword_at fields.old) }
{
    let Some(word) = fields.next_field() else {
        return Err(PriorWhy::BadShape);
    };
    let Some(keyword) = keyword_of(word) else {
        return Err(PriorWhy::BadShape);
    };
    if !fields.has_count(field_count(keyword)) {
        return Err(PriorWhy::BadShape);
    }
    Ok(keyword)
}

// The cell that the codes in front name, in the table's order; none where one of them is deeper than the table goes.
fn cell_of(book: &Book, table: u32, fields: &mut Fields) -> Option<u32>
    ensures cell { result ≡ known_cells.cell_of (basis_of book.now) table fields.old }
    ensures within { IfSome result (λ cell. cell < length book.now.marks) }
{
    let spanned = book.spans(table)?;
    let place = place_in(book, spanned, fields)?;
    book.id(table, place.as_slice())
}

// The place that the codes in front write, one for each variable.
fn place_in(book: &Book, spanned: &Dimensions, fields: &mut Fields) -> Option<ArrayVec<u32, 8>>
    ensures { option_map (λ place. place.items) result
        ≡ known_cells.place_in (trees_of book.now.trees spanned.now) fields.old }
{
    let width = spanned.len();
    let mut place: ArrayVec<u32, 8> = ArrayVec::new();
    'variables: for at in 0..width {
        let code = fields.next_field()?;
        let found = found_in(book, spanned.as_slice()[at].variable, code)?;
        place.push(found);
    }
    Some(place)
}

// The place of a code in the tree of a variable.
fn found_in(book: &Book, variable: u32, code: &[u8]) -> Option<u32>
    ensures { result ≡ find (unwrap_or (slice_get book.now.trees variable) []) code.now }
{
    let tree = book.tree(variable)?;
    tree.find(code)
}

// What a keyword with the fields behind it claims.
#[tactic(auto, unfolding(crate::specs::Statements::claim_of))]
fn claim_of(decimals: u8, keyword: Keyword, fields: &mut Fields) -> Result<Claim, PriorWhy>
    requires { decimals ≤ 13 }
    ensures exact { Gives fault_itself (λ claim. claim) result (spec.claim_of decimals keyword fields.old) }
    ensures claim { IfOk result IsClaim }
{
    match keyword {
        Keyword::Unsafe => Ok(Claim::Declared(Status::Unsafe)),
        Keyword::Safe => Ok(Claim::Declared(Status::Safe)),
        Keyword::Shown => Ok(Claim::Shown),
        Keyword::Price => Ok(Claim::Price(price_at(fields)?)),
        Keyword::Levels => Ok(Claim::Open(levels_at(decimals, fields)?)),
        Keyword::Bounds => Ok(Claim::Between(bounds_at(decimals, fields)?)),
    }
}

// Refuses a claim that doesn't go with what is known of the cell.
#[tactic(auto, unfolding(crate::specs::Statements::fit_of_claim))]
fn check_claim(facts: &CellFacts, claim: Claim) -> Result<(), PriorWhy>
    requires { IsClaim claim }
    ensures exact { Gives fault_itself (λ fine. fine) result (spec.fit_of_claim (known_of facts.now) claim) }
    ensures fits { IfOk result (λ _. IsClaimOf facts.now claim) }
{
    if is_empty_unsafe(facts, claim) {
        return Err(PriorWhy::EmptyUnsafe);
    }
    if is_outside(facts, claim) {
        return Err(PriorWhy::OutsideTruth);
    }
    Ok(())
}

// Whether a cell without records is declared unsafe.
fn is_empty_unsafe(facts: &CellFacts, claim: Claim) -> bool
    ensures { result ≡ spec.is_empty_unsafe (known_of facts.now) claim }
{
    match claim {
        Claim::Declared(Status::Unsafe) => facts.freq == 0,
        _ => false,
    }
}

// Whether the truth isn't between bounds that are claimed.
fn is_outside(facts: &CellFacts, claim: Claim) -> bool
    ensures { result ≡ spec.is_outside (known_of facts.now) claim }
{
    match claim {
        Claim::Between(bounds) => facts.truth < bounds.low || facts.truth > bounds.high,
        _ => false,
    }
}
