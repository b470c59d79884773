ghost use Rattle.std.specs.Prelude.{◌≡◌, ◌<◌, ◌≤◌, ◌^◌, length};
ghost use Rattle.sdc_base.specs.Answers.{Gives};
ghost use Rattle.apriori.specs.Faults.{prior_fault_of, fault_itself};
ghost use Rattle.apriori.specs.Priors.{ArePriors};
ghost use Rattle.apriori.specs.Holding.{IsStatementOf};
ghost use Rattle.apriori.specs.Applying.{at_line};
ghost use Rattle.apriori.specs.KnownCells.{basis_of};
ghost use Rattle.apriori.specs.CellStatements as cell_statements;
ghost use Rattle.apriori.specs.Noting as noting;

use crate::faults::{PriorError, PriorWhy};
use crate::prior::{Prior, Status};
use crate::reading::statement_of;
use crate::statement::{Bounds, Claim, Form, Statement};
use linked_tables::Book;
use plain_text::trim;
use sdc_base::Levels;

/// Notes what the line of this number states in the prior of its cell.
pub(crate) fn note_line(
    book: &Book,
    form: Form,
    line: u32,
    text: &[u8],
    priors: &mut Vec<Prior>,
) -> Result<(), PriorError>
    requires table { form.table < length book.now.tables }
    requires decimals { form.decimals ≤ 13 }
    requires fewer_than_2_32 { length text.now < 2 ^ 32 }
    requires priors { ArePriors book.now.marks priors.old.items }
    ensures exact { Gives prior_fault_of (λ _. priors.new.items) result
        (at_line form.table line (noting.line_noted (basis_of book.now) form line text.now priors.old.items)) }
    ensures priors { ArePriors book.now.marks priors.new.items }
{
    match take_line(book, form, line, text, priors) {
        Ok(()) => Ok(()),
        Err(why) => Err(PriorError::At {
            table: form.table,
            line,
            why,
        }),
    }
}

// The same, with what is wrong with the line.
#[tactic(auto, unfolding(crate::specs::Noting::line_noted))]
fn take_line(
    book: &Book,
    form: Form,
    line: u32,
    text: &[u8],
    priors: &mut Vec<Prior>,
) -> Result<(), PriorWhy>
    requires table { form.table < length book.now.tables }
    requires decimals { form.decimals ≤ 13 }
    requires fewer_than_2_32 { length text.now < 2 ^ 32 }
    requires priors { ArePriors book.now.marks priors.old.items }
    ensures exact { Gives fault_itself (λ _. priors.new.items) result
        (noting.line_noted (basis_of book.now) form line text.now priors.old.items) }
    ensures priors { ArePriors book.now.marks priors.new.items }
{
    if trim(text).is_empty() {
        return Ok(());
    }
    let said = statement_of(book, form, line, text)?;
    note(book, form.table, said, priors)
}

// Notes a statement in the prior of its cell, unless it contradicts what is said there.
#[tactic(auto, unfolding(crate::specs::Noting::after_statement))]
fn note(book: &Book, table: u32, said: Statement, priors: &mut Vec<Prior>) -> Result<(), PriorWhy>
    requires within { said.cell < length priors.old.items }
    requires fits { IsStatementOf book.now.marks said }
    requires priors { ArePriors book.now.marks priors.old.items }
    ensures exact { Gives fault_itself (λ _. priors.new.items) result
        (noting.after_statement table priors.old.items said) }
    ensures priors { ArePriors book.now.marks priors.new.items }
{
    let cell = said.cell as usize;
    let prior = priors[cell];
    if contradicts(&prior, said.claim) {
        return Err(PriorWhy::Twice);
    }
    priors[cell] = with_statement(table, &prior, said);
    Ok(())
}

// A prior with one statement more.
fn with_statement(table: u32, prior: &Prior, said: Statement) -> Prior
    ensures { result ≡ noting.with_statement table prior.now said }
{
    Prior {
        status: prior.status.or(status_in(said.claim)),
        keep: prior.keep.or(line_in(table, said.line, said.claim)),
        price: prior.price.or(price_in(said.claim)),
        levels: prior.levels.or(levels_in(said.claim)),
        bounds: prior.bounds.or(bounds_in(said.claim)),
    }
}

// The status that a claim declares, where it does.
fn status_in(claim: Claim) -> Option<Status>
    ensures { result ≡ cell_statements.status_in claim }
{
    match claim {
        Claim::Declared(status) => Some(status),
        _ => None,
    }
}

// The line by which the cell is to be always shown, where it is that.
fn line_in(table: u32, line: u32, claim: Claim) -> Option<(u32, u32)>
    ensures { result ≡ cell_statements.line_in table line claim }
{
    match claim {
        Claim::Shown => Some((table, line)),
        _ => None,
    }
}

// The price that a claim states, where it does.
fn price_in(claim: Claim) -> Option<u64>
    ensures { result ≡ cell_statements.price_in claim }
{
    match claim {
        Claim::Price(price) => Some(price),
        _ => None,
    }
}

// The levels that a claim states, where it does.
fn levels_in(claim: Claim) -> Option<Levels>
    ensures { result ≡ cell_statements.levels_in claim }
{
    match claim {
        Claim::Open(levels) => Some(levels),
        _ => None,
    }
}

// The bounds that a claim states, where it does.
fn bounds_in(claim: Claim) -> Option<(i128, i128)>
    ensures { result ≡ cell_statements.bounds_in claim }
{
    match claim {
        Claim::Between(bounds) => Some((bounds.low, bounds.high)),
        _ => None,
    }
}

// Whether a claim contradicts what is said of its cell.
fn contradicts(prior: &Prior, claim: Claim) -> bool
    ensures { result ≡ cell_statements.contradicts prior.now claim }
{
    match claim {
        Claim::Declared(status) => is_other_status(prior.status, status),
        Claim::Shown => false,
        Claim::Price(price) => is_other_price(prior.price, price),
        Claim::Open(levels) => are_other_levels(prior.levels, levels),
        Claim::Between(bounds) => are_other_bounds(prior.bounds, bounds),
    }
}

// Whether the other status is declared already.
fn is_other_status(earlier: Option<Status>, status: Status) -> bool
    ensures { result ≡ cell_statements.is_other_status earlier status }
{
    match (earlier, status) {
        (Some(Status::Unsafe), Status::Safe) => true,
        (Some(Status::Safe), Status::Unsafe) => true,
        _ => false,
    }
}

// Whether another price is stated already.
fn is_other_price(earlier: Option<u64>, price: u64) -> bool
    ensures { result ≡ cell_statements.is_other_price earlier price }
{
    match earlier {
        Some(earlier) => earlier != price,
        None => false,
    }
}

// Whether other levels are stated already.
fn are_other_levels(earlier: Option<Levels>, levels: Levels) -> bool
    ensures { result ≡ cell_statements.are_other_levels earlier levels }
{
    match earlier {
        Some(earlier) => !(earlier.up == levels.up && earlier.down == levels.down),
        None => false,
    }
}

// Whether other bounds are stated already.
fn are_other_bounds(earlier: Option<(i128, i128)>, bounds: Bounds) -> bool
    ensures { result ≡ cell_statements.are_other_bounds earlier (bounds.low, bounds.high) }
{
    match earlier {
        Some(earlier) => !(earlier.0 == bounds.low && earlier.1 == bounds.high),
        None => false,
    }
}
