ghost use Rattle.std.specs.Prelude.{◌≡◌, ◌<◌, ◌≤◌, ◌^◌, length, IfOk, OnErr};
ghost use Rattle.sdc_base.specs.Answers.{Gives};
ghost use Rattle.sdc_base.specs.Lines as spec;
ghost use Rattle.apriori.specs.Faults.{prior_fault_of};
ghost use Rattle.apriori.specs.Priors.{ArePriors};
ghost use Rattle.apriori.specs.Applying.{apply_of, file_says};
ghost use Rattle.apriori.specs.Noting.{lines_noted};
ghost use Rattle.apriori.specs.KnownCells.{basis_of};

use crate::faults::PriorError;
use crate::noting::note_line;
use crate::prior::Prior;
use crate::statement::Form;
use linked_tables::Book;
use plain_text::lines;
use std::alloc::Global;

/// Adds what an a priori file of a table states of its cells to what is stated of them already.
///
/// A line has one code for each variable of the table, in the table's order, a keyword in letters of any case, and the
/// fields of the keyword: `u` declares the cell unsafe and `s` safe, `p` wants it always shown, `c` has its price, a
/// whole number from 1 to `2^40`, `pl` its levels, first the lower one, from 0, and then the upper one, from one unit
/// on, and `b` what an attacker knows that it is at least and at most, both from 0. Levels and bounds are at most
/// `10^29` units and have at most `decimals` decimals. The byte `separator` stands between two fields; blanks round a
/// field are dropped, and blank lines are passed over.
///
/// The first line with a fault is refused, the faults of a line in this order: `BadShape`, `UnknownCode`, `BadNumber`,
/// `EmptyUnsafe`, `OutsideTruth`, and `Twice` where it contradicts what an earlier line or an earlier file says of the
/// cell; want of memory is `Memory`. After a refusal nothing has changed. A line that says what is said already is
/// accepted.
///
/// It takes a table of the book, fewer than `2^32` bytes, at most 13 decimals, and one prior for each cell, as
/// [`blank_priors`](crate::blank_priors) and this call make them. The cost is a copy of the priors, and for each line
/// its bytes and one look-up for each code and for the cell.
///
/// The keywords with their fields, and the order of the faults, are argus's own.
pub fn apply(
    alloc: Global,
    book: &Book,
    table: u32,
    priors: &mut Vec<Prior>,
    bytes: &[u8],
    separator: u8,
    decimals: u8,
) -> Result<(), PriorError>
    requires table { table < length book.now.tables }
    requires decimals { decimals ≤ 13 }
    requires fewer_than_2_32 { length bytes.now < 2 ^ 32 }
    requires priors { ArePriors book.now.marks priors.old.items }
    ensures exact { Gives prior_fault_of (λ _. priors.new.items) result
        (file_says (basis_of book.now) table separator decimals priors.old.items bytes.now) }
    ensures unchanged { OnErr result (priors.new.items ≡ priors.old.items) }
    ensures priors { ArePriors book.now.marks priors.new.items }
{
    let form = Form {
        table,
        separator,
        decimals,
    };
    *priors = priors_after(alloc, book, form, priors.as_slice(), bytes)?;
    Ok(())
}

// The priors with what the file states.
#[tactic(auto, using(crate::proofs::Together::noted_together))]
fn priors_after(
    alloc: Global,
    book: &Book,
    form: Form,
    priors: &[Prior],
    bytes: &[u8],
) -> Result<Vec<Prior>, PriorError>
    requires table { form.table < length book.now.tables }
    requires decimals { form.decimals ≤ 13 }
    requires fewer_than_2_32 { length bytes.now < 2 ^ 32 }
    requires priors { ArePriors book.now.marks priors.now }
    ensures exact { Gives prior_fault_of (λ changed. changed.items) result
        (apply_of (basis_of book.now) form priors.now bytes.now) }
    ensures priors { IfOk result (λ changed. ArePriors book.now.marks changed.items) }
{
    let mut changed = priors.to_vec(alloc)?;
    note_lines(book, form, &mut changed, bytes)?;
    Ok(changed)
}

// Notes what the lines of a file state, one after another.
fn note_lines(
    book: &Book,
    form: Form,
    priors: &mut Vec<Prior>,
    bytes: &[u8],
) -> Result<(), PriorError>
    requires table { form.table < length book.now.tables }
    requires decimals { form.decimals ≤ 13 }
    requires fewer_than_2_32 { length bytes.now < 2 ^ 32 }
    requires priors { ArePriors book.now.marks priors.old.items }
    ensures exact { Gives prior_fault_of (λ _. priors.new.items) result
        (lines_noted (basis_of book.now) form 0 (spec.lines bytes.now) priors.old.items) }
    ensures priors { ArePriors book.now.marks priors.new.items }
{
    let mut reader = lines(bytes);
    'lines: while let Some(line) = reader.next_line() {
        note_line(book, form, line.number as u32, line.text, priors)?;
    }
    Ok(())
}
