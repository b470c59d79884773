ghost use Rattle.std.specs.Prelude.{◌≡◌, ◌<◌, ◌^◌, ◌++◌, ◌==◌, [], not, length, slice_index, slice_set, option_to_list, All, IfOk, OnOk};
ghost use Rattle.sdc_base.specs.Relations.{codes_below, number_among, parts_among};
ghost use Rattle.linked_tables.specs.BookCells.{IsBook};
ghost use Rattle.linked_tables.specs.BookCells as spec;

use arrayvec::ArrayVec;
use linked_tables::Book;
use sdc_base::{Few, Items, Memory, Place};
use std::alloc::Global;

/// The cells that have one of the codes right below the name's code for the variable in its place, in the order of
/// these codes. It takes one look-up for each.
pub(crate) fn parts_of(
    alloc: Global,
    book: &Book,
    name: &Place,
    variable: u32,
) -> Result<Items<u32>, Memory>
    requires book { IsBook book.now }
    requires long { length name.now ≡ length book.now.trees }
    requires known { variable < length book.now.trees }
    ensures parts { IfOk result (λ parts. parts
        ≡ parts_among (spec.cells book.now) name.now variable (codes_below book.now.trees name.now variable)) }
    ensures fewer_than_2_32 { IfOk result (λ parts. length parts < 2 ^ 32) }
    ensures named { IfOk result (λ parts. All (λ part. part < length book.now.marks) parts) }
{
    let mut parts = Vec::new(alloc);
    let mut met = book.first_child(variable, code_for(name, variable));
    'children: while let Some(child) = met {
        add_part(book, name, variable, child, &mut parts)?;
        met = book.next_sibling(variable, child);
    }
    Ok(Items::new(parts))
}

/// Whether there are codes right below the name's code for the variable.
pub(crate) fn has_below(book: &Book, name: &Place, variable: u32) -> bool
    requires { variable < length name.now }
    ensures { result ≡ not (length (codes_below book.now.trees name.now variable) == 0) }
{
    book.first_child(variable, code_for(name, variable))
        .is_some()
}

// Adds the cell that has this code for the variable, where there is one.
fn add_part(
    book: &Book,
    name: &Place,
    variable: u32,
    code: u32,
    parts: &mut Vec<u32>,
) -> Result<(), Memory>
    requires known { variable < length name.now }
    requires named { All (λ part. part < length book.now.marks) parts.old.items }
    ensures added { OnOk result (parts.new.items
        ≡ parts.old.items ++ option_to_list (number_among (spec.cells book.now) (slice_set name.now variable code))) }
    ensures within { OnOk result (All (λ part. part < length book.now.marks) parts.new.items) }
{
    let other = with_code(name, variable, code);
    if let Some(part) = book.number(&other) {
        parts.push(part)?;
    }
    Ok(())
}

// The name with this code for the variable.
fn with_code(name: &Place, variable: u32, code: u32) -> Place
    requires known { variable < length name.now }
    ensures { result ≡ slice_set name.now variable code }
{
    let mut codes: ArrayVec<u32, 8> = name.copy().into_array();
    codes[variable as usize] = code;
    Few::new(codes)
}

// The code of a name for the variable.
fn code_for(name: &Place, variable: u32) -> u32
    requires { variable < length name.now }
    ensures { result ≡ slice_index name.now variable }
{
    name.as_slice()[variable as usize]
}
