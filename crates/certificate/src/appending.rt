ghost use Rattle.std.specs.Prelude.{◌≡◌, ◌<◌, ◌++◌, ◌∷◌, OnOk, length, flat_map, decimal};
ghost use Rattle.std.specs.Fmt.{signed_decimal};
ghost use Rattle.certificate.specs.Pieces.{space};
ghost use Rattle.std.specs.List.{AllByRecursion};
ghost use Rattle.certificate.specs.Spelling.{FitsIn32Bits, FitsIn128Bits, IsTermWithinTypes, IsMoveWithinTypes};
ghost use Rattle.certificate.specs.Texts.{comma_list, pair_token, move_token};

use sdc_base::{Items, Memory};
use std::alloc::Global;
use worlds::Move;

/// Puts bytes at the end of a text.
pub(crate) fn add(text: &mut Items<u8>, bytes: &[u8]) -> Result<(), Memory>
    ensures { OnOk result (text.new ≡ text.old ++ bytes.now) }
{
    for b in bytes {
        text.push(*b)?;
    }
    Ok(())
}

// A number.
fn add_number(alloc: Global, text: &mut Items<u8>, number: u32) -> Result<(), Memory>
    ensures { OnOk result (text.new ≡ text.old ++ decimal number) }
{
    let digits = number.to_string(alloc)?;
    add(text, digits.as_bytes())
}

// A mark and a number.
fn add_with_mark(alloc: Global, text: &mut Items<u8>, mark: u8, number: u32) -> Result<(), Memory>
    ensures { OnOk result (text.new ≡ text.old ++ mark ∷ decimal number) }
{
    text.push(mark)?;
    add_number(alloc, text, number)
}

/// Numbers, each with a mark before it.
pub(crate) fn add_all_with_mark(
    alloc: Global,
    text: &mut Items<u8>,
    mark: u8,
    numbers: &[u32],
) -> Result<(), Memory>
    ensures text { OnOk result (text.new ≡ text.old ++ flat_map (λ number. mark ∷ decimal number) numbers.now) }
    ensures short { OnOk result (AllByRecursion FitsIn32Bits numbers.now) }
{
    for number in numbers {
        add_with_mark(alloc, text, mark, *number)?;
    }
    Ok(())
}

/// Numbers, one at least, with commas between them.
pub(crate) fn add_list(alloc: Global, text: &mut Items<u8>, numbers: &[u32]) -> Result<(), Memory>
    requires { 0 < length numbers.now }
    ensures text { OnOk result (text.new ≡ text.old ++ comma_list numbers.now) }
    ensures short { OnOk result (AllByRecursion FitsIn32Bits numbers.now) }
{
    add_number(alloc, text, numbers[0])?;
    add_all_with_mark(alloc, text, b',', &numbers[1..])?;
    Ok(())
}

// A space, a number, a colon and a whole number.
fn add_pair(alloc: Global, text: &mut Items<u8>, pair: &(u32, i128)) -> Result<(), Memory>
    ensures text { OnOk result (text.new ≡ text.old ++ space ∷ pair_token pair.now) }
    ensures wide { OnOk result (IsTermWithinTypes pair.now) }
{
    let (number, by) = *pair;
    let token = format!(in alloc; " {number}:{by}")?;
    add(text, token.as_bytes())?;
    Ok(())
}

/// Such pairs.
pub(crate) fn add_pairs(
    alloc: Global,
    text: &mut Items<u8>,
    pairs: &[(u32, i128)],
) -> Result<(), Memory>
    ensures text { OnOk result (text.new ≡ text.old ++ flat_map (λ pair. space ∷ pair_token pair) pairs.now) }
    ensures wide { OnOk result (AllByRecursion IsTermWithinTypes pairs.now) }
{
    for pair in pairs {
        add_pair(alloc, text, pair)?;
    }
    Ok(())
}

/// A space and a whole number.
pub(crate) fn add_integer(alloc: Global, text: &mut Items<u8>, number: &i128) -> Result<(), Memory>
    ensures text { OnOk result (text.new ≡ text.old ++ space ∷ signed_decimal number.now) }
    ensures wide { OnOk result (FitsIn128Bits number.now) }
{
    let value = *number;
    let token = format!(in alloc; " {value}")?;
    add(text, token.as_bytes())?;
    Ok(())
}

// A space, a cell, a colon and the number by which it moves.
fn add_move(alloc: Global, text: &mut Items<u8>, one: &Move) -> Result<(), Memory>
    ensures text { OnOk result (text.new ≡ text.old ++ space ∷ move_token one.now) }
    ensures wide { OnOk result (IsMoveWithinTypes one.now) }
{
    let cell = one.cell;
    let by = one.by;
    let token = format!(in alloc; " {cell}:{by}")?;
    add(text, token.as_bytes())?;
    Ok(())
}

/// The cells that move, each with the number by which it moves.
pub(crate) fn add_moves(alloc: Global, text: &mut Items<u8>, moves: &[Move]) -> Result<(), Memory>
    ensures text { OnOk result (text.new ≡ text.old ++ flat_map (λ one. space ∷ move_token one) moves.now) }
    ensures wide { OnOk result (AllByRecursion IsMoveWithinTypes moves.now) }
{
    for one in moves {
        add_move(alloc, text, one)?;
    }
    Ok(())
}
