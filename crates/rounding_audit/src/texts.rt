ghost use Rattle.std.specs.Prelude.{◌≡◌, ◌++◌, ◌∷◌, IfOk, OnOk, flat_map};
ghost use Rattle.std.specs.Fmt.{signed_decimal};
ghost use Rattle.certificate.specs.Pieces.{space};
ghost use Rattle.certificate.specs.Texts.{line_text, pair_token};
ghost use Rattle.rounding_audit.specs.AuditTexts as spec;

use crate::audited::{AuditedCell, AuditedEnd};
use cell_intervals::ratio_text;
use sdc_base::{Items, Memory, Side};
use std::alloc::Global;
use worlds::{Move, Multipliers, World};

/// The text of an audit: the line `cell,low,high,below,above`; then for each cell a line with its number, its least and
/// its greatest value, and `yes` or `no` for each side that is covered; then for each cell, below before above, the
/// lines `world C side den c:n ..` and `stop C side q r:n ..`, spelled as in a certificate. Every line is ended by LF.
///
/// Values are in units: a whole number, or `n/d` in lowest terms. A world's line lists the cells that move, each with
/// its move over `den`; a stop's line the relations that count, each with its multiplier, for `q` times the cell. The
/// cells are written in the order in which they stand. `Memory` is the only refusal. The cost is the length of the text.
/// The format is argus's own.
pub fn audit_text(alloc: Global, audited: &[AuditedCell]) -> Result<Items<u8>, Memory>
    ensures { IfOk result (λ text. text ≡ spec.audit_text audited.now) }
{
    let mut text = Items::empty(alloc);
    add(&mut text, b"cell,low,high,below,above\n")?;
    add_cells(alloc, &mut text, audited)?;
    add_all_ends(alloc, &mut text, audited)?;
    Ok(text)
}

// Puts bytes at the end of a text.
fn add(text: &mut Items<u8>, bytes: &[u8]) -> Result<(), Memory>
    ensures { OnOk result (text.new ≡ text.old ++ bytes.now) }
{
    for b in bytes {
        text.push(*b)?;
    }
    Ok(())
}

// The lines of cells.
fn add_cells(alloc: Global, text: &mut Items<u8>, audited: &[AuditedCell]) -> Result<(), Memory>
    ensures { OnOk result (text.new ≡ text.old ++ flat_map spec.cell_text audited.now) }
{
    'cells: for one in audited {
        add_cell(alloc, text, one)?;
    }
    Ok(())
}

// The line of a cell.
fn add_cell(alloc: Global, text: &mut Items<u8>, one: &AuditedCell) -> Result<(), Memory>
    ensures { OnOk result (text.new ≡ text.old ++ spec.cell_text one.now) }
{
    let cell = one.cell;
    let low = ratio_text(alloc, one.below.value)?;
    let high = ratio_text(alloc, one.above.value)?;
    let below = covered_word(one.below.covered);
    let above = covered_word(one.above.covered);
    let line = format!(in alloc; "{cell},{low},{high},{below},{above}\n")?;
    add(text, line.as_bytes())?;
    Ok(())
}

// Whether a side is covered.
fn covered_word(covered: bool) -> &'static str
    ensures { result.now ≡ spec.covered_word covered }
{
    if covered {
        return "yes";
    }
    "no"
}

// The lines that show the ends of cells.
fn add_all_ends(alloc: Global, text: &mut Items<u8>, audited: &[AuditedCell]) -> Result<(), Memory>
    ensures { OnOk result (text.new ≡ text.old ++ flat_map spec.ends_text audited.now) }
{
    'cells: for one in audited {
        add_ends(alloc, text, one)?;
    }
    Ok(())
}

// The lines that show both ends of a cell.
fn add_ends(alloc: Global, text: &mut Items<u8>, one: &AuditedCell) -> Result<(), Memory>
    ensures { OnOk result (text.new ≡ text.old ++ spec.ends_text one.now) }
{
    add_end(alloc, text, one.cell, Side::Below, &one.below)?;
    add_end(alloc, text, one.cell, Side::Above, &one.above)?;
    Ok(())
}

// The lines that show an end of a cell.
fn add_end(
    alloc: Global,
    text: &mut Items<u8>,
    cell: u32,
    side: Side,
    end: &AuditedEnd,
) -> Result<(), Memory>
    ensures { OnOk result (text.new ≡ text.old ++ spec.end_text cell side end.now) }
{
    add_world(alloc, text, cell, side, &end.world)?;
    add_stop(alloc, text, cell, side, &end.stop)?;
    Ok(())
}

// The line of a world.
fn add_world(
    alloc: Global,
    text: &mut Items<u8>,
    cell: u32,
    side: Side,
    world: &World,
) -> Result<(), Memory>
    ensures { OnOk result (text.new ≡ text.old ++ line_text (spec.world_tokens cell side world.now)) }
{
    let word = side.word();
    let head = format!(in alloc; "world {cell} {word}")?;
    add(text, head.as_bytes())?;
    add_integer(alloc, text, &world.den)?;
    add_moves(alloc, text, world.moves.as_slice())?;
    add(text, b"\n")?;
    Ok(())
}

// The line of multipliers that stop a cell.
fn add_stop(
    alloc: Global,
    text: &mut Items<u8>,
    cell: u32,
    side: Side,
    stop: &Multipliers,
) -> Result<(), Memory>
    ensures { OnOk result (text.new ≡ text.old ++ line_text (spec.stop_tokens cell side stop.now)) }
{
    let word = side.word();
    let head = format!(in alloc; "stop {cell} {word}")?;
    add(text, head.as_bytes())?;
    add_integer(alloc, text, &stop.den)?;
    add_pairs(alloc, text, stop.by_relation.as_slice())?;
    add(text, b"\n")?;
    Ok(())
}

// A space and a whole number.
fn add_integer(alloc: Global, text: &mut Items<u8>, number: &i128) -> Result<(), Memory>
    ensures { OnOk result (text.new ≡ text.old ++ space ∷ signed_decimal number.now) }
{
    let value = *number;
    let token = format!(in alloc; " {value}")?;
    add(text, token.as_bytes())
}

// Moves, each with a space before it.
fn add_moves(alloc: Global, text: &mut Items<u8>, moves: &[Move]) -> Result<(), Memory>
    ensures { OnOk result (text.new ≡ text.old ++ flat_map (λ one. space ∷ spec.move_token one) moves.now) }
{
    'moves: for one in moves {
        add_move(alloc, text, one)?;
    }
    Ok(())
}

// A space and a move.
fn add_move(alloc: Global, text: &mut Items<u8>, one: &Move) -> Result<(), Memory>
    ensures { OnOk result (text.new ≡ text.old ++ space ∷ spec.move_token one.now) }
{
    let cell = one.cell;
    let by = one.by;
    let token = format!(in alloc; " {cell}:{by}")?;
    add(text, token.as_bytes())
}

// Multipliers, each with a space before it.
fn add_pairs(alloc: Global, text: &mut Items<u8>, pairs: &[(u32, i128)]) -> Result<(), Memory>
    ensures { OnOk result (text.new ≡ text.old ++ flat_map (λ pair. space ∷ pair_token pair) pairs.now) }
{
    'pairs: for pair in pairs {
        add_pair(alloc, text, pair)?;
    }
    Ok(())
}

// A space and a multiplier.
fn add_pair(alloc: Global, text: &mut Items<u8>, pair: &(u32, i128)) -> Result<(), Memory>
    ensures { OnOk result (text.new ≡ text.old ++ space ∷ pair_token pair.now) }
{
    let (number, by) = *pair;
    let token = format!(in alloc; " {number}:{by}")?;
    add(text, token.as_bytes())
}
