// The world of a table.
use crate::divisor::wide_divisor_of;
use crate::table::Table;
use crate::walk::Beyond;
use sdc_base::Items;
use std::alloc::Global;
use worlds::{Move, World};

// The world of a table's cells, which have these numbers, where a variable may go beyond; none where a number leaves 128
// bits or memory is wanting.
pub(crate) fn world_of(
    alloc: Global,
    table: &Table,
    numbers: &[u32],
    beyond: Option<Beyond>,
) -> Option<World> {
    let found = moves_of(alloc, table, numbers.len(), beyond)?;
    let den = common_den(&found)?;
    let mut moves = Items::empty(alloc);
    for (cell, (num, own)) in numbers.iter().zip(found.iter()) {
        if *num != 0 {
            let by = num.checked_mul(den.checked_div(*own)?)?;
            moves.push(Move { cell: *cell, by }).ok()?;
        }
    }
    Some(World { den, moves })
}

// The moves of so many variables, each with its den.
fn moves_of(
    alloc: Global,
    table: &Table,
    cells: usize,
    beyond: Option<Beyond>,
) -> Option<Vec<(i128, i128)>> {
    let mut moves = Vec::new(alloc);
    for variable in 0..cells {
        moves.push(move_of(table, variable, beyond)?).ok()?;
    }
    Some(moves)
}

// The least number of which all moves are whole multiples over.
fn common_den(moves: &[(i128, i128)]) -> Option<i128> {
    let mut den: i128 = 1;
    for (_num, own) in moves {
        den = common_multiple(den, *own)?;
    }
    Some(den)
}

// The least whole multiple of both.
fn common_multiple(one: i128, other: i128) -> Option<i128> {
    if other == 1 {
        return Some(one);
    }
    let common = wide_divisor_of(one, other)?;
    one.checked_div(common)?.checked_mul(other)
}

// A variable's move in lowest terms.
fn move_of(table: &Table, variable: usize, beyond: Option<Beyond>) -> Option<(i128, i128)> {
    let one = table.variable(variable)?;
    if !one.is_basic() {
        let more = own_more(variable, beyond);
        return Some((i128::from(one.stand()).checked_add(more)?, 1));
    }
    let row = table.rows.get(one.row)?;
    let more = match beyond {
        Some(way) => i128::from(row.number_at(way.variable)).checked_mul(way.by)?,
        None => 0,
    };
    let num = row.value.checked_add(more)?;
    if num == 0 {
        return Some((0, 1));
    }
    let den = i128::from(row.den);
    if den == 1 {
        return Some((num, 1));
    }
    let common = wide_divisor_of(num, den)?;
    Some((num.checked_div(common)?, den.checked_div(common)?))
}

// How far a nonbasic variable goes beyond where it stands.
fn own_more(variable: usize, beyond: Option<Beyond>) -> i128 {
    match beyond {
        Some(way) if way.variable == variable => way.by,
        _ => 0,
    }
}

// A world scaled so that a cell moves by a target, 1 or more, where it moves further; other worlds stay.
pub(crate) fn scale_to(alloc: Global, world: World, cell: u32, target: i128) -> Option<World> {
    let size = size_at(world.moves.as_slice(), cell)?;
    if target <= 0 || size <= target.checked_mul(world.den)? {
        return Some(world);
    }
    let common = divisor_at(world.moves.as_slice(), target, size)?;
    let mut moves = Items::empty(alloc);
    for one in world.moves.as_slice() {
        let by = one.by.checked_mul(target)?.checked_div(common)?;
        moves.push(Move { cell: one.cell, by }).ok()?;
    }
    Some(World {
        den: size.checked_div(common)?,
        moves,
    })
}

// How far a cell moves over the den, by size.
fn size_at(moves: &[Move], cell: u32) -> Option<i128> {
    for one in moves {
        if one.cell == cell {
            return one.by.checked_abs();
        }
    }
    Some(0)
}

// What divides a den and all moves, each so many times.
fn divisor_at(moves: &[Move], times: i128, den: i128) -> Option<i128> {
    let mut common = den;
    for one in moves {
        common = wide_divisor_of(common, one.by.checked_mul(times)?)?;
    }
    Some(common)
}
