//! The forms of records that tests read, and their layouts.

ghost use Rattle.std.specs.Prelude.{◌≡◌, ◌+◌, ◌<◌, ◌≤◌, All, IfOk, length};
ghost use Rattle.microdata.specs.Layouts.{IsField, IsLayout, IsNumber, IsSource, IsWeight};

use hierarchy::{TreeFault, from_lead};
use microdata::{Field, Layout, NumberField, Source};
use sdc_base::{Items, Memory, Text};
use std::alloc::Global;

// What the records of a test are read by.
#[derive(Clone, Copy)]
pub(crate) enum Shape {
    // a code of one byte, of which a list has `b`, and a value of three bytes; 999 is missing
    Flat,
    // two codes of two bytes, a field of two bytes that isn't looked at, and a value of three bytes
    Two,
    // a code of five bytes, whose total is `Total`, and a value of eighteen bytes with two decimals
    Wide,
    // a code of two bytes, with levels of one and one, whose total is `T`, and a value of three bytes
    Levels,
    // the same with a code of three bytes
    WideLevels,
    // a code of two bytes in the tree of `P1` with `A1` and `A2`, and of `P2`, whose total is `T`, and a value of
    // three bytes
    Listed,
    // a code of one byte, a value of fifteen, and a weight of eight with two decimals
    Weighted,
}

pub(crate) fn texts(alloc: Global, bytes: &[&[u8]]) -> Result<Items<Text>, Memory> {
    let mut made = Items::empty(alloc);
    'bytes: for one in bytes {
        made.push(Text::from_slice(alloc, one)?)?;
    }
    Ok(made)
}

fn flat_source(alloc: Global) -> Result<Source, Memory>
    ensures { IfOk result IsSource }
{
    let mut codes = Items::empty(alloc);
    codes.push(Text::from_slice(alloc, b"b")?)?;
    let total = Text::from_slice(alloc, b"Total")?;
    Ok(Source::Flat { codes, total })
}

fn level_source(alloc: Global) -> Result<Source, Memory>
    ensures { IfOk result IsSource }
{
    let mut widths = Items::empty(alloc);
    widths.push(1)?;
    widths.push(1)?;
    let total = Text::from_slice(alloc, b"T")?;
    Ok(Source::Levels { widths, total })
}

fn listed_source(alloc: Global) -> Result<Source, Memory>
    ensures { IfOk result IsSource }
{
    let lead = Text::from_slice(alloc, b"@")?;
    let total = Text::from_slice(alloc, b"T")?;
    match from_lead(alloc, b"P1\n@A1\n@A2\nP2\n", &lead, &total) {
        Ok(tree) => Ok(Source::Listed(tree)),
        Err(TreeFault::Memory) => Err(Memory),
        // any other fault leaves other codes than the records have
        Err(_) => flat_source(alloc),
    }
}

// One spanning variable at the front of a record.
fn spanning_of(
    alloc: Global,
    width: u32,
    needed: u32,
    source: Source,
) -> Result<Items<Field>, Memory>
    requires from_one { 1 ≤ width }
    requires inside { width ≤ needed }
    requires source { IsSource source }
    ensures at_most_1 { IfOk result (λ spanning. length spanning ≤ 1) }
    ensures fields { IfOk result (λ spanning. All (IsField needed) spanning) }
{
    let mut spanning = Items::empty(alloc);
    spanning.push(Field {
        first: 1,
        width,
        source,
    })?;
    Ok(spanning)
}

// Two spanning variables of two bytes at the front of a record.
fn two_fields(alloc: Global) -> Result<Items<Field>, Memory>
    ensures at_most_8 { IfOk result (λ spanning. length spanning ≤ 8) }
    ensures fields { IfOk result (λ spanning. All (IsField 9) spanning) }
{
    let mut spanning = spanning_of(alloc, 2, 9, flat_source(alloc)?)?;
    spanning.push(Field {
        first: 3,
        width: 2,
        source: flat_source(alloc)?,
    })?;
    Ok(spanning)
}

fn source_of(alloc: Global, shape: Shape) -> Result<Source, Memory>
    ensures { IfOk result IsSource }
{
    match shape {
        Shape::Levels => level_source(alloc),
        Shape::WideLevels => level_source(alloc),
        Shape::Listed => listed_source(alloc),
        _ => flat_source(alloc),
    }
}

pub(crate) fn layout_of(alloc: Global, shape: Shape) -> Result<Layout, Memory>
    ensures { IfOk result IsLayout }
{
    let source = source_of(alloc, shape)?;
    let missing = texts(alloc, &[b"999"])?;
    match shape {
        Shape::Weighted => weighted(alloc, source, missing),
        Shape::Wide => wide(alloc, source, missing),
        Shape::Two => two(alloc, missing),
        Shape::Flat => plain(alloc, 1, source, missing),
        Shape::WideLevels => plain(alloc, 3, source, missing),
        _ => plain(alloc, 2, source, missing),
    }
}

fn plain(alloc: Global, width: u32, source: Source, missing: Items<Text>) -> Result<Layout, Memory>
    requires from_one { 1 ≤ width }
    requires at_most_3 { width ≤ 3 }
    requires source { IsSource source }
    ensures { IfOk result IsLayout }
{
    let needed = width + 3;
    let spanning = spanning_of(alloc, width, needed, source)?;
    Ok(Layout {
        spanning,
        response: NumberField {
            first: width + 1,
            width: 3,
            decimals: 0,
            missing,
        },
        weight: None,
        needed,
    })
}

fn two(alloc: Global, missing: Items<Text>) -> Result<Layout, Memory>
    ensures { IfOk result IsLayout }
{
    let spanning = two_fields(alloc)?;
    Ok(Layout {
        spanning,
        response: NumberField {
            first: 7,
            width: 3,
            decimals: 0,
            missing,
        },
        weight: None,
        needed: 9,
    })
}

fn wide(alloc: Global, source: Source, missing: Items<Text>) -> Result<Layout, Memory>
    requires source { IsSource source }
    ensures { IfOk result IsLayout }
{
    let spanning = spanning_of(alloc, 5, 23, source)?;
    Ok(Layout {
        spanning,
        response: NumberField {
            first: 6,
            width: 18,
            decimals: 2,
            missing,
        },
        weight: None,
        needed: 23,
    })
}

fn weighted(alloc: Global, source: Source, missing: Items<Text>) -> Result<Layout, Memory>
    requires source { IsSource source }
    ensures { IfOk result IsLayout }
{
    let spanning = spanning_of(alloc, 1, 24, source)?;
    Ok(Layout {
        spanning,
        response: NumberField {
            first: 2,
            width: 15,
            decimals: 0,
            missing,
        },
        weight: Some(NumberField {
            first: 17,
            width: 8,
            decimals: 2,
            missing: Items::empty(alloc),
        }),
        needed: 24,
    })
}
