// A component of a system: its hidden cells and its relations, as variables are made of them.
use crate::bounds::{Bounds, bounds_of};
use crate::entry::Entry;
use sdc_base::{Cell, Relation, System, is_hidden};
use std::alloc::Global;

// The hidden cells, ascending, with their bounds, and the relations with their forms on the hidden cells' places: 1 for
// a total, -1 for a part.
#[derive(Drop)]
pub(crate) struct Component {
    pub(crate) cells: Vec<u32>,
    pub(crate) bounds: Vec<Bounds>,
    pub(crate) relations: Vec<u32>,
    pub(crate) forms: Vec<Vec<Entry>>,
}

// That of the relations with these numbers; none where a number leaves 64 bits, a cell has no bounds, or memory is
// wanting.
pub(crate) fn component_of(
    alloc: Global,
    system: &System,
    cells: &[Cell],
    flags: &[bool],
    relations: &[u32],
) -> Option<Component> {
    let all = system.relations.as_slice();
    let numbers = cells_of(alloc, all, flags, relations)?;
    let bounds = all_bounds(alloc, cells, &numbers)?;
    let mut component = Component {
        cells: numbers,
        bounds,
        relations: Vec::new(alloc),
        forms: Vec::new(alloc),
    };
    for number in relations {
        let relation = all.get(*number as usize)?;
        put_relation(alloc, &mut component, *number, relation)?;
    }
    Some(component)
}

// Puts a relation with its form behind, unless it counts no hidden cell.
fn put_relation(
    alloc: Global,
    component: &mut Component,
    number: u32,
    relation: &Relation,
) -> Option<()> {
    let form = form_of(alloc, relation, &component.cells)?;
    if form.is_empty() {
        return Some(());
    }
    component.relations.push(number).ok()?;
    component.forms.push(form).ok()
}

// The hidden cells that relations count, ascending.
fn cells_of(
    alloc: Global,
    all: &[Relation],
    flags: &[bool],
    relations: &[u32],
) -> Option<Vec<u32>> {
    let mut found = Vec::new(alloc);
    for number in relations {
        let relation = all.get(*number as usize)?;
        put_hidden(&mut found, flags, relation.total)?;
        put_all_hidden(&mut found, flags, relation.parts.as_slice())?;
    }
    found.sort_by_key(|cell| *cell).ok()?;
    each_once(alloc, &found)
}

// Puts the hidden ones of cells behind.
fn put_all_hidden(found: &mut Vec<u32>, flags: &[bool], cells: &[u32]) -> Option<()> {
    for cell in cells {
        put_hidden(found, flags, *cell)?;
    }
    Some(())
}

// Puts a cell behind where it is hidden.
fn put_hidden(found: &mut Vec<u32>, flags: &[bool], cell: u32) -> Option<()> {
    if !is_hidden(flags, cell as usize) {
        return Some(());
    }
    found.push(cell).ok()
}

// Each number of an ascending list once.
fn each_once(alloc: Global, numbers: &[u32]) -> Option<Vec<u32>> {
    let mut once = Vec::new(alloc);
    let mut last = None;
    for number in numbers {
        if last != Some(*number) {
            once.push(*number).ok()?;
        }
        last = Some(*number);
    }
    Some(once)
}

// The bounds of cells.
fn all_bounds(alloc: Global, cells: &[Cell], numbers: &[u32]) -> Option<Vec<Bounds>> {
    let mut bounds = Vec::new(alloc);
    for number in numbers {
        let cell = cells.get(*number as usize)?;
        bounds.push(bounds_of(cell)?).ok()?;
    }
    Some(bounds)
}

// A relation's form on the places of cells.
fn form_of(alloc: Global, relation: &Relation, cells: &[u32]) -> Option<Vec<Entry>> {
    let mut form = Vec::new(alloc);
    put_place(&mut form, cells, relation.total, 1)?;
    for part in relation.parts.as_slice() {
        put_place(&mut form, cells, *part, -1)?;
    }
    form.sort_by_key(|entry| entry.variable).ok()?;
    Some(form)
}

// Puts the number at a cell's place behind, if it has one.
fn put_place(form: &mut Vec<Entry>, cells: &[u32], cell: u32, number: i64) -> Option<()> {
    let Some(variable) = place_of(cells, cell) else {
        return Some(());
    };
    form.push(Entry { variable, number }).ok()
}

// The place of a cell in an ascending list.
pub(crate) fn place_of(cells: &[u32], cell: u32) -> Option<usize> {
    cells.binary_search(&cell).ok()
}

// A copy of a component.
pub(crate) fn copy_of(alloc: Global, component: &Component) -> Option<Component> {
    let mut forms = Vec::new(alloc);
    for form in &component.forms {
        forms.push(form.as_slice().to_vec(alloc).ok()?).ok()?;
    }
    Some(Component {
        cells: component.cells.as_slice().to_vec(alloc).ok()?,
        bounds: component.bounds.as_slice().to_vec(alloc).ok()?,
        relations: component.relations.as_slice().to_vec(alloc).ok()?,
        forms,
    })
}
