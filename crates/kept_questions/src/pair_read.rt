// What a search found, by the labels of the asked cell's component in the pattern.
use crate::component::Component;
use crate::pair::MovePair;
use crate::sides::place_after;
use crate::unfit::Unfit;
use compact_search::{ListPlace, ListTerm, MoveLists};
use sdc_base::{Cell, Items};
use std::alloc::Global;
use worlds::Pattern;

// The places of the labels in a list, one behind the value: of the upper and of the lower bound of each cell, and of the
// form of each relation; none outside of the component.
#[derive(Drop)]
struct Places {
    above: Vec<Option<u32>>,
    below: Vec<Option<u32>>,
    forms: Vec<Option<u32>>,
}

// The lists and weights of a search for a component. What stands at other cells and relations is left
// out.
pub(crate) fn pair_of(
    alloc: Global,
    pattern: &Pattern<'_>,
    component: &Component,
    found: &MoveLists,
) -> Result<MovePair, Unfit> {
    let places = places_of(alloc, pattern, component)?;
    let lists = lists_of(alloc, pattern.system.cells as usize, found, &places)?;
    let relations = pattern.system.relations.as_slice();
    let weights = weights_of(alloc, relations.len(), &found.weights)?;
    Ok(MovePair {
        den: found.den,
        lists,
        q: found.q,
        weights,
    })
}

// The places of a component's labels: cell by cell its upper bound, if it has one, before its lower one; then relation
// by relation its form before its negated one.
fn places_of(alloc: Global, pattern: &Pattern<'_>, component: &Component) -> Result<Places, Unfit> {
    let cells = pattern.system.cells as usize;
    let relations = pattern.system.relations.as_slice();
    let mut places = Places {
        above: Vec::from_elem(alloc, None, cells)?,
        below: Vec::from_elem(alloc, None, cells)?,
        forms: Vec::from_elem(alloc, None, relations.len())?,
    };
    let mut next = 1;
    for number in &component.members {
        next = put_caps(&mut places, pattern.cells, *number, next)?;
    }
    put_forms(&mut places.forms, &component.met, next)?;
    Ok(places)
}

// Puts the places of a cell's bounds, the first of them this one; the place behind.
fn put_caps(places: &mut Places, cells: &[Cell], number: u32, first: u32) -> Result<u32, Unfit> {
    let Some(cell) = cells.get(number as usize) else {
        return Err(Unfit);
    };
    if cell.high.is_none() {
        put_place(&mut places.below, number, first)?;
        return place_after(first);
    }
    put_place(&mut places.above, number, first)?;
    let next = place_after(first)?;
    put_place(&mut places.below, number, next)?;
    place_after(next)
}

// Puts the places of relations' forms, the first of them this one, and each behind the negated form before it.
fn put_forms(forms: &mut [Option<u32>], met: &[u32], first: u32) -> Result<(), Unfit> {
    let mut next = first;
    for number in met {
        put_place(forms, *number, next)?;
        let negated = place_after(next)?;
        next = place_after(negated)?;
    }
    Ok(())
}

// Puts the place of one.
fn put_place(places: &mut [Option<u32>], number: u32, place: u32) -> Result<(), Unfit> {
    let Some(slot) = places.get_mut(number as usize) else {
        return Err(Unfit);
    };
    *slot = Some(place);
    Ok(())
}

// The list of each of so many cells; the empty one for those outside of the component.
fn lists_of(
    alloc: Global,
    cells: usize,
    found: &MoveLists,
    places: &Places,
) -> Result<Vec<Items<(u32, i128)>>, Unfit> {
    let mut lists = empty_lists(alloc, cells)?;
    for one in &found.moves {
        if place_in(&places.below, one.cell).is_some() {
            let terms = terms_of(alloc, &one.terms, places)?;
            put_list(&mut lists, one.cell, terms)?;
        }
    }
    Ok(lists)
}

// So many empty lists.
fn empty_lists(alloc: Global, count: usize) -> Result<Vec<Items<(u32, i128)>>, Unfit> {
    let mut lists = Vec::new(alloc);
    for _list in 0..count {
        lists.push(Items::empty(alloc))?;
    }
    Ok(lists)
}

// Puts the list of a cell.
fn put_list(
    lists: &mut [Items<(u32, i128)>],
    cell: u32,
    terms: Vec<(u32, i128)>,
) -> Result<(), Unfit> {
    let Some(slot) = lists.get_mut(cell as usize) else {
        return Err(Unfit);
    };
    *slot = Items::new(terms);
    Ok(())
}

// The terms of a list that stand at the component's labels.
fn terms_of(alloc: Global, list: &[ListTerm], places: &Places) -> Result<Vec<(u32, i128)>, Unfit> {
    let mut terms = Vec::new(alloc);
    for term in list {
        if let Some(place) = place_of(places, term.place) {
            terms.push((place, term.number))?;
        }
    }
    Ok(terms)
}

// The place of a label, if it is one of the component's.
fn place_of(places: &Places, place: ListPlace) -> Option<u32> {
    match place {
        ListPlace::Value => Some(0),
        ListPlace::CapAbove(cell) => place_in(&places.above, cell),
        ListPlace::CapBelow(cell) => place_in(&places.below, cell),
        ListPlace::Form(number) => place_in(&places.forms, number),
        ListPlace::Negated(number) => place_in(&places.forms, number)?.checked_add(1),
    }
}

// The place of one, if it has one.
fn place_in(places: &[Option<u32>], number: u32) -> Option<u32> {
    *places.get(number as usize)?
}

// The weight of each of so many relations.
fn weights_of(alloc: Global, relations: usize, found: &[(u32, i128)]) -> Result<Vec<i128>, Unfit> {
    let mut weights = Vec::from_elem(alloc, 0, relations)?;
    for one in found {
        let Some(slot) = weights.get_mut(one.0 as usize) else {
            return Err(Unfit);
        };
        *slot = one.1;
    }
    Ok(weights)
}
