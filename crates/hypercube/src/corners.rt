ghost use Rattle.std.specs.Prelude.{◌≡◌, ◌<◌, ◌≤◌, ◌+◌, ◌++◌, [], true, map, length, drop, insert, option_to_list, slice_set, IfOk, OnOk};
ghost use Rattle.sdc_base.specs.Cubes as spec;
ghost use Rattle.hypercube.specs.Branches.{cell_in_layer, cell_with_codes, corners_beyond, with_corners};
ghost use Rattle.hypercube.specs.Branches as branches;

use arrayvec::ArrayVec;
use linked_tables::Book;
use sdc_base::{Corner, Edge, Few, Items, Memory, Place, with_code};
use std::alloc::Global;

// A layer of table t: the cells in which the variables behind those of the edges have these codes.
#[derive(Drop)]
struct Layer<'a> {
    book: &'a Book,
    t: u32,
    codes: &'a [u32],
}

/// The corners along edges in table t, by the numbers of their cells upwards, where all further variables of the table
/// have these codes.
pub(crate) fn corners_of(
    alloc: Global,
    book: &Book,
    t: u32,
    edges: &[Edge],
    codes: &[u32],
) -> Result<Items<Corner>, Memory>
    requires at_most_8 { length edges.now ≤ 8 }
    requires fewer { length codes.now ≤ 8 }
    ensures { IfOk result (λ corners. corners
        ≡ spec.corners_of (cell_with_codes book.now t codes.now) edges.now) }
{
    let mut corners = Vec::new(alloc);
    let layer = Layer { book, t, codes };
    add_corners(&layer, edges, &Few::empty(), true, &mut corners)?;
    Ok(Items::new(corners))
}

// Adds the corners at the places that begin so and go on along the edges that are left.
fn add_corners(
    layer: &Layer,
    edges: &[Edge],
    place: &Place,
    plus: bool,
    corners: &mut Vec<Corner>,
) -> Result<(), Memory>
    requires at_most_8 { length edges.now ≤ 8 }
    requires fewer { length layer.now.codes.now ≤ 8 }
    ensures { OnOk result (corners.new.items
        ≡ with_corners corners.old.items
        (corners_beyond (cell_in_layer layer.now) place.now plus (drop (length place.now) edges.now))) }
{
    let k = place.len();
    if k >= edges.len() {
        return add_corner(layer, place, plus, corners);
    }
    let edge = edges[k];
    let own = with_code(place.as_slice(), edge.code);
    add_corners(layer, edges, &own, plus, corners)?;
    let other = with_code(place.as_slice(), edge.other);
    add_corners(layer, edges, &other, sign_over(edge, plus), corners)
}

// Adds the corner at a place that the layer's codes complete, where a cell stands there.
fn add_corner(
    layer: &Layer,
    place: &Place,
    plus: bool,
    corners: &mut Vec<Corner>,
) -> Result<(), Memory>
    requires fewer { length layer.now.codes.now ≤ 8 }
    ensures { OnOk result (corners.new.items
        ≡ with_corners corners.old.items
        (option_to_list (spec.corner_at (cell_in_layer layer.now) (place.now, plus)))) }
{
    let whole = place_with(place, layer.codes);
    if let Some(cell) = layer.book.id(layer.t, whole.as_slice()) {
        put_in(corners, Corner { cell, plus })?;
    }
    Ok(())
}

/// A place with these codes behind it.
pub(crate) fn place_with(place: &Place, codes: &[u32]) -> ArrayVec<u32, 16>
    requires { length codes.now ≤ 8 }
    ensures { result.items ≡ place.now ++ codes.now }
{
    let _ = place.len();
    let mut whole: ArrayVec<u32, 16> = ArrayVec::new();
    'place: for code in place.as_slice() {
        whole.push(*code);
    }
    'codes: for code in codes {
        whole.push(*code);
    }
    whole
}

/// A place with another code for variable k.
pub(crate) fn place_over(codes: &Place, k: usize, other: u32) -> Place
    ensures { result ≡ slice_set codes.now k other }
{
    let mut place = codes.copy().into_array();
    if k < place.len() {
        place[k] = other;
    }
    Few::new(place)
}

/// The partners of these edges.
pub(crate) fn partners_of(edges: &Few<Edge, 8>) -> Place
    ensures { result ≡ map (λ edge. edge.other) edges.now }
{
    let _ = edges.len();
    let mut partners: ArrayVec<u32, 8> = ArrayVec::new();
    'edges: for edge in edges.as_slice() {
        partners.push(edge.other);
    }
    Few::new(partners)
}

/// The sign at the partners of all these edges.
pub(crate) fn sign_beyond(edges: &[Edge]) -> bool
    ensures { result ≡ branches.sign_beyond edges.now }
{
    let mut plus = true;
    'edges: for edge in edges {
        plus = sign_over(*edge, plus);
    }
    plus
}

/// The sign at the other end of an edge.
pub(crate) fn sign_over(edge: Edge, plus: bool) -> bool
    ensures { result ≡ spec.sign_over edge plus }
{
    if edge.equal { plus } else { !plus }
}

// Puts a corner behind all that have no higher number.
fn put_in(corners: &mut Vec<Corner>, new: Corner) -> Result<(), Memory>
    ensures { OnOk result (corners.new.items ≡ spec.with_corner corners.old.items new) }
{
    let at = corner_place(corners, new);
    corners.insert(at, new)?;
    Ok(())
}

// How many stand before the first that has a higher number.
fn corner_place(corners: &[Corner], new: Corner) -> usize
    ensures place { insert corners.now result new ≡ spec.with_corner corners.now new }
    ensures within { result ≤ length corners.now }
{
    for (i, corner) in corners.iter().enumerate() {
        if new.cell < corner.cell {
            return i;
        }
    }
    corners.len()
}
