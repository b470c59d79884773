ghost use Rattle.std.specs.Prelude.{◌≡◌, ◌<◌, ◌++◌, ◌∷◌, [], ◌≤ℤ◌, pos, length, drop, option_map, true, None, Some, if◌then◌else◌, slice_index_or, All, IfOk};
ghost use Rattle.cost_rule.specs.Costs.{AreCosted};
ghost use Rattle.std.specs.Option.{ForSome};
ghost use Rattle.sdc_base.specs.Cubes as spec;
ghost use Rattle.linked_tables.specs.BookCells as book_cells;
ghost use Rattle.hypercube.specs.Branches.{best_beyond, shared_corners};
ghost use Rattle.hypercube.specs.LeastCubes.{least_cube};
ghost use Rattle.hypercube.specs.Ranks as ranks;

use crate::corners::{corners_of, partners_of, place_over, place_with, sign_beyond, sign_over};
use crate::edges::{codes_at, codes_behind, edges_at};
use crate::order::{Offer, better_of, costs_more};
use crate::pricing::{price_of_hiding, price_to_hide};
use crate::ranking::{PricedEdge, all_rankings, list_at};
use crate::serving::{bears_at, serve};
use arrayvec::ArrayVec;
use cost_rule::{CostRule, TellsCosts};
use linked_tables::Book;
use sdc_base::{Cell, Corner, Cube, Dimensions, Edge, Few, Items, Levels, Memory, Place, Subtable};
use std::alloc::Global;
use std::marker::Model;

/// The least cube of a cell in a subtable, of those that serve these levels: the one whose corners that aren't hidden
/// yet cost least together, and of those the one whose corners have the lowest numbers. There is none exactly where
/// no cube serves.
///
/// The cell is one of the book, the facts of each mark are in the range of the rule, and the levels are 0 or more, in
/// units. For each cell of the book `cells` has its bounds, kind and price; a cell that it doesn't have is no corner. A
/// corner is hidden by its mark, whichever table it was hidden in. The one refusal is want of memory, which leaves
/// everything as it was.
///
/// It chooses a partner for one variable after the other. A partner's own corner is the one that has the cell's code
/// for each other variable: a partner whose own corner doesn't bear the levels is never chosen, and the others are
/// tried by the prices of theirs, upwards. A choice is left as soon as one of the corners that all its cubes share
/// doesn't bear the levels, or these corners together cost more than the best cube so far; and a variable as soon as
/// the next partner's own corner makes them cost more. From the second variable on a partner is passed over where the
/// corner that has it and all partners chosen before doesn't bear the levels, or makes them cost more. That takes a
/// look-up for each partner of each variable and a sort of them, one for each that is come to from the second variable
/// on, and for each choice that isn't left 2 to the number of its partners look-ups; and memory for the partners and
/// for as many corners.
///
/// Cubes, partners and signs are those of the handbook's hypercube method; the levels that they serve and the order of
/// cubes are argus's own.
pub fn cheapest<F: TellsCosts>(
    alloc: Global,
    book: &Book,
    cells: &[Cell],
    rule: &CostRule<F>,
    subtable: &Subtable,
    cell: u32,
    levels: Levels,
) -> Result<Option<Cube>, Memory>
    requires known { cell < length (book_cells.cells book.now) }
    requires costed { All (λ mark. AreCosted mark.facts) book.now.marks }
    requires up { pos 0 ≤ℤ levels.up }
    requires down { pos 0 ≤ℤ levels.down }
    ensures least { IfOk result (λ cube. option_map (λ one. one.corners) cube
        ≡ least_cube book.now cells.now rule.now subtable.now cell levels) }
    ensures serves { IfOk result (λ cube. ForSome cube (λ one. spec.serve cells.now levels one.corners ≡ true)) }
{
    // for the proof: what holds of every book
    let _ = book.cells();
    let name = name_of(book, cell);
    let table = table_of(book, subtable.table);
    let lists = edges_at(alloc, book, &name, &table, &subtable.parents)?;
    let codes = codes_at(&name, &table, &subtable.parents);
    let search = Search {
        book,
        cells,
        rule,
        table: subtable.table,
        levels,
        codes: &codes,
    };
    let ranked = all_rankings(alloc, &search, lists.as_slice())?;
    let best = search.better(alloc, ranked.as_slice(), &Few::empty(), None)?;
    Ok(cube_of(best))
}

// The cube of an offer.
fn cube_of(offer: Option<Offer>) -> Option<Cube>
    ensures { option_map (λ cube. cube.corners) result ≡ option_map (λ one. one.1) offer }
{
    let (_, corners) = offer?;
    Some(Cube { corners })
}

// The name of a cell.
fn name_of(book: &Book, cell: u32) -> Place
    ensures { result ≡ slice_index_or (book_cells.cells book.now) cell [] }
{
    match book.name(cell) {
        Some(name) => name.copy(),
        None => Few::empty(),
    }
}

// The variables that a table spans, with their depths; none where there is no such table.
fn table_of(book: &Book, t: u32) -> Dimensions
    ensures { result ≡ slice_index_or book.now.tables t [] }
{
    match book.spans(t) {
        Some(table) => table.copy(),
        None => Few::empty(),
    }
}

/// What a search for the least cube of a cell goes by.
#[derive(Drop)]
pub(crate) struct Search<'a, F: TellsCosts> {
    book: &'a Book,
    cells: &'a [Cell],
    rule: &'a CostRule<F>,
    // The subtable's table.
    table: u32,
    levels: Levels,
    // The cell's codes, variable by variable of the table.
    codes: &'a Place,
}

impl<'a, F: TellsCosts> Model for Search<'a, F> {
    ghost use Rattle.hypercube.specs.Branches.{Setting, IsSearchable, setting_of};

    ghost Value = { Setting };

    ghost view = { λ s. setting_of s.book.now s.cells.now s.rule.now s.table s.levels s.codes.now };

    ghost invariant = { λ s. IsSearchable (setting_of s.book.now s.cells.now s.rule.now s.table s.levels s.codes.now) };
}

impl<'a, F: TellsCosts> Search<'a, F> {
    // The best of an offer and those of the cubes that have these edges and go on with one of each list that is
    // left. All of them are left out where a corner that they share doesn't bear the levels, or where their shared
    // corners cost more than the offer. A list is left at the first edge whose own corner makes them cost more, and an
    // edge is passed over where the corner at all partners does.
    fn better(
        &self,
        alloc: Global,
        lists: &[Items<PricedEdge>],
        chosen: &Few<Edge, 8>,
        best: Option<Offer>,
    ) -> Result<Option<Offer>, Memory>
        requires ranked { ranks.AreRanked self.now lists.now }
        requires begun { ranks.BeginAt self.now chosen.now }
        ensures { IfOk result (λ found. found
            ≡ best_beyond self.now best chosen.now (drop (length chosen.now) (ranks.edge_lists lists.now))) }
    {
        let k = chosen.len();
        let corners = self.shared_corners(alloc, chosen)?;
        if !serve(self.cells, self.levels, corners.as_slice()) {
            return Ok(best);
        }
        let price = price_of_hiding(self.book, self.cells, self.rule, corners.as_slice());
        if costs_more(price, &best) {
            return Ok(best);
        }
        if k >= lists.len() {
            return Ok(Some(better_of(best, (price, corners))));
        }
        let mut found = best;
        let next = list_at(lists, k);
        'edges: for one in next {
            let more = price.saturating_add(u128::from(one.price));
            if costs_more(more, &found) {
                return Ok(found);
            }
            let longer = with_edge(chosen, one.edge);
            if self.is_left(&longer, more, &found) {
                continue 'edges;
            }
            found = self.better(alloc, lists, &longer, found)?;
        }
        Ok(found)
    }

    // Whether no cube with these edges is better than the best offer so far, since the corner at all their partners
    // doesn't bear the levels, or costs too much beside others that cost at least so much. Of one edge that is its own
    // corner, which has been looked at.
    fn is_left(&self, edges: &Few<Edge, 8>, price: u128, best: &Option<Offer>) -> bool
        ensures { result ≡ true → ranks.IsLeft self.now edges.now price best.now }
    {
        if edges.len() < 2 {
            return false;
        }
        match self.price_where_borne(self.opposite(edges)) {
            Some(own) => costs_more(price.saturating_add(u128::from(own)), best),
            None => true,
        }
    }

    /// What the own corner of an edge of variable k costs, where it bears the levels.
    pub(crate) fn price_where_served(&self, k: usize, edge: Edge) -> Option<u64>
        ensures { result ≡ (if ranks.serves_over self.now k edge then Some (ranks.price_over self.now k edge) else None) }
    {
        self.price_where_borne(self.corner_over(k, edge))
    }

    // What a corner costs, where it bears the levels.
    fn price_where_borne(&self, corner: Option<Corner>) -> Option<u64>
        ensures { result ≡ (if ranks.serves_at self.now corner then Some (ranks.price_at self.now corner) else None) }
    {
        let Some(corner) = corner else {
            return Some(0);
        };
        if !bears_at(self.cells, self.levels, corner) {
            return None;
        }
        Some(price_to_hide(self.book, self.cells, self.rule, corner.cell))
    }

    // The corner of an edge of variable k alone, which has the cell's own code for each other variable.
    fn corner_over(&self, k: usize, edge: Edge) -> Option<Corner>
        ensures { result ≡ ranks.corner_over self.now k edge }
    {
        let place = place_over(self.codes, k, edge.other);
        let cell = self.book.id(self.table, place.as_slice())?;
        let plus = sign_over(edge, true);
        Some(Corner { cell, plus })
    }

    // The corner at the partners of all these edges, which has the cell's own code for each further variable.
    fn opposite(&self, edges: &Few<Edge, 8>) -> Option<Corner>
        ensures { result ≡ ranks.opposite self.now edges.now }
    {
        let codes = codes_behind(self.codes.as_slice(), edges.len());
        let place = place_with(&partners_of(edges), codes);
        let cell = self.book.id(self.table, place.as_slice())?;
        let plus = sign_beyond(edges.as_slice());
        Some(Corner { cell, plus })
    }

    // The corners that each cube has which begins with these edges.
    fn shared_corners(&self, alloc: Global, chosen: &Few<Edge, 8>) -> Result<Items<Corner>, Memory>
        ensures { IfOk result (λ corners. corners ≡ shared_corners self.now chosen.now) }
    {
        let codes = codes_behind(self.codes.as_slice(), chosen.len());
        corners_of(alloc, self.book, self.table, chosen.as_slice(), codes)
    }
}

// These edges and one more.
fn with_edge(edges: &Few<Edge, 8>, edge: Edge) -> Few<Edge, 8>
    requires { length edges.now < 8 }
    ensures { result ≡ edges.now ++ edge ∷ [] }
{
    let mut longer: ArrayVec<Edge, 8> = ArrayVec::new();
    'edges: for next in edges.as_slice() {
        longer.push(*next);
    }
    longer.push(edge);
    Few::new(longer)
}
