//! The partners that a cell's cubes may have, by variable, in the order of the least cube: those whose own corner costs
//! least come first, so a search comes to the least cube early.

ghost use Rattle.std.specs.Prelude.{◌≡◌, ◌++◌, ◌∷◌, [], if◌then◌else◌, slice_index_or, IfOk, OnOk};
ghost use Rattle.hypercube.specs.Ranks.{AreRankings, IsRanking, priced_of, serves_over, with_price};

use crate::search::Search;
use cost_rule::TellsCosts;
use sdc_base::{Edge, Items, Memory};
use std::alloc::Global;

/// An edge with what its own corner costs.
#[derive(Clone, Copy)]
pub(crate) struct PricedEdge {
    pub(crate) price: u64,
    pub(crate) edge: Edge,
}

/// The edges of each variable with the prices of their own corners, by these upwards; those whose own corner doesn't
/// bear the levels are left out.
pub(crate) fn all_rankings<F: TellsCosts>(
    alloc: Global,
    search: &Search<'_, F>,
    lists: &[Items<Edge>],
) -> Result<Vec<Items<PricedEdge>>, Memory>
    ensures { IfOk result (λ ranked. AreRankings search.now 0 lists.now ranked.items) }
{
    let mut ranked = Vec::new(alloc);
    'variables: for k in 0..lists.len() {
        let list = ranking(alloc, search, k, list_at(lists, k))?;
        ranked.push(list)?;
    }
    Ok(ranked)
}

/// The list of variable k; none behind the last variable.
pub(crate) fn list_at<T>(lists: &[Items<T>], k: usize) -> &[T]
    ensures { result.now ≡ slice_index_or lists.now k [] }
{
    match lists.get(k) {
        Some(list) => list.as_slice(),
        None => &[],
    }
}

// The edges of variable k.
fn ranking<F: TellsCosts>(
    alloc: Global,
    search: &Search<'_, F>,
    k: usize,
    edges: &[Edge],
) -> Result<Items<PricedEdge>, Memory>
    ensures { IfOk result (λ ranked. IsRanking search.now k edges.now ranked) }
{
    let mut priced = priced_edges(alloc, search, k, edges)?;
    priced.sort_unstable_by_key(|one| one.price);
    Ok(Items::new(priced))
}

// Those whose own corner bears the levels, each with its price.
fn priced_edges<F: TellsCosts>(
    alloc: Global,
    search: &Search<'_, F>,
    k: usize,
    edges: &[Edge],
) -> Result<Vec<PricedEdge>, Memory>
    ensures { IfOk result (λ priced. priced.items ≡ priced_of search.now k edges.now) }
{
    let mut priced = Vec::new(alloc);
    'edges: for edge in edges {
        add_priced(search, k, *edge, &mut priced)?;
    }
    Ok(priced)
}

// Adds an edge, unless its own corner doesn't bear the levels.
fn add_priced<F: TellsCosts>(
    search: &Search<'_, F>,
    k: usize,
    edge: Edge,
    priced: &mut Vec<PricedEdge>,
) -> Result<(), Memory>
    ensures { OnOk result (priced.new.items
        ≡ (if serves_over search.now k edge then priced.old.items ++ with_price search.now k edge ∷ []
        else priced.old.items)) }
{
    if let Some(price) = search.price_where_served(k, edge) {
        priced.push(PricedEdge { price, edge })?;
    }
    Ok(())
}
