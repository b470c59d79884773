ghost use Rattle.std.specs.Prelude.{◌≡◌, ◌<◌, ◌≤◌, ◌^◌, ◌+◌, ◌++◌, ◌∷◌, [], ℕ, Bool, List, true, false, length, slice_get, slice_index, slice_set, IfOk, IfSome, None, Some};
ghost use Rattle.std.specs.List.{range_with_len};
ghost use Rattle.sdc_base.specs.declared.relation.Relation.{Relation as AnyRelation};
ghost use Rattle.sdc_base.specs.HiddenSets as spec;
ghost use Rattle.sdc_base.specs.Components.{AreComponents, AreLinked, component, mentions};
ghost use Rattle.sdc_base.specs.Forests.{AreNumbered, IsForest, Joins, LeadsTo, Meet};

use crate::hidden::{Hidden, is_hidden};
use crate::items::Items;
use crate::memory::Memory;
use crate::relation::Relation;
use crate::system::System;
use std::alloc::Global;

/// The connected parts of a hidden set, its components.
#[derive(Drop)]
pub struct Grouping {
    /// The number of each cell's component, none for a shown cell.
    pub of: Items<Option<u32>>,
    /// How many cells each component has.
    pub sizes: Items<u32>,
}

/// The connected parts of a hidden set, with one flag for each cell: two hidden cells are in one component exactly
/// where a chain of relations links them through hidden cells. Components are numbered from 0 in the order of their
/// lowest cells.
///
/// Each cell points to itself or to a lower cell of its component. It takes a walk along these for each hidden cell of
/// each relation, which halves later walks from there, and one look at each cell; its one refusal is want of memory.
///
/// Components and their numbering are argus's own.
pub fn components(alloc: Global, system: &System, hidden: &Hidden) -> Result<Grouping, Memory>
    requires each { length hidden.now.flags ≡ system.now.cells }
    ensures { IfOk result (λ grouping. AreComponents system.now.relations hidden.now.flags grouping.of grouping.sizes) }
{
    let flags = hidden.flags.as_slice();
    let lower = forest_of(alloc, system, flags)?;
    group(alloc, system.cells, flags, lower.as_slice())
}

// A lower cell of its component for each hidden cell, or the cell itself where it is the lowest.
fn forest_of(alloc: Global, system: &System, flags: &[bool]) -> Result<Vec<u32>, Memory>
    requires each { length flags.now ≡ system.now.cells }
    ensures forest { IfOk result (λ lower. IsForest system.now.relations flags.now system.now.cells lower.items) }
    ensures joined { IfOk result (λ lower. (number : ℕ) (one : AnyRelation)
        → slice_get system.now.relations number ≡ Some one → Joins flags.now lower.items one) }
{
    let mut lower = each_alone(alloc, system.cells)?;
    'relations: for relation in system.relations.as_slice() {
        join_relation(system, relation, flags, &mut lower);
    }
    Ok(lower)
}

// Each cell by itself.
fn each_alone(alloc: Global, cells: u32) -> Result<Vec<u32>, Memory>
    ensures { IfOk result (λ lower. lower.items ≡ range_with_len 0 cells) }
{
    let mut lower = Vec::new(alloc);
    'cells: for cell in 0..cells {
        lower.push(cell)?;
    }
    Ok(lower)
}

// Joins the hidden cells that a relation names.
fn join_relation(system: &System, relation: &Relation, flags: &[bool], lower: &mut Vec<u32>)
    requires among { (number : ℕ) × (slice_get system.now.relations number ≡ Some relation.now) }
    requires each { length flags.now ≡ system.now.cells }
    requires forest { IsForest system.now.relations flags.now system.now.cells lower.old.items }
    ensures forest { IsForest system.now.relations flags.now system.now.cells lower.new.items }
    ensures kept { (one other : ℕ) → Meet lower.old.items one other → Meet lower.new.items one other }
    ensures joined { Joins flags.now lower.new.items relation.now }
{
    let Some(first) = first_hidden(relation, flags) else {
        return;
    };
    join_hidden(system, relation, flags, first, relation.total, lower);
    'parts: for part in relation.parts.as_slice() {
        join_hidden(system, relation, flags, first, *part, lower);
    }
}

// The first hidden cell that a relation names: its total, or else a part.
fn first_hidden(relation: &Relation, flags: &[bool]) -> Option<u32>
    ensures none { result ≡ None → (cell : ℕ) → mentions relation.now cell ≡ true
        → spec.is_hidden flags.now cell ≡ false }
    ensures hidden { IfSome result (λ cell. spec.is_hidden flags.now cell ≡ true) }
    ensures named { IfSome result (λ cell. mentions relation.now cell ≡ true) }
{
    if is_hidden(flags, relation.total as usize) {
        return Some(relation.total);
    }
    'parts: for part in relation.parts.as_slice() {
        if is_hidden(flags, *part as usize) {
            return Some(*part);
        }
    }
    None
}

// Joins a cell with a hidden cell that the same relation names, where it is hidden too.
fn join_hidden(
    system: &System,
    relation: &Relation,
    flags: &[bool],
    first: u32,
    cell: u32,
    lower: &mut Vec<u32>,
)
    requires among { (number : ℕ) × (slice_get system.now.relations number ≡ Some relation.now) }
    requires each { length flags.now ≡ system.now.cells }
    requires forest { IsForest system.now.relations flags.now system.now.cells lower.old.items }
    requires hidden { spec.is_hidden flags.now first ≡ true }
    requires first_named { mentions relation.now first ≡ true }
    requires cell_named { mentions relation.now cell ≡ true }
    ensures forest { IsForest system.now.relations flags.now system.now.cells lower.new.items }
    ensures kept { (one other : ℕ) → Meet lower.old.items one other → Meet lower.new.items one other }
    ensures joined { spec.is_hidden flags.now cell ≡ true → Meet lower.new.items first cell }
{
    if is_hidden(flags, cell as usize) {
        join(system, flags, first, cell, lower);
    }
}

// Joins two cells that relations link: the higher of the lowest cells that they lead to points to the lower one.
fn join(system: &System, flags: &[bool], one: u32, other: u32, lower: &mut Vec<u32>)
    requires forest { IsForest system.now.relations flags.now system.now.cells lower.old.items }
    requires one_known { one < system.now.cells }
    requires other_known { other < system.now.cells }
    requires linked { AreLinked system.now.relations flags.now one other }
    ensures forest { IsForest system.now.relations flags.now system.now.cells lower.new.items }
    ensures kept { (first second : ℕ) → Meet lower.old.items first second → Meet lower.new.items first second }
    ensures joined { Meet lower.new.items one other }
{
    let first = lowest(lower, one);
    let second = lowest(lower, other);
    if first < second {
        lower[second as usize] = first;
    } else {
        lower[first as usize] = second;
    }
}

// The lowest cell that a cell leads to. Each second cell on the way is let point past the next one, so that later walks
// are shorter; the cells that met meet still.
fn lowest(lower: &mut Vec<u32>, cell: u32) -> u32
    requires falls { (one : ℕ) → slice_index lower.old.items one ≤ one }
    requires known { cell < length lower.old.items }
    ensures forest { (relations : List AnyRelation) (flags : List Bool) (cells : ℕ)
        → IsForest relations flags cells lower.old.items → IsForest relations flags cells lower.new.items }
    ensures kept { (one other : ℕ) → Meet lower.old.items one other → Meet lower.new.items one other }
    ensures ends { (root : ℕ) → slice_index lower.old.items root ≡ root → slice_index lower.new.items root ≡ root }
    ensures falls { (one : ℕ) → slice_index lower.new.items one ≤ one }
    ensures long { length lower.new.items ≡ length lower.old.items }
    ensures leads { LeadsTo lower.new.items cell result }
    ensures end { slice_index lower.new.items result ≡ result }
    ensures within { result < length lower.new.items }
{
    let mut at = cell;
    'steps: while lower[at as usize] != at {
        let next = lower[at as usize];
        let past = lower[next as usize];
        lower[at as usize] = past;
        at = past;
    }
    at
}

// Numbers the components: a hidden cell that points to itself begins one.
fn group(alloc: Global, cells: u32, flags: &[bool], lower: &[u32]) -> Result<Grouping, Memory>
    requires each { length flags.now ≡ cells }
    requires lower_each { length lower.now ≡ cells }
    requires falls { (cell : ℕ) → slice_index lower.now cell ≤ cell }
    requires hidden { (cell : ℕ) → spec.is_hidden flags.now cell ≡ true
        → spec.is_hidden flags.now (slice_index lower.now cell) ≡ true }
    ensures numbered { IfOk result (λ grouping. AreNumbered flags.now lower.now grouping.of grouping.sizes) }
    ensures each { IfOk result (λ grouping. length grouping.of ≡ cells) }
{
    let mut of = Vec::new(alloc);
    let mut sizes = Vec::new(alloc);
    'cells: for cell in 0..cells {
        let number = number_of(cell, flags, lower, of.as_slice(), &mut sizes)?;
        of.push(number)?;
    }
    Ok(Grouping {
        of: Items::new(of),
        sizes: Items::new(sizes),
    })
}

// The number of the next cell's component, which counts it; none where it is shown.
fn number_of(
    cell: u32,
    flags: &[bool],
    lower: &[u32],
    of: &[Option<u32>],
    sizes: &mut Vec<u32>,
) -> Result<Option<u32>, Memory>
    requires next { cell ≡ length of.now }
    requires known { cell < length lower.now }
    requires fewer_than_2_32 { cell + 1 < 2 ^ 32 }
    requires falls { (one : ℕ) → slice_index lower.now one ≤ one }
    requires hidden { (one : ℕ) → spec.is_hidden flags.now one ≡ true
        → spec.is_hidden flags.now (slice_index lower.now one) ≡ true }
    requires numbered { AreNumbered flags.now lower.now of.now sizes.old.items }
    ensures { IfOk result (λ number. AreNumbered flags.now lower.now (of.now ++ number ∷ []) sizes.new.items) }
{
    if is_hidden(flags, cell as usize) {
        let number = number_hidden(cell, flags, lower, of, sizes)?;
        return Ok(Some(number));
    }
    Ok(None)
}

// The number of the next cell's component, which counts it; the cell is hidden. It begins a component where the cell
// that it points to has none so far, since that is the cell itself.
fn number_hidden(
    cell: u32,
    flags: &[bool],
    lower: &[u32],
    of: &[Option<u32>],
    sizes: &mut Vec<u32>,
) -> Result<u32, Memory>
    requires next { cell ≡ length of.now }
    requires known { cell < length lower.now }
    requires fewer_than_2_32 { cell + 1 < 2 ^ 32 }
    requires falls { (one : ℕ) → slice_index lower.now one ≤ one }
    requires this_hidden { spec.is_hidden flags.now cell ≡ true }
    requires hidden { (one : ℕ) → spec.is_hidden flags.now one ≡ true
        → spec.is_hidden flags.now (slice_index lower.now one) ≡ true }
    requires numbered { AreNumbered flags.now lower.now of.now sizes.old.items }
    ensures { IfOk result (λ number. AreNumbered flags.now lower.now (of.now ++ Some number ∷ []) sizes.new.items) }
{
    let Some(number) = component_at(of, lower[cell as usize]) else {
        let number = sizes.len() as u32;
        sizes.push(1)?;
        return Ok(number);
    };
    count_in(sizes, number);
    Ok(number)
}

// Counts a cell more in a component.
fn count_in(sizes: &mut Vec<u32>, number: u32)
    requires known { number < length sizes.old.items }
    requires room { slice_index sizes.old.items number + 1 < 2 ^ 32 }
    ensures { sizes.new.items ≡ slice_set sizes.old.items number (slice_index sizes.old.items number + 1) }
{
    let size = sizes[number as usize];
    sizes[number as usize] = size + 1;
}

// The number of a cell's component, none where it has none so far.
pub(crate) fn component_at(of: &[Option<u32>], cell: u32) -> Option<u32>
    ensures { result ≡ component of.now cell }
{
    match of.get(cell as usize) {
        Some(number) => *number,
        None => None,
    }
}
