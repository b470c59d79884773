//! The plain types of argus, and the definitions on which its contracts stand.
#![tactic(auto)]

mod cell;
mod cells;
mod component_rows;
mod connected;
mod cube;
mod dimension;
mod duality;
mod ends;
mod facts;
mod few;
mod fraction;
mod hidden;
mod items;
mod kinds;
mod laws;
mod links;
mod memory;
mod method;
mod number_fault;
mod relation;
mod relation_signs;
mod rows;
mod rule;
mod rules;
mod side;
mod system;
mod text;
mod tops;
mod trail;

pub use cell::{Cell, Kind};
pub use cells::{name_at, with_code};
pub use component_rows::rows_of;
pub use connected::{Grouping, components};
pub use cube::{Corner, Cube, Edge, Subtable};
pub use dimension::{Dimension, Dimensions, whole_table};
pub use duality::weak_duality;
pub use ends::{End, Ends, ends_of};
pub use facts::{CellFacts, Levels};
pub use few::{Few, Place};
pub use fraction::Fraction;
pub use hidden::{Hidden, is_hidden};
pub use items::Items;
pub use laws::{
    deeper_changes_nothing, examples, falls_where_under_in_each, flat_is_code_tree,
    names_are_first, places_are_lexicographic, ranking_is_fair, tables_add_up, under_is_tested,
};
pub use memory::Memory;
pub use method::Method;
pub use number_fault::NumberFault;
pub use relation::Relation;
pub use relation_signs::signs;
pub use rows::{Row, weighted_value};
pub use rule::{Rule, Rules};
pub use rules::is_too_few;
pub use side::Side;
pub use system::System;
pub use text::Text;
pub use tops::{TopList, Tops, Unit};
pub use trail::{PlanStep, Trail};
