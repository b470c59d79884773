//! Integer pivoting: a linear problem, and its tables in whole numbers over one denominator.
#![tactic(auto)]

mod column;
mod common_divisor;
mod crossing;
mod dividing;
mod divisor;
mod entering;
mod entries;
mod exchange;
mod faults;
mod first_table;
mod laws;
mod leaving;
mod lists;
mod lowest_row;
mod multiples;
mod numbers_over;
mod placing;
mod problem;
mod products;
mod reads;
mod sparse_rows;
mod sparse_table;
mod step;
mod stepping;
mod tableau;

pub use common_divisor::gcd;
pub use laws::{
    blocked_tables_are_one, exchanges_keep, lists_rise, pairs_are_read, tables_solve,
    walks_are_one_and_short, worked_rows,
};
pub use problem::{LinRow, Problem};
pub use step::Step;
pub use tableau::Tableau;
