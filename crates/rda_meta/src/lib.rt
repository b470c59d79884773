//! Metadata of microdata, read exactly: what each variable's bytes are and what they mean.
#![tactic(auto)]

mod arguments;
mod entry;
mod faults;
mod keyword_lines;
mod keywords;
mod laws;
mod line;
mod meta;
mod numbers;
mod reading;
mod said;
mod setting;
mod variable_lines;
mod words;

pub use faults::{MetaError, MetaWhy};
pub use laws::{
    first_fault_is_given, leniency, metadata_are_as_stated, metadata_are_read_again, worked_texts,
};
pub use meta::{Meta, Shape, Variable};
pub use reading::read_meta;
