//! The inputs of a job, from its bytes to its settled cells: what every command that has a job reads first.
//!
//! The files are looked at in one order, which is argus's own, and the first fault is the answer.
#![tactic(auto)]

mod bases;
mod certificate_file;
mod codes;
mod contributors_file;
mod counted;
mod described;
mod faults;
mod fields;
mod file_ref;
mod filled;
mod inputs;
mod kinds;
mod laws;
mod layouts;
mod loading;
mod microdata_file;
mod outputs;
mod purpose;
mod refusal;
mod settled;
mod stated;
mod stop;
mod tables;

pub use bases::base_in_units;
pub use certificate_file::read_certificate_file;
pub use contributors_file::read_contributors_file;
pub use described::DescribedJob;
pub use faults::Fault;
pub use file_ref::FileRef;
pub use inputs::Inputs;
pub use laws::only_cells_are_too_many;
pub use outputs::is_contributors_file;
pub use purpose::Purpose;
pub use settled::{ClassifiedJob, read_settled};
pub use stop::InputStop;
pub use tables::{header_for, read_tables, table_names};
