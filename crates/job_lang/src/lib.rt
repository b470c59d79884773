//! Jobs: what an office wants done with its microdata, read exactly and bound to metadata.
#![tactic(auto)]

mod arguments;
mod binding;
mod binding_faults;
mod bound;
mod closing;
mod cursor;
mod faults;
mod job;
mod keywords;
mod laws;
mod lines;
mod looked_up;
mod pieces;
mod reading;
mod rule_clauses;
mod rule_texts;
mod rules;
mod statement;
mod table_texts;
mod texts;

pub use binding::bind;
pub use binding_faults::{is_code_list, is_hierarchy_file};
pub use bound::Bound;
pub use cost_rule::CostKind;
pub use faults::{Command, JobError, JobWhy};
pub use job::{DepthLine, Job, OutputLine, PriorLine, TableLine};
pub use laws::{
    binding_by_name, binding_order, first_fault_is_given, jobs_are_as_stated, jobs_are_read_again,
    metadata_fit, names_apart, worked_jobs,
};
pub use reading::read_job;
pub use sdc_base::{Method, Rule, Rules};
