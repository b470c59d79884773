//! What a reader of the tables that were put for a job can find out: the inputs of the job are read with its tables, and
//! the file of the intervals of hidden cells is made, or that of the audit of a rounded release.
#![tactic(auto)]

mod audit_file;
mod hidden_lines;
mod interval_file;
mod laws;
mod out_name;
mod shelved;
mod shown_values;
mod table_audit;
mod table_intervals;
mod table_stop;

pub use audit_file::AuditFile;
pub use interval_file::IntervalFile;
pub use laws::{audited_tables_have_no_fault, tables_are_read_alike, tables_have_one_file};
pub use shelved::{ShelvedJob, read_shelved};
pub use table_audit::find_audit;
pub use table_intervals::find_intervals;
pub use table_stop::TableStop;
