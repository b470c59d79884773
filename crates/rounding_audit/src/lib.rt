//! What a rounded release protects: the tables that a reader of it can't rule out, and how far they take each primary
//! cell.
#![tactic(auto)]

mod adjacency;
mod audit_fault;
mod audited;
mod auditing;
mod exposure;
mod holding;
mod laws;
mod reader;
mod reader_fault;
mod reading;
mod texts;

pub use audit_fault::AuditFault;
pub use audited::{AuditedCell, AuditedEnd};
pub use auditing::audit_of;
pub use exposure::exposed_in;
pub use laws::{reader_worlds_are_worlds, size_is_large};
pub use reader_fault::ReaderFault;
pub use reading::reader_cells;
pub use texts::audit_text;
