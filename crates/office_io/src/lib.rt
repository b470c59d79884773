//! Where files come from and where they go: a shelf gives the bytes of named files, piece by
//! piece, and a tray takes whole files.
//!
//! Both are traits, so that a run can be proved over every shelf and every tray, and tried over
//! those in memory, which fail when they are told to.
#![tactic(auto)]

mod faults;
mod memory_shelf;
mod memory_tray;
mod reading;
mod shelf;
mod tray;

pub use faults::{BeginFault, Failed, FileFault, PutFault};
pub use memory_shelf::MemoryShelf;
pub use memory_tray::MemoryTray;
pub use reading::read_all;
pub use shelf::Shelf;
pub use tray::Tray;
