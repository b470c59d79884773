//! The edge of the programs: the words of a call, and the real files of the system as a shelf and a tray.
#![tactic(auto)]

mod file_shelf;
mod folder_tray;
mod real_files;
#[cfg(test)]
mod test_folder;
mod words;

pub use file_shelf::FileShelf;
pub use folder_tray::FolderTray;
pub use real_files::RealFiles;
pub use words::words_of;
