use thiserror::Error;

/// A shelf could not read on.
#[derive(Clone, Copy, Debug, PartialEq, Eq)]
pub struct Failed;

/// Why a shelf chose no file.
#[derive(Clone, Copy, Debug, PartialEq, Eq, Error)]
pub enum BeginFault {
    /// No file has this name.
    #[error("no such file")]
    Absent,
    /// The shelf could not look, or the file could not be opened.
    #[error("the file cannot be read")]
    Failed,
}

/// Why a tray did not take a file whole.
#[derive(Clone, Copy, Debug, PartialEq, Eq, Error)]
pub enum PutFault {
    /// The file could not be written to its end: it holds the first of its bytes, or none.
    #[error("the file cannot be written")]
    Failed,
    /// Memory was wanting, and nothing was written.
    #[error("out of memory")]
    Memory,
}

/// Why a whole file was not read.
#[derive(Clone, Copy, Debug, PartialEq, Eq, Error)]
pub enum FileFault {
    /// No file has this name.
    #[error("no such file")]
    Absent,
    /// The file could not be opened, or a read failed before its end.
    #[error("the file cannot be read")]
    Failed,
    /// The file has more bytes than the limit.
    #[error("the file is too long")]
    TooLong,
    /// Memory was wanting for the file's bytes.
    #[error("out of memory")]
    Memory,
}
