//! Certificates of releases, as text and as values.
#![tactic(auto)]

mod appending;
mod certificate;
mod extra;
mod extra_lines;
mod extra_reading;
mod extra_writing;
mod faults;
mod laws;
mod line_kind;
mod lines;
mod numerals;
mod pieces;
mod reader;
mod reading;
mod tokens;
mod version;
mod writing;

pub use certificate::{Certificate, WorldLine};
pub use extra::{Extra, ExtraNeed};
pub use extra_reading::read_extra;
pub use extra_writing::write_extra;
pub use faults::{CertError, CertWhy};
pub use laws::{
    extra_text_is_read_back, one_extra_spelling, one_spelling, text_is_read_back, worked_texts,
};
pub use reading::read_certificate;
pub use writing::write_certificate;
