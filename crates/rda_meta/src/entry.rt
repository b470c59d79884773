use crate::setting::Setting;
use sdc_base::{Items, Text};

/// A variable line with its number, and what the keyword lines behind it say.
#[derive(Drop)]
pub(crate) struct Entry {
    pub(crate) line: u32,
    pub(crate) name: Text,
    pub(crate) first: u32,
    pub(crate) width: u32,
    pub(crate) missing: Items<Text>,
    pub(crate) said: Items<Setting>,
}

/// What the lines so far say.
#[derive(Drop)]
pub(crate) struct ReaderProgress {
    pub(crate) entries: Items<Entry>,
    pub(crate) passed_over: u32,
}
