use crate::report::Summary;
use certificate::Certificate;
use job_inputs::FileRef;
use sdc_base::{Items, Text};

/// A file that is to be put.
#[derive(Drop)]
pub(crate) struct FilePut {
    pub file: FileRef,
    pub name: Text,
    pub bytes: Items<u8>,
}

/// What a release puts, in this order, its numbers, and its certificate.
#[derive(Drop)]
pub(crate) struct Release {
    pub puts: Items<FilePut>,
    pub summary: Summary,
    pub certificate: Certificate,
}
