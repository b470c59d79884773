use sdc_base::Items;

/// The file of an audit that is to be put.
#[derive(Drop)]
pub struct AuditFile {
    /// How many primary cells there are.
    pub primary: u32,
    /// How many of them aren't covered on some side.
    pub exposed: u32,
    /// The bytes of the file.
    pub bytes: Items<u8>,
}
