//! A file in memory.

/// A name with its bytes.
#[derive(Debug, Drop)]
pub(crate) struct MemFile {
    pub name: String,
    pub bytes: Vec<u8>,
}
