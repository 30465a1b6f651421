//! A draft in memory that waits to be published.

/// The number of the draft's file, and its bytes.
#[derive(Drop)]
pub struct Waiting {
    pub file: usize,
    pub bytes: Vec<u8>,
}
