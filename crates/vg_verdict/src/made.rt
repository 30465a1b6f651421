//! What is made of a search's answer.

use vg_slack::Best;

/// What a search found, and the text of its certificate: its pieces, one after another.
#[derive(Drop)]
pub struct Certified {
    pub found: Option<Best>,
    pub text: Vec<Vec<u8>>,
}

/// What a search found, and how many pairs of required time and load its certificate has.
#[derive(Drop)]
pub struct Summed {
    pub found: Option<Best>,
    pub entries: usize,
}
