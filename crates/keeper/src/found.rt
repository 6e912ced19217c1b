// What settling has found so far.
use crate::writing::Content;

// A version that can be settled on, and its bytes.
#[derive(Drop)]
pub struct Candidate {
    pub version: u64,
    pub content: Content,
}
