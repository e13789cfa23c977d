//! The pages of a store that belong to no space and no object.

use page_port::Span;

/// The pages of a store that belong to no space and no object, and room for the bytes of the
/// first of them. It is made once, by an opening, so that a closing needs no memory.
#[derive(Drop)]
pub struct Fixed<S: Span> {
    /// The pages from 0 on: the superblock, and the catalog.
    pub front: S,
    /// The directory page of each space, in the order of their numbers.
    pub directories: Vec<S>,
    /// As many bytes as the front pages have.
    pub room: Vec<u8>,
}
