//! A run of pages.

/// The `pages` pages from `first` on.
#[derive(Clone, Copy, Debug, PartialEq, Eq)]
pub struct PageRun {
    /// The first page.
    pub first: u32,
    /// How many there are.
    pub pages: u32,
}
