//! A run of adjacent pages.

/// The `pages` pages from `page` on.
#[derive(Clone, Copy, PartialEq, Eq, Debug)]
pub struct Extent {
    /// The first page.
    pub page: u32,
    /// How many there are.
    pub pages: u32,
}
