//! A site: the nodes of a run that are made anew.

/// So many nodes of the run stand before the site, and so many are in it.
#[derive(Clone, Copy)]
pub struct Site {
    pub before: usize,
    pub nodes: usize,
}
