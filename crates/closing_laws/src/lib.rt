//! Laws on what closing writes: the pages of a store at rest, with its superblock, its catalog and
//! its directories, are an image of just that moment.
//!
//! Each law is a function with no argument and no code, whose clause is the law.
#![tactic(auto)]

mod closing;

pub use closing::{
    a_catalog_page_has_its_entries, an_image_is_closed, what_closing_writes_is_an_image,
};
