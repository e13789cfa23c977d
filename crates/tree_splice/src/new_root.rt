//! The root of the new levels.

ghost use Rattle.std.specs.Prelude.{◌≡◌, ◌<◌, length, slice_index_or};
ghost use Rattle.tree_pages.specs.Stored.{top_page};
ghost use Rattle.tree_splice.specs.Remade.{rebuilt};
ghost use Rattle.tree_splice.specs.Way.{root_with, top_of};

use crate::node_run::NodeRun;
use crate::path_level::PathLevel;
use crate::remade::Remade;
use crate::slices::{front, rest};
use std::alloc::Global;
use tree_model::Root;

/// The root of the tree with these new levels in the place of those of the way, and so many bytes.
pub fn new_root(alloc: Global, path: &[PathLevel], levels: &[Remade], bytes: u64) -> Root
    requires { length levels.now < 256 }
    ensures { result ≡ root_with path.now levels.now bytes }
{
    match levels {
        [] => empty_root(bytes),
        [lowest, ..] => {
            if lowest.size == 0 {
                return empty_root(bytes);
            }
            Root {
                height: levels.len() as u8,
                page: top_of(alloc, path, levels),
                length: bytes,
            }
        }
    }
}

/// The root of no node.
fn empty_root(bytes: u64) -> Root
    ensures { result ≡ record { height = 0; page = 0; length = bytes } }
{
    Root {
        height: 0,
        page: 0,
        length: bytes,
    }
}

/// The page of the first node of the highest of these new levels.
fn top_of(alloc: Global, path: &[PathLevel], levels: &[Remade]) -> u32
    ensures { result ≡ top_of path.now levels.now }
{
    let [level, above @ ..] = levels else {
        return 0;
    };
    match path {
        [] => {
            if above.is_empty() {
                return first_page(&NodeRun::new(alloc), level);
            }
            top_of(alloc, &[], above)
        }
        [old, higher @ ..] => {
            if above.is_empty() {
                return first_page(old.nodes(), level);
            }
            top_of(alloc, higher, above)
        }
    }
}

/// The page of the first node of a level that was made anew, and 0 where it has none.
fn first_page(nodes: &NodeRun, level: &Remade) -> u32
    ensures { result ≡ top_page (rebuilt nodes.now level.now).nodes }
{
    let behind = first_or(rest(rest(nodes.pages(), level.from), level.count), 0);
    let made = first_or(level.made.pages(), behind);
    first_or(front(nodes.pages(), level.from), made)
}

/// The first of these pages, or another one where there is none.
fn first_or(pages: &[u32], other: u32) -> u32
    ensures { result ≡ slice_index_or pages.now 0 other }
{
    match pages {
        [] => other,
        [page, ..] => *page,
    }
}
