//! What is made ready before a page is asked for: the way, the place, how many nodes are to be
//! made, and all room that they want.

ghost use Rattle.std.specs.Prelude.{◌≡◌, ◌≢◌, ℕ, ◌+◌, ◌-◌, ◌/◌, ◌^◌, ◌<◌, ◌≤◌, [], length, map};
ghost use Rattle.std.specs.Prelude.{IsTrue, IfOk, Err};
ghost use Rattle.content_laws.specs.Spelling.{HaveBytes};
ghost use Rattle.fault_count.specs.Counts.{HasCause, Reads};
ghost use Rattle.geometry_model.specs.Numbers.{is_page_size};
ghost use Rattle.layout_model.specs.Levels.{count_made as made_of};
ghost use Rattle.local_laws.specs.Path.{splice_path};
ghost use Rattle.span_store.specs.Held.{bytes_on};
ghost use Rattle.tree_model.specs.Node.{room_of};
ghost use Rattle.tree_model.specs.Tree.{IsTree, bytes_of, entries_of};
ghost use Rattle.tree_pages.specs.Levels.{levels_at};
ghost use Rattle.tree_splice.specs.Scratch.{IsPrepared};
ghost use Rattle.tree_read.specs.Search.{AsksSearch, ReadsNodes};
ghost use Rattle.tree_splice.specs.Splice.{CanSplice, IsBetween};
ghost use Rattle.tree_splice.specs.Down.{ShowsWay};
ghost use Rattle.tree_splice.specs.Way.{AreSound};

use crate::down::{Way, find_way};
use crate::failure::SpliceFail;
use crate::making::new_levels;
use crate::nodes::count_made;
use crate::path_level::PathLevel;
use crate::place::{Place, place_between};
use crate::scratch::Scratch;
use node_codec::Pair;
use page_cache::Cache;
use page_port::Port;
use span_store::Holdings;
use std::alloc::Global;
use tree_read::Root;

/// An exchange before it asks for a page.
#[derive(Drop)]
pub struct Draft {
    /// Of each level of the tree, the lowest first, the nodes that the exchange looks at.
    pub path: Vec<PathLevel>,
    /// The entries that are replaced, by their numbers in the lowest run.
    pub place: Place,
    /// How many nodes are made.
    pub want: usize,
    /// Room for one of them.
    pub scratch: Scratch,
}

/// Goes down to the entries between two bytes, counts the nodes that are made where these are
/// exchanged for fresh ones, and makes room for as many spans more.
///
/// # Errors
/// `Fault` and `Memory`, as of `splice`. The same spans are held.
pub fn prepare<P: Port>(
    alloc: Global,
    root: &Root,
    from: u64,
    to: u64,
    fresh: &[Pair],
    held: &mut Holdings<P::S>,
    cache: &mut Cache,
    port: &mut P,
) -> Result<Draft, SpliceFail>
    requires asks { AsksSearch P.S.tells (P.meter port.old).page held.old cache.old
        (IsTree (bytes_on held.old) (room_of (P.meter port.old).page / 2) root.now.height
        root.now.page root.now.length) }
    requires order { from ≤ to }
    requires inside { to ≤ root.now.length }
    requires some { HaveBytes fresh.now }
    requires sum { root.now.length + bytes_of fresh.now < 2 ^ 64 }
    requires borders { IsTrue P.S.tells → ((k count : ℕ) × IsBetween
        (entries_of (bytes_on held.old) root.now.height root.now.page) from to k count) }
    ensures told { IfOk result (λ d. IsTrue P.S.tells → (k count : ℕ)
        → IsBetween (entries_of (bytes_on held.old) root.now.height root.now.page) from to k count
        → ShowsWay (room_of (P.meter port.old).page) (levels_at (bytes_on held.old) root.now)
        k count fresh.now d.path.items d.place.from d.place.count) }
    ensures sound { IfOk result (λ d. AreSound d.path.items) }
    ensures small { IfOk result (λ d. d.place.from + d.place.count < 2 ^ 64) }
    ensures want { IfOk result (λ d. d.want ≡ made_of (splice_path (room_of (P.meter port.old).page)
        d.path.items d.place.from d.place.count fresh.now [])) }
    ensures prepared { IfOk result (λ d. IsPrepared (P.meter port.old).page d.scratch) }
    ensures room { IfOk result (λ d. length held.new.spans + d.want ≤ held.new.room) }
    ensures spans { held.new.spans ≡ held.old.spans }
    ensures some_space { result ≢ Err SpliceFail.NoSpace }
    ensures reads { ReadsNodes P.S.tells (P.meter port.old).page (bytes_on held.old)
        cache.new (P.meter port.old) (P.meter port.new) }
    ensures cause { HasCause (P.meter port.old).faults (P.meter port.new).faults
        (result ≡ Err SpliceFail.Fault) }
{
    let way = find_way(alloc, root, from, to, held, cache, port)?;
    let Way { path, start } = way;
    let place = place_between(&path, from.saturating_sub(start), to.saturating_sub(start));
    let want = count_new(alloc, port, &path, place, fresh)?;
    let scratch = Scratch::new(alloc, port.page())?;
    held.reserve(want)?;
    Ok(Draft {
        path,
        place,
        want,
        scratch,
    })
}

/// How many nodes are made where these entries are exchanged for fresh ones.
///
/// # Errors
/// As of `new_levels`, and `Memory` where the number is one that no memory has room for.
fn count_new<P: Port>(
    alloc: Global,
    port: &mut P,
    path: &[PathLevel],
    place: Place,
    fresh: &[Pair],
) -> Result<usize, SpliceFail>
    requires size { IsTrue (is_page_size (P.meter port.old).page) }
    requires small { place.from + place.count < 2 ^ 64 }
    requires can { IsTrue P.S.tells → CanSplice (room_of (P.meter port.old).page)
        path.now place.from place.count fresh.now }
    ensures count { IfOk result (λ want. want ≡ made_of (splice_path
        (room_of (P.meter port.old).page) path.now place.from place.count fresh.now [])) }
    ensures some_space { result ≢ Err SpliceFail.NoSpace }
    ensures reads { Reads 0 (P.meter port.old) (P.meter port.new) }
    ensures cause { HasCause (P.meter port.old).faults (P.meter port.new).faults
        (result ≡ Err SpliceFail.Fault) }
{
    let levels = new_levels(alloc, port, path, place, fresh, &[])?;
    match count_made(&levels) {
        Some(count) => Ok(count),
        None => Err(SpliceFail::Memory),
    }
}
