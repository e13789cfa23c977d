//! The shadowed splice: entries of a tree are exchanged for others, on new pages.

ghost use Rattle.std.specs.Prelude.{◌≡◌, ℕ, ◌+◌, ◌/◌, ◌^◌, ◌<◌, ◌≤◌, [], List, length, map, IsTrue};
ghost use Rattle.std.specs.Prelude.{IfOk, OnErr, Err};
ghost use Rattle.block_model.specs.Place.{least_order};
ghost use Rattle.content_laws.specs.Spelling.{HaveBytes};
ghost use Rattle.fault_count.specs.Counts.{HasCause, IsUsed};
ghost use Rattle.layout_model.specs.Levels.{spliced, count_made as made_of};
ghost use Rattle.space_directory.specs.SpaceView.{SpaceView};
ghost use Rattle.span_store.specs.Held.{AllSized, bytes_on};
ghost use Rattle.superdirectory.specs.Grants.{AreTold, IsGrantFrom, KeepsFrame};
ghost use Rattle.superdirectory.specs.Rest.{count};
ghost use Rattle.superdirectory.specs.Trace.{Part, IsLow};
ghost use Rattle.tree_model.specs.Node.{room_of};
ghost use Rattle.tree_model.specs.Tree.{IsTree, bytes_of, entries_of};
ghost use Rattle.tree_pages.specs.Levels.{levels_at};
ghost use Rattle.tree_read.specs.Search.{AsksSearch, KeepsNodes};
ghost use Rattle.tree_splice.specs.Splice.{ArePagesIn, HaveGiven, HoldsNew, IsBetween, IsSpliced};
ghost use Rattle.tree_splice.specs.Splice.{WritesAtMost, firsts_of, single_run};

use crate::draft::{Draft, prepare};
use crate::failure::SpliceFail;
use crate::making::{Made, make};
use crate::naming::bytes_under;
use crate::new_root::new_root;
use crate::new_tree::Spliced;
use crate::nodes::{forget_runs, keep_levels};
use node_codec::{Pair, Pairs};
use page_cache::Cache;
use page_port::Port;
use span_store::Holdings;
use std::alloc::Global;
use superdirectory::Latches;
use tree_read::Root;

/// Exchanges the entries that begin at byte `from` or behind it, and before byte `to`, for fresh
/// ones. The nodes that change are made anew on new pages; the pages of the old tree stay as they
/// are, and held. Pages are asked for one by one, in space `start` first and around, and nothing is
/// written until all are granted. A page that is granted is held from then on.
///
/// # Errors
/// `NoSpace` where no space has a free page for a node. `Fault` where the device failed or gave a
/// page that isn't the node that was written: the port's count of faults rose. `Memory` where there
/// was no memory, or a page was granted that is held already. After each of them all new pages were
/// given back, and what is held is as it was.
pub fn splice<P: Port, L: Latches<S = P::S>>(
    alloc: Global,
    root: &Root,
    from: u64,
    to: u64,
    fresh: &Pairs,
    held: &mut Holdings<P::S>,
    cache: &mut Cache,
    port: &mut P,
    latches: &mut L,
    turn: &mut L::Turn,
    start: u16,
) -> Result<Spliced, SpliceFail>
    requires order { from ≤ to }
    requires inside { to ≤ root.now.length }
    requires sum { root.now.length + bytes_of fresh.now.items < 2 ^ 64 }
    requires some { HaveBytes fresh.now.items }
    requires asks { AsksSearch P.S.tells (P.meter port.old).page held.old cache.old
        (IsTree (bytes_on held.old) (room_of (P.meter port.old).page / 2) root.now.height
        root.now.page root.now.length) }
    requires borders { IsTrue P.S.tells → ((k count : ℕ) × IsBetween
        (entries_of (bytes_on held.old) root.now.height root.now.page) from to k count) }
    requires start { IsGrantFrom (L.rest latches.old) start 1 }
    requires frame { (L.rest latches.old).frame.page ≡ (P.meter port.old).page }

    // The tree, where the device tells, and its length always.
    ensures told { IfOk result (λ s. IsTrue P.S.tells → (k count : ℕ)
        → IsBetween (entries_of (bytes_on held.old) root.now.height root.now.page) from to k count
        → IsSpliced (room_of (P.meter port.old).page) (bytes_on held.old) (bytes_on held.new)
        root.now s.root k count fresh.now.items s.made s.left) }
    ensures sum { IfOk result (λ s. s.root.length + to
        ≡ root.now.length + bytes_of fresh.now.items + from) }

    // What is held, and kept of it.
    ensures held { IfOk result (λ s. HoldsNew s.made held.old held.new) }
    ensures single { IfOk result (λ s. s.made ≡ map single_run (firsts_of s.made)) }
    ensures home { IfOk result (λ s. ArePagesIn (L.rest latches.old).frame (firsts_of s.made)) }
    ensures refused { OnErr result (held.new.spans ≡ held.old.spans) }
    ensures sized { AllSized P.S.tells (P.meter port.old).page held.new }
    ensures kept { KeepsNodes P.S.tells (P.meter port.old).page (bytes_on held.new) cache.new }

    // The pages are granted as the rule of single pages says, or all given back.
    ensures rest { KeepsFrame (L.rest latches.old) (L.rest latches.new) }
    ensures granted { (views : List SpaceView) → AreTold (L.rest latches.old) views
        → length views ≡ count (L.rest latches.old)
        → HaveGiven (λ want. IsTrue P.S.tells → (k count : ℕ)
        → IsBetween (entries_of (bytes_on held.old) root.now.height root.now.page) from to k count
        → want ≡ made_of (spliced (room_of (P.meter port.old).page)
        (levels_at (bytes_on held.old) root.now) k count fresh.now.items []))
        views start (L.rest latches.old).frame result (L.rest latches.new) }
    ensures low { Part (λ part. (result ≡ Err SpliceFail.NoSpace) → (space : ℕ)
        → space < count (L.rest latches.old) → IsLow space (least_order 1) part)
        (L.trace latches.old) (L.trace latches.new) }

    // No page is written but for a new node.
    ensures used { IsUsed (P.meter port.old) (P.meter port.new) }
    ensures writes { IsTrue P.S.tells → (k count : ℕ)
        → IsBetween (entries_of (bytes_on held.old) root.now.height root.now.page) from to k count
        → WritesAtMost (made_of (spliced (room_of (P.meter port.old).page)
        (levels_at (bytes_on held.old) root.now) k count fresh.now.items []))
        (P.meter port.old) (P.meter port.new) }
    ensures cause { HasCause (P.meter port.old).faults (P.meter port.new).faults
        (result ≡ Err SpliceFail.Fault) }
{
    let draft = prepare(alloc, root, from, to, fresh.as_slice(), held, cache, port)?;
    let Draft {
        path,
        place,
        want,
        mut scratch,
    } = draft;
    let (made, pages) = match make(
        alloc,
        &path,
        place,
        fresh.as_slice(),
        want,
        held,
        port,
        latches,
        turn,
        start,
        &mut scratch,
    ) {
        Ok(made) => made,
        Err(fail) => return Err(fail),
    };
    pages.hold(held);
    let bytes = root.length - (to - from) + bytes_of(fresh.as_slice());
    let root = new_root(alloc, &path, &made.levels, bytes);
    keep_levels(cache, &made.levels, 1, &mut scratch.node);
    let Made {
        levels: _,
        made,
        left,
    } = made;
    forget_runs(cache, left.as_slice());
    Ok(Spliced { root, made, left })
}

/// The bytes under these pairs.
fn bytes_of(pairs: &[Pair]) -> u64
    requires { bytes_of pairs.now < 2 ^ 64 }
    ensures { result ≡ bytes_of pairs.now }
{
    bytes_under(pairs).unwrap()
}
