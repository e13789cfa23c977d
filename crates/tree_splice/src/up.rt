//! The way up: the new levels of a tree, from the lowest to the root's.

ghost use Rattle.std.specs.Prelude.{◌≡◌, ◌+◌, ◌^◌, ◌<◌, ◌≤◌, ◌⊎◌, [], ◌∷◌, ◌++◌, length, map};
ghost use Rattle.std.specs.Prelude.{true, false, IfOk, OnOk};
ghost use Rattle.layout_model.specs.Levels.{level_after, raised_levels};
ghost use Rattle.local_laws.specs.Path.{is_top_of_path, new_path_from, splice_path};
ghost use Rattle.tree_splice.specs.Remade.{AreAllCounted, rebuilt, remade};

use crate::naming::{UpFail, names_around, names_of};
use crate::node_run::NodeRun;
use crate::path_level::PathLevel;
use crate::remade::{Remade, remake};
use crate::slices::rest;
use node_codec::Pair;
use std::alloc::{AllocError, Global};

/// The new levels of a tree, the lowest first, where `count` entries from number `from` of the
/// lowest run of the way on are exchanged for the fresh ones. A node has at most `f` pairs. The
/// made nodes stand on the given pages, from the lowest level upwards and from left to right, and
/// on page 0 where no page is left; how many they are doesn't depend on the pages.
///
/// # Errors
/// `Wide` where the bytes under a node of a new level pass what a pair can count; `Memory` where
/// there was no memory.
pub fn way_up(
    alloc: Global,
    f: usize,
    path: &[PathLevel],
    from: usize,
    count: usize,
    fresh: &[Pair],
    pages: &[u32],
) -> Result<Vec<Remade>, UpFail>
    requires some { 0 < f }
    requires fits { f < 2 ^ 32 }
    requires place { from + count < 2 ^ 64 }
    ensures levels { IfOk result (λ levels. levels.items
        ≡ map remade (splice_path f path.now from count fresh.now pages.now)) }
    ensures wide { (result ≡ Err UpFail.Wide)
        → AreAllCounted (splice_path f path.now from count fresh.now pages.now) → ⊥ }
{
    let mut levels = Vec::new(alloc);
    push_levels(alloc, f, path, from, count, fresh, pages, &mut levels)?;
    Ok(levels)
}

/// Adds the new levels.
#[tactic(auto, unfolding(local_laws::specs::Path::splice_path))]
fn push_levels(
    alloc: Global,
    f: usize,
    path: &[PathLevel],
    from: usize,
    count: usize,
    fresh: &[Pair],
    pages: &[u32],
    into: &mut Vec<Remade>,
) -> Result<(), UpFail>
    requires some { 0 < f }
    requires fits { f < 2 ^ 32 }
    requires place { from + count < 2 ^ 64 }
    ensures levels { OnOk result (into.new.items
        ≡ into.old.items ++ map remade (splice_path f path.now from count fresh.now pages.now)) }
    ensures wide { (result ≡ Err UpFail.Wide)
        → AreAllCounted (splice_path f path.now from count fresh.now pages.now) → ⊥ }
{
    match path {
        [] => plant(alloc, f, fresh, pages, into),
        [level, above @ ..] => start_up(alloc, f, level, above, from, count, fresh, pages, into),
    }
}

/// Adds the levels of a tree of these entries alone.
fn plant(
    alloc: Global,
    f: usize,
    fresh: &[Pair],
    pages: &[u32],
    into: &mut Vec<Remade>,
) -> Result<(), UpFail>
    requires some { 0 < f }
    requires fits { f < 2 ^ 32 }
    ensures levels { OnOk result (into.new.items ≡ into.old.items ++ map remade
        (raised_levels (length (level_after f [] 0 0 fresh.now pages.now).nodes) f
        (level_after f [] 0 0 fresh.now pages.now) pages.now)) }
    ensures wide { (result ≡ Err UpFail.Wide) → AreAllCounted
        (raised_levels (length (level_after f [] 0 0 fresh.now pages.now).nodes) f
        (level_after f [] 0 0 fresh.now pages.now) pages.now) → ⊥ }
{
    let first = remake(alloc, f, &NodeRun::new(alloc), 0, 0, fresh, pages)?;
    raise(alloc, f, first.size, first, pages, into)
}

/// Adds the new levels, where the tree has a lowest one and these above it.
fn start_up(
    alloc: Global,
    f: usize,
    level: &PathLevel,
    above: &[PathLevel],
    from: usize,
    count: usize,
    fresh: &[Pair],
    pages: &[u32],
    into: &mut Vec<Remade>,
) -> Result<(), UpFail>
    requires some { 0 < f }
    requires fits { f < 2 ^ 32 }
    requires place { from + count < 2 ^ 64 }
    ensures levels { OnOk result (into.new.items ≡ into.old.items ++ map remade
        (new_path_from f (level_after f level.now.nodes from count fresh.now pages.now)
        level.now above.now pages.now)) }
    ensures wide { (result ≡ Err UpFail.Wide) → AreAllCounted
        (new_path_from f (level_after f level.now.nodes from count fresh.now pages.now)
        level.now above.now pages.now) → ⊥ }
{
    let first = remake(alloc, f, level.nodes(), from, count, fresh, pages)?;
    go_up(alloc, f, level, first, above, pages, into)
}

/// Adds the new levels from one on, above which these old levels stand.
fn go_up(
    alloc: Global,
    f: usize,
    level: &PathLevel,
    below: Remade,
    above: &[PathLevel],
    pages: &[u32],
    into: &mut Vec<Remade>,
) -> Result<(), UpFail>
    requires some { 0 < f }
    requires fits { f < 2 ^ 32 }
    requires below { below ≡ remade (rebuilt level.now.nodes below) }
    requires small { below.from + below.count ≤ 2 ^ 63 + 1 }
    ensures levels { OnOk result (into.new.items ≡ into.old.items
        ++ map remade
        (new_path_from f (rebuilt level.now.nodes below) level.now above.now pages.now)) }
    ensures wide { (result ≡ Err UpFail.Wide) → AreAllCounted
        (new_path_from f (rebuilt level.now.nodes below) level.now above.now pages.now) → ⊥ }
{
    let [up, higher @ ..] = above else {
        return crown(alloc, f, level.nodes(), below, pages, into);
    };
    if is_top(level, &below) {
        return push_last(into, below);
    }
    let names = names_of(alloc, &below.made)?;
    let left = rest(pages, below.made.len());
    let from = level.first() + below.from;
    let next = remake(alloc, f, up.nodes(), from, below.count, &names, left)?;
    push_level(into, below)?;
    go_up(alloc, f, up, next, higher, left, into)
}

/// Is a new level the highest?
fn is_top(level: &PathLevel, new: &Remade) -> bool
    requires { new.now ≡ remade (rebuilt level.now.nodes new.now) }
    ensures { result ≡ is_top_of_path level.now (rebuilt level.now.nodes new.now) }
{
    new.size <= 1 && level.is_whole()
}

/// Adds the new level of the old root, and those above it.
fn crown(
    alloc: Global,
    f: usize,
    nodes: &NodeRun,
    below: Remade,
    pages: &[u32],
    into: &mut Vec<Remade>,
) -> Result<(), UpFail>
    requires some { 0 < f }
    requires fits { f < 2 ^ 32 }
    requires below { below ≡ remade (rebuilt nodes.now below) }
    requires small { below.from + below.count ≤ 2 ^ 63 + 1 }
    ensures levels { OnOk result (into.new.items ≡ into.old.items
        ++ map remade (raised_levels (length (rebuilt nodes.now below).nodes) f
        (rebuilt nodes.now below) pages.now)) }
    ensures wide { (result ≡ Err UpFail.Wide) → AreAllCounted
        (raised_levels (length (rebuilt nodes.now below).nodes) f (rebuilt nodes.now below)
        pages.now) → ⊥ }
{
    if below.size <= 1 {
        return push_last(into, below);
    }
    let names = names_around(alloc, nodes, &below)?;
    let left = rest(pages, below.made.len());
    let steps = below.size - 1;
    push_level(into, below)?;
    let next = remake(alloc, f, &NodeRun::new(alloc), 0, 0, &names, left)?;
    raise(alloc, f, steps, next, left, into)
}

/// Adds a level whose nodes are all made, and at most `steps` above it, until there is one node.
fn raise(
    alloc: Global,
    f: usize,
    steps: usize,
    below: Remade,
    pages: &[u32],
    into: &mut Vec<Remade>,
) -> Result<(), UpFail>
    requires some { 0 < f }
    requires fits { f < 2 ^ 32 }
    requires below { below ≡ remade (rebuilt [] below) }
    ensures levels { OnOk result (into.new.items ≡ into.old.items
        ++ map remade (raised_levels steps f (rebuilt [] below) pages.now)) }
    ensures wide { (result ≡ Err UpFail.Wide)
        → AreAllCounted (raised_levels steps f (rebuilt [] below) pages.now) → ⊥ }
{
    if is_last(steps, below.size) {
        return push_last(into, below);
    }
    let names = names_of(alloc, &below.made)?;
    let left = rest(pages, below.made.len());
    push_level(into, below)?;
    let next = remake(alloc, f, &NodeRun::new(alloc), 0, 0, &names, left)?;
    raise(alloc, f, steps - 1, next, left, into)
}

/// Is no level to be raised above one of `size` nodes, where `steps` more are allowed?
fn is_last(steps: usize, size: usize) -> bool
    ensures last { result ≡ true → (steps ≡ 0) ⊎ (size ≤ 1) }
    ensures more { result ≡ false → (0 < steps) × (1 < size) }
{
    steps == 0 || size <= 1
}

/// Appends the last level.
fn push_last(into: &mut Vec<Remade>, level: Remade) -> Result<(), UpFail>
    ensures level { OnOk result (into.new.items ≡ into.old.items ++ level ∷ []) }
    ensures memory { (result ≡ Err UpFail.Wide) → ⊥ }
{
    push_level(into, level)?;
    Ok(())
}

/// Appends a level.
fn push_level(into: &mut Vec<Remade>, level: Remade) -> Result<(), AllocError>
    ensures { OnOk result (into.new.items ≡ into.old.items ++ level ∷ []) }
{
    into.push(level)?;
    Ok(())
}
