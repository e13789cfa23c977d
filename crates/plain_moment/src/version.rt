//! A version of an object: absent, or a tree.

ghost use Rattle.std.specs.Prelude.{◌≡◌, ℕ, IfOk, map};
ghost use Rattle.std.specs.List.{flat_map};
ghost use Rattle.moment_model.specs.Version.{tree_bytes, segment_run, node_run, segment_runs};
ghost use Rattle.moment_model.specs.Version.{node_runs, version_uses, uses};
ghost use Rattle.plain_plan.specs.Store.{numbers_of};

use layout_model::Extent;
use plain_layout::{Level, Node, Tree, entry_bytes};
use plain_plan::{Fail, Store, as_page, cons, join, page_count};
use std::alloc::Global;
use tree_model::Pair;

/// The same version once more.
pub fn copy_version(alloc: Global, version: &Option<Tree>) -> Result<Option<Tree>, Fail>
    ensures { IfOk result (λ copy. copy ≡ version.now) }
{
    match version {
        None => Ok(None),
        Some(tree) => Ok(Some(tree.copy(alloc)?)),
    }
}

/// The number of bytes of a tree.
pub fn tree_bytes(alloc: Global, tree: &Tree) -> Result<u64, Fail>
    ensures { IfOk result (λ bytes. bytes ≡ tree_bytes tree.now) }
{
    entry_bytes(&tree.entries(alloc)?)
}

/// The pages of these segments.
fn segment_runs(alloc: Global, size: u64, pairs: &[Pair]) -> Result<Vec<Extent>, Fail>
    ensures { IfOk result (λ runs. runs.items ≡ map (segment_run size) pairs.now) }
{
    match pairs {
        [] => Ok(Vec::new(alloc)),
        [pair, others @ ..] => {
            let run = Extent {
                page: pair.page,
                pages: as_page(page_count(size, pair.bytes)?)?,
            };
            cons(run, segment_runs(alloc, size, others)?)
        }
    }
}

/// The pages of these nodes.
fn node_runs(alloc: Global, nodes: &[Node]) -> Result<Vec<Extent>, Fail>
    ensures { IfOk result (λ runs. runs.items ≡ map node_run nodes.now) }
{
    match nodes {
        [] => Ok(Vec::new(alloc)),
        [node, others @ ..] => {
            let run = Extent {
                page: node.page(),
                pages: 1,
            };
            cons(run, node_runs(alloc, others)?)
        }
    }
}

/// The pages of the nodes of these levels.
fn level_runs(alloc: Global, levels: &[Level]) -> Result<Vec<Extent>, Fail>
    ensures { IfOk result (λ runs. runs.items ≡ flat_map (map node_run) levels.now) }
{
    match levels {
        [] => Ok(Vec::new(alloc)),
        [level, others @ ..] => join(
            node_runs(alloc, level.nodes())?,
            &level_runs(alloc, others)?,
        ),
    }
}

/// The pages that a version uses, those of its segments before those of its nodes.
#[tactic(auto, using(crate::proofs::Uses::version_rules))]
pub fn version_runs(
    alloc: Global,
    store: &Store,
    version: &Option<Tree>,
) -> Result<Vec<Extent>, Fail>
    ensures { IfOk result (λ runs. (page : ℕ) →
        uses page runs.items ≡ version_uses (numbers_of store.now) page version.now) }
{
    match version {
        None => Ok(Vec::new(alloc)),
        Some(tree) => {
            let entries = tree.entries(alloc)?;
            let segments = segment_runs(alloc, store.page, &entries)?;
            join(segments, &level_runs(alloc, tree.levels())?)
        }
    }
}
