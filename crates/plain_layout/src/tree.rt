//! A tree as its levels of nodes.

ghost use Rattle.std.specs.Prelude.{◌≡◌, IfOk};
ghost use Rattle.layout_model.specs.Layout.{tree_entries};
ghost use Rattle.layout_model.specs.Levels.{entries_of_levels};

use crate::level::Level;
use crate::node::pairs_of_level;
use plain_plan::{Fail, cons};
use std::alloc::Global;
use std::marker::Model;
use tree_model::Pair;

/// The tree of an object: its levels, the lowest first, and its threshold.
#[derive(Drop)]
pub struct Tree {
    levels: Vec<Level>,
    threshold: u64,
}

impl Model for Tree {
    ghost use Rattle.layout_model.specs.Layout.{Tree};

    ghost Value = { Tree };

    ghost view = { λ t. record { levels = t.levels.items; threshold = t.threshold } };
}

impl Tree {
    /// A tree of these levels.
    pub fn new(levels: Vec<Level>, threshold: u64) -> Tree
        ensures { result ≡ record { levels = levels.items; threshold = threshold } }
    {
        Tree { levels, threshold }
    }

    /// The levels, the lowest first.
    pub fn levels(&self) -> &[Level]
        ensures { result.now ≡ self.now.levels }
    {
        &self.levels
    }

    /// The threshold.
    pub fn threshold(&self) -> u64
        ensures { result ≡ self.now.threshold }
    {
        self.threshold
    }

    /// The same tree once more.
    pub fn copy(&self, alloc: Global) -> Result<Tree, Fail>
        ensures { IfOk result (λ copy. copy ≡ self.now) }
    {
        Ok(Tree {
            levels: copy_levels(alloc, &self.levels)?,
            threshold: self.threshold,
        })
    }

    /// The entries: the pairs of the lowest level.
    pub fn entries(&self, alloc: Global) -> Result<Vec<Pair>, Fail>
        ensures { IfOk result (λ entries. entries.items ≡ tree_entries self.now) }
    {
        match self.levels() {
            [] => Ok(Vec::new(alloc)),
            [level, ..] => pairs_of_level(alloc, level.nodes()),
        }
    }
}

/// The same levels once more.
pub fn copy_levels(alloc: Global, levels: &[Level]) -> Result<Vec<Level>, Fail>
    ensures { IfOk result (λ copy. copy.items ≡ levels.now) }
{
    match levels {
        [] => Ok(Vec::new(alloc)),
        [level, others @ ..] => cons(level.copy(alloc)?, copy_levels(alloc, others)?),
    }
}
