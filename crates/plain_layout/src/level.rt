//! A level of a tree.

ghost use Rattle.std.specs.Prelude.{◌≡◌, IfOk};

use crate::node::{Node, copy_nodes};
use plain_plan::Fail;
use std::alloc::Global;
use std::marker::Model;

/// The nodes of a level in order. In contracts it is the list of them.
#[derive(Drop)]
pub struct Level {
    nodes: Vec<Node>,
}

impl Model for Level {
    ghost use Rattle.std.specs.Prelude.{List};
    ghost use Rattle.layout_model.specs.Levels.{PageNode};

    ghost Value = { List PageNode };

    ghost view = { λ l. l.nodes.items };
}

impl Level {
    /// The level of these nodes.
    pub fn new(nodes: Vec<Node>) -> Level
        ensures { result ≡ nodes.items }
    {
        Level { nodes }
    }

    /// The nodes, where they lie.
    pub fn nodes(&self) -> &[Node]
        ensures { result.now ≡ self.now }
    {
        &self.nodes
    }

    /// The same level once more.
    pub fn copy(&self, alloc: Global) -> Result<Level, Fail>
        ensures { IfOk result (λ copy. copy ≡ self.now) }
    {
        Ok(Level {
            nodes: copy_nodes(alloc, &self.nodes)?,
        })
    }
}
