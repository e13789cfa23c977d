//! A node in memory, with room for as many pairs as a page has.

ghost use Rattle.std.specs.Prelude.{◌≡◌, ◌≤◌, [], length, IfOk};
ghost use Rattle.tree_model.specs.Node.{room_of};

use crate::Pairs;
use std::alloc::{AllocError, Global};

/// A node of a tree: its level, counted from 1 at the bottom, and its pairs in order.
#[derive(Drop)]
pub struct Node {
    /// The level, from 1 to 255 in a node that stands on a page.
    pub level: u8,
    /// The pairs, one at least in a node that stands on a page.
    pub pairs: Pairs,
}

/// The page holds no node: no node has these bytes.
#[derive(Clone, Copy, PartialEq, Eq, Debug)]
pub struct BadNode;

impl Node {
    /// A node of level 0 without pairs, with room for all that a page of `page` bytes can hold.
    pub fn prepared(alloc: Global, page: u32) -> Result<Node, AllocError>
        ensures room { IfOk result (λ node. room_of page ≤ node.pairs.room) }
        ensures level { IfOk result (λ node. node.level ≡ 0) }
        ensures empty { IfOk result (λ node. node.pairs.items ≡ []) }
    {
        let pairs = Pairs::with_room(alloc, page.saturating_sub(8) as usize / 12)?;
        Ok(Node { level: 0, pairs })
    }

    /// The same level and pairs in memory of their own, with no room for more.
    pub fn copy(&self, alloc: Global) -> Result<Node, AllocError>
        ensures level { IfOk result (λ node. node.level ≡ self.now.level) }
        ensures pairs { IfOk result (λ node. node.pairs.items ≡ self.now.pairs.items) }
    {
        let list = Vec::from_slice(alloc, self.pairs.as_slice())?;
        Ok(Node {
            level: self.level,
            pairs: Pairs::from_vec(list),
        })
    }

    /// Takes on the level and the pairs of another node. It takes no memory: there is room for
    /// them.
    pub fn copy_from(&mut self, other: &Node)
        requires { length other.now.pairs.items ≤ self.old.pairs.room }
        ensures level { self.new.level ≡ other.now.level }
        ensures pairs { self.new.pairs.items ≡ other.now.pairs.items }
        ensures room { self.new.pairs.room ≡ self.old.pairs.room }
    {
        self.level = other.level;
        self.pairs.copy_from(other.pairs.as_slice());
    }
}
