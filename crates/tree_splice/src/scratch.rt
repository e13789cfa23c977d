//! Room to write a node: the node, and the bytes of its page.

ghost use Rattle.std.specs.Prelude.{◌≡◌, IfOk};
ghost use Rattle.tree_splice.specs.Scratch.{IsPrepared};

use node_codec::Node;
use std::alloc::{AllocError, Global};

/// Room for one page's bytes, and a node with room for all pairs of a page.
#[derive(Drop)]
pub struct Scratch {
    pub page: Vec<u8>,
    pub node: Node,
}

impl Scratch {
    /// Room for a node on a page of `size` bytes.
    pub fn new(alloc: Global, size: u32) -> Result<Scratch, AllocError>
        ensures { IfOk result (λ scratch. IsPrepared size scratch) }
    {
        let page = vec![in alloc; 0; size as usize]?;
        let node = Node::prepared(alloc, size)?;
        Ok(Scratch { page, node })
    }
}
