//! The room that a walk works in: what a page holds, and the nodes on the way down to it.

ghost use Rattle.std.specs.Prelude.{◌≡◌, ◌≤◌, IfOk, IsOk, OnOk, vec_len};
ghost use Rattle.image_check.specs.Rooms.{IsPrepared};

use node_codec::Node;
use page_port::Geometry;
use std::alloc::{AllocError, Global};

/// Room for what one page holds, and for a node of each level that a walk goes down.
#[derive(Drop)]
pub struct Path {
    pub(crate) page: Vec<u8>,
    pub(crate) nodes: Vec<Node>,
}

impl Path {
    /// Room for a page of this store, and for no level.
    pub fn new(alloc: Global, geometry: &Geometry) -> Result<Path, AllocError>
        ensures { IfOk result (λ path. IsPrepared geometry.now.page 0 path) }
    {
        let page = vec![in alloc; 0; geometry.page() as usize]?;
        Ok(Path {
            page,
            nodes: Vec::new(alloc),
        })
    }

    /// Makes room for this many levels. After a refusal the room is less.
    pub(crate) fn prepare(
        &mut self,
        alloc: Global,
        geometry: &Geometry,
        levels: u8,
    ) -> Result<(), AllocError>
        requires { IsPrepared geometry.now.page 0 self.old }
        ensures room { OnOk result (IsPrepared geometry.now.page levels self.new) }
        ensures page { IsPrepared geometry.now.page 0 self.new }
    {
        for level in 0..levels {
            if self.nodes.len() <= level as usize {
                self.nodes.push(Node::prepared(alloc, geometry.page())?)?;
            }
        }
        Ok(())
    }
}
