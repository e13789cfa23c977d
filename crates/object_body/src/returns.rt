//! What a caller that is generic in the body knows of the pages: a body is made of them, and taken
//! apart again.

ghost use Rattle.std.specs.Prelude.{◌≡◌, IsTrue, IfOk, IfErr, option_map};
ghost use Rattle.span_store.specs.Held.{bytes_on};
ghost use Rattle.span_store.specs.Calls.{KeepsPages};
ghost use Rattle.tree_pages.specs.Levels.{version_at, plain_at};
ghost use Rattle.object_body.specs.Stored.{IsLoad, entry_of};

use crate::stored::Stored;
use page_port::{Geometry, Port};
use span_store::Holdings;
use std::alloc::Global;
use tree_model::Root;

/// Makes a body of the pages of a tree, and takes it apart again. The same pages come back, which
/// hold what they held; where they are told, the version and the bytes that the body showed of them
/// are those that stood there. With them comes the length that the body had.
///
/// # Errors
/// There was no memory for the body. The pages come back all the same.
pub fn load_and_unload<B: Stored>(
    alloc: Global,
    geometry: &Geometry,
    threshold: u16,
    root: Option<Root>,
    held: Holdings<<B::P as Port>::S>,
) -> Result<(Option<u64>, Holdings<<B::P as Port>::S>), Holdings<<B::P as Port>::S>>
    requires load { IsLoad B.P.S.tells (B.may_stand geometry.now) geometry.now
        (entry_of root threshold) held }
    ensures length { IfOk result (λ given. given.0 ≡ option_map (λ root. root.length) root) }
    ensures pages { IfOk result (λ given. KeepsPages held given.1) }
    ensures version { IfOk result (λ given. IsTrue B.P.S.tells →
        version_at (bytes_on given.1) (entry_of root threshold) ≡ version_at (bytes_on held)
        (entry_of root threshold)) }
    ensures bytes { IfOk result (λ given. IsTrue B.P.S.tells →
        plain_at (bytes_on given.1) geometry.now.page (entry_of root threshold)
        ≡ plain_at (bytes_on held) geometry.now.page (entry_of root threshold)) }
    ensures refused { IfErr result (KeepsPages held) }
{
    match B::load(alloc, geometry, threshold, root, held) {
        Ok(body) => {
            let length = body.length();
            Ok((length, body.unload()))
        }
        Err(held) => Err(held),
    }
}
