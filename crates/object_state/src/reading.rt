//! The bytes of an object, read from the tree on the pages that it holds.

ghost use Rattle.std.specs.Prelude.{◌≡◌, ◌+◌, ◌≤◌, ◌↔◌, IsTrue};
ghost use Rattle.std.specs.List.{AllByRecursion};
ghost use Rattle.span_store.specs.Held.{AllSized, bytes_on};
ghost use Rattle.tree_read.specs.Search.{KeepsNodes};
ghost use Rattle.object_state.specs.Reads.{IsHeldSegment, IsToldRead, ReadsTree};

use eos_ops::Bytes;
use object_body::LookFail;
use page_cache::Cache;
use page_port::{Geometry, Port, Span};
use seg_bytes::read_bytes;
use span_store::Holdings;
use std::alloc::Global;
use tree_model::{Pair, Root};
use tree_read::{Placed, TreeFail, entries};

/// Are the pages of a segment held, and is it no longer than a space?
fn is_held<S: Span>(geometry: &Geometry, held: &Holdings<S>, pair: Pair) -> bool
    ensures { IsTrue result ↔ IsHeldSegment geometry.now held.now pair }
{
    let page = geometry.page() as u64;
    if pair.bytes > geometry.space_pages() as u64 * page {
        return false;
    }
    held.holds(pair.page, pair.bytes.div_ceil(page) as u32)
}

/// Are the pages of all these segments held?
fn are_held<S: Span>(geometry: &Geometry, held: &Holdings<S>, segments: &[Placed]) -> bool
    ensures { IsTrue result
        ↔ AllByRecursion (λ s. IsHeldSegment geometry.now held.now s.pair) segments.now }
{
    for segment in segments {
        if !is_held(geometry, held, segment.pair) {
            return false;
        }
    }
    true
}

/// Reads the `len` bytes of the tree at a root from `at` on.
///
/// # Errors
/// `Fault` where the device failed or gave what was never written, and `Memory` if bytes are asked
/// for.
pub fn read_tree<P: Port>(
    alloc: Global,
    geometry: &Geometry,
    root: &Root,
    held: &Holdings<P::S>,
    cache: &mut Cache,
    port: &mut P,
    at: u64,
    len: u64,
) -> Result<Bytes, LookFail>
    requires page { (P.meter port.old).page ≡ geometry.now.page }
    requires inside { at + len ≤ root.now.length }
    requires sized { AllSized P.S.tells geometry.now.page held.now }
    requires nodes { KeepsNodes P.S.tells geometry.now.page (bytes_on held.now) cache.old }
    requires told { IsTrue P.S.tells → IsToldRead geometry.now held.now root.now }
    ensures read { ReadsTree P.S.tells geometry.now held.now root.now at len
        cache.new (P.meter port.old) (P.meter port.new) result }
{
    if len == 0 {
        return Ok(Bytes::new(alloc));
    }
    // A store's pages have one of five sizes.
    let _page = geometry.page();
    let _length = root.length;
    let segments = match entries(alloc, root, held, cache, port, at, at + len) {
        Ok(segments) => segments,
        Err(TreeFail::Fault) => return Err(LookFail::Fault),
        Err(TreeFail::Memory) => return Err(LookFail::Memory),
    };
    if !are_held(geometry, held, segments.as_slice()) {
        port.blame();
        return Err(LookFail::Fault);
    }
    let Ok(mut bytes) = vec![in alloc; 0; len as usize] else {
        return Err(LookFail::Memory);
    };
    let Ok(mut page) = vec![in alloc; 0; port.page() as usize] else {
        return Err(LookFail::Memory);
    };
    match read_bytes(held, port, segments.as_slice(), at, &mut bytes, &mut page) {
        Ok(()) => Ok(Bytes::from_vec(bytes)),
        Err(_) => Err(LookFail::Fault),
    }
}
