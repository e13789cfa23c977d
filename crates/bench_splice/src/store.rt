//! The object that is worked on: an empty one, in a file of its own.

ghost use Rattle.std.specs.Prelude.{◌≡◌, ℕ, [], ◌∷◌, length, IfOk, None};
ghost use Rattle.bench_splice.specs.Store.{CanExchange};
ghost use Rattle.geometry_model.specs.Numbers.{space_pages};
ghost use Rattle.page_cache.specs.Kept.{HaveAtMost};

use file_port::{FileBay, FilePort, FileSpan};
use page_cache::Cache;
use page_port::{Bay, Geometry, Span};
use space_directory::{ReadSpace, Space};
use span_store::Holdings;
use std::alloc::{AllocError, Global};
use superdirectory::Solo;
use tree_read::Root;

/// The name of the file.
const FILE: &str = "bench_splice.img";

/// How many nodes the cache keeps at most.
const NODES: usize = 64;

/// Why the work wasn't done.
#[derive(Clone, Copy, PartialEq, Eq, Debug)]
pub enum Failure {
    /// The file or the space didn't do what was asked.
    Device,
    /// There was no memory.
    Memory,
}

impl From<AllocError> for Failure {
    fn from(_error: AllocError) -> Failure {
        Failure::Memory
    }
}

/// An object, and the device, the cache and the one space that it is used with, and how many pages
/// the space has.
#[derive(Drop)]
pub struct Store {
    pub root: Root,
    pub held: Holdings<FileSpan>,
    pub cache: Cache,
    pub port: FilePort,
    pub latches: Solo<FileSpan>,
    pub pages: u32,
}

/// An empty object in a new file.
pub fn make_store(rt: &HostRuntime, geometry: &Geometry) -> Result<Store, Failure>
    ensures ready { IfOk result (λ s. CanExchange s.cache s.port.page s.pages s.latches) }
{
    let alloc = rt.alloc();
    let page = geometry.page();
    let pages = geometry.space_pages();
    let mut bay = FileBay::new(rt.clone()?, alloc, FILE)?;
    let Ok(()) = bay.prepare((3 + pages) as u64 * page as u64) else {
        return Err(Failure::Device);
    };
    let Ok(mut span) = bay.mount(page, 3 + pages) else {
        return Err(Failure::Device);
    };
    let Ok(port) = bay.port() else {
        return Err(Failure::Device);
    };
    let _head = span.cut(3);
    let space = free_space(alloc, geometry, span)?;
    let latches = one_space(alloc, space)?;
    let cache = empty_cache(alloc)?;
    Ok(Store {
        root: Root {
            height: 0,
            page: 0,
            length: 0,
        },
        held: Holdings::new(alloc),
        cache,
        port,
        latches,
        pages,
    })
}

/// The space of a new store, all pages of which are free.
fn free_space(
    alloc: Global,
    geometry: &Geometry,
    span: FileSpan,
) -> Result<Space<FileSpan>, Failure>
    requires count { span.count ≡ space_pages geometry.now }
    requires first { span.first ≡ 3 }
    ensures number { IfOk result (λ v. v.number ≡ 0) }
    ensures page { IfOk result (λ v. v.page ≡ geometry.now.page) }
    ensures pages { IfOk result (λ v. length v.free ≡ space_pages geometry.now) }
    ensures first { IfOk result (λ v. v.first ≡ 3) }
{
    let pages = geometry.space_pages();
    let mut directory = [0; 4096];
    directory[..4].copy_from_slice(b"DIR1");
    directory[8..12].copy_from_slice(&pages.to_be_bytes());
    directory[16..16 + pages as usize / 8].fill(0xff);
    let Some(page) = directory.get(..geometry.page() as usize) else {
        return Err(Failure::Device);
    };
    match Space::read_page(alloc, geometry, 0, page, span) {
        Ok(ReadSpace { space, used: _ }) => Ok(space),
        Err(_) => Err(Failure::Memory),
    }
}

/// The spaces of a store of this one.
fn one_space(alloc: Global, space: Space<FileSpan>) -> Result<Solo<FileSpan>, Failure>
    requires { space.number ≡ 0 }
    ensures entered { IfOk result (λ solo. solo.entered ≡ None) }
    ensures page { IfOk result (λ solo. solo.page ≡ space.page) }
    ensures pages { IfOk result (λ solo. solo.pages ≡ length space.free) }
    ensures firsts { IfOk result (λ solo. solo.firsts ≡ space.first ∷ []) }
{
    let Ok(spaces) = Vec::from_array(alloc, [space]) else {
        return Err(Failure::Memory);
    };
    match Solo::new(alloc, spaces) {
        Ok(solo) => Ok(solo),
        Err(_) => Err(Failure::Memory),
    }
}

/// A cache without any node yet.
fn empty_cache(alloc: Global) -> Result<Cache, Failure>
    ensures kept { IfOk result (λ cache. (most : ℕ) → HaveAtMost most cache) }
{
    match Cache::new(alloc, NODES) {
        Ok(cache) => Ok(cache),
        Err(_) => Err(Failure::Memory),
    }
}
