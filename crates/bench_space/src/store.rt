//! The store that is worked on: one space of the largest size, in a file.

ghost use Rattle.std.specs.Prelude.{◌≡◌, IfOk, length};
ghost use Rattle.space_directory.specs.SpaceView.{IsSpace};

use file_port::{FileBay, FilePort, FileSpan};
use page_port::{Bay, Geometry, Span};
use space_directory::{ReadSpace, Space};
use std::alloc::{AllocError, Global};

/// The bytes of a page.
pub const PAGE: usize = 4096;

/// The pages of the store: two of its own, the directory of the space, and its 16,384 data pages.
const ALL_PAGES: u32 = 16387;

/// The name of the file.
const FILE: &str = "bench_space.img";

/// Why the work wasn't done.
#[derive(Clone, Copy, PartialEq, Eq, Debug)]
pub enum Failure {
    /// The file didn't do what was asked.
    Device,
    /// There was no memory.
    Memory,
}

impl From<AllocError> for Failure {
    fn from(_error: AllocError) -> Failure {
        Failure::Memory
    }
}

/// A port, and the data pages of the space.
#[derive(Drop)]
pub struct Store {
    pub port: FilePort,
    pub data: FileSpan,
}

/// A new store.
pub fn make_store(rt: &HostRuntime) -> Result<Store, Failure>
    ensures page { IfOk result (λ store. store.port.page ≡ 4096) }
    ensures count { IfOk result (λ store. store.data.count ≡ 16384) }
{
    let mut bay = FileBay::new(rt.clone()?, rt.alloc(), FILE)?;
    let Ok(()) = bay.prepare(ALL_PAGES as u64 * PAGE as u64) else {
        return Err(Failure::Device);
    };
    let Ok(mut data) = bay.mount(PAGE as u32, ALL_PAGES) else {
        return Err(Failure::Device);
    };
    let Ok(port) = bay.port() else {
        return Err(Failure::Device);
    };
    let _ = data.cut(3);
    Ok(Store { port, data })
}

/// The space of a new store, a quarter of whose pages are used: every other eight of its first
/// half.
pub fn quarter_used(alloc: Global, store: Store) -> Result<Space<FileSpan>, Failure>
    requires { store.data.count ≡ 16384 }
    ensures count { IfOk result (λ space. length space.free ≡ 16384) }
    ensures space { IfOk result IsSpace }
{
    let Some(geometry) = Geometry::new(PAGE as u32, 14, 1, 1, 2) else {
        unreachable!()
    };
    match Space::read_page(alloc, &geometry, 0, &directory(), store.data) {
        Ok(ReadSpace { space, used: _ }) => Ok(space),
        Err(_) => Err(Failure::Memory),
    }
}

/// Its directory page, with 12,288 free pages.
fn directory() -> [u8; PAGE] {
    let mut page = [0; PAGE];
    page[..4].copy_from_slice(b"DIR1");
    page[8..12].copy_from_slice(&12288u32.to_be_bytes());
    page[16..2064].fill(0xff);
    for i in 0..512 {
        page[17 + 2 * i] = 0;
    }
    page
}
