//! The object that is worked on: an absent one, and a new store in a file.

ghost use Rattle.std.specs.Prelude.{◌≡◌, ◌+◌, length, IfSome};
ghost use Rattle.bench_object.specs.Store.{AreFirst, CanEdit};
ghost use Rattle.geometry_model.specs.Numbers.{pages, space_pages};
ghost use Rattle.geometry_model.specs.Pages.{first_page};
ghost use Rattle.object_state.specs.Tree.{tree_form};
ghost use Rattle.superdirectory.specs.Solo.{rest_of};

use file_port::{FileBay, FilePort, FileSpan};
use object_state::TreeBody;
use page_port::{Bay, Geometry, Span};
use space_directory::{ReadSpace, Space};
use span_store::Holdings;
use std::alloc::Global;
use superdirectory::Solo;

/// The name of the file.
const FILE: &str = "bench_object.img";

/// An object, and the device and the spaces that it is used with.
#[derive(Drop)]
pub struct Store {
    pub body: TreeBody<FilePort>,
    pub port: FilePort,
    pub latches: Solo<FileSpan>,
}

/// An absent object, and a store in a new file all pages of which are free. None says that the file
/// or the memory didn't do what was asked.
pub fn make_store(rt: &HostRuntime, geometry: &Geometry) -> Option<Store>
    ensures { IfSome result (λ s. CanEdit (tree_form s.body).numbers s.port.page
        (rest_of s.latches)) }
{
    // This says that the numbers are in range.
    let _page = geometry.page();
    let (port, span) = make_file(rt, geometry)?;
    let alloc = rt.alloc();
    let spaces = free_spaces(alloc, geometry, span)?;
    let Ok(latches) = Solo::new(alloc, spaces) else {
        return None;
    };
    let body = absent_object(alloc, geometry)?;
    Some(Store {
        body,
        port,
        latches,
    })
}

/// A port to a new file, and the pages of the file: those of the store, and one more.
fn make_file(rt: &HostRuntime, geometry: &Geometry) -> Option<(FilePort, FileSpan)>
    ensures page { IfSome result (λ r. r.0.page ≡ geometry.now.page) }
    ensures first { IfSome result (λ r. r.1.first ≡ 0) }
    ensures count { IfSome result (λ r. r.1.count ≡ pages geometry.now + 1) }
{
    let page = geometry.page();
    let count = geometry.pages() + 1;
    let Ok(runtime) = rt.clone() else {
        return None;
    };
    let Ok(mut bay) = FileBay::new(runtime, rt.alloc(), FILE) else {
        return None;
    };
    let Ok(()) = bay.prepare(count as u64 * page as u64) else {
        return None;
    };
    let Ok(span) = bay.mount(page, count) else {
        return None;
    };
    match bay.port() {
        Ok(port) => Some((port, span)),
        Err(_) => None,
    }
}

/// An object that is absent.
fn absent_object(alloc: Global, geometry: &Geometry) -> Option<TreeBody<FilePort>>
    ensures { IfSome result (λ body. body.numbers ≡ geometry.now) }
{
    // This says that the numbers are in range.
    let _page = geometry.page();
    let mut held = Some(Holdings::new(alloc));
    TreeBody::take_pages(alloc, geometry, 1, None, &mut held)
}

/// The spaces of the store, all pages of which are free. `span` has its pages and one more behind
/// them.
fn free_spaces(alloc: Global, geometry: &Geometry, span: FileSpan) -> Option<Vec<Space<FileSpan>>>
    requires first { span.first ≡ 0 }
    requires count { span.count ≡ pages geometry.now + 1 }
    ensures { IfSome result (λ spaces. AreFirst geometry.now geometry.now.spaces spaces.items) }
{
    // This says that the numbers are in range.
    let _page = geometry.page();
    let mut span = span;
    let pages = geometry.space_pages();
    let _front = span.cut(1 + geometry.catalog());
    let mut spaces = Vec::new(alloc);
    'spaces: for s in 0..geometry.spaces() {
        let _directory = span.cut(1);
        let space = free_space(alloc, geometry, s as u16, span.cut(pages))?;
        let Ok(()) = spaces.push(space) else {
            return None;
        };
    }
    Some(spaces)
}

/// Space `s` of the store, all pages of which are free.
fn free_space(alloc: Global, geometry: &Geometry, s: u16, span: FileSpan) -> Option<Space<FileSpan>>
    requires count { span.count ≡ space_pages geometry.now }
    requires first { span.first ≡ first_page geometry.now s }
    ensures number { IfSome result (λ v. v.number ≡ s) }
    ensures page { IfSome result (λ v. v.page ≡ geometry.now.page) }
    ensures pages { IfSome result (λ v. length v.free ≡ space_pages geometry.now) }
    ensures first { IfSome result (λ v. v.first ≡ first_page geometry.now s) }
{
    let pages = geometry.space_pages();
    let mut directory = [0; 4096];
    directory[..4].copy_from_slice(b"DIR1");
    directory[4..8].copy_from_slice(&u32::from(s).to_be_bytes());
    directory[8..12].copy_from_slice(&pages.to_be_bytes());
    directory[16..16 + pages as usize / 8].fill(0xff);
    let page = directory.get(..geometry.page() as usize)?;
    match Space::read_page(alloc, geometry, s, page, span) {
        Ok(ReadSpace { space, used: _ }) => Some(space),
        Err(_) => None,
    }
}
