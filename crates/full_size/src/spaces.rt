//! A space of the largest order, and as many spaces as a store may have.

ghost use Rattle.std.specs.Prelude.{◌≡◌, ◌+◌, ◌≤◌, length, IfOk};
ghost use Rattle.superdirectory.specs.Solo.{AreAlike};

use buddy_map::BuddyMap;
use file_port::{FileBay, FileSpan};
use page_port::{Bay, Geometry, Span};
use release_locks::Locks;
use space_directory::Space;
use std::alloc::AllocError;
use superdirectory::Solo;

/// The data pages of a space of the largest order.
const PAGES: u32 = 16_384;

/// The spaces of the largest store.
const SPACES: u16 = 256;

#[test]
fn the_maps_of_the_largest_space_are_made(rt: HostRuntime) -> Result<(), AllocError> {
    let _map = BuddyMap::new(rt.alloc(), 14)?;
    let _same = BuddyMap::from_bits(rt.alloc(), 14, &[0xff; 2048])?;
    let _locks = Locks::new(rt.alloc(), PAGES)?;
    Ok(())
}

/// The directory page of a space of the largest order, every other page of which is free.
fn every_other_page() -> [u8; 4096] {
    let mut page = [0; 4096];
    page[..4].copy_from_slice(b"DIR1");
    page[8..12].copy_from_slice(&8192u32.to_be_bytes());
    page[16..2064].fill(0x55);
    page
}

/// The spaces of a store whose device has `pages` pages of this size: its data pages alone.
fn data_pages(rt: &HostRuntime, path: &str, size: u32, pages: u32) -> Result<FileSpan, AllocError>
    requires { 4 ≤ pages }
    ensures { IfOk result (λ span. span.count + 3 ≡ pages) }
{
    let mut bay = FileBay::new(rt.clone()?, rt.alloc(), path)?;
    let Ok(()) = bay.prepare(u64::from(size) * u64::from(pages)) else {
        return Err(AllocError);
    };
    let Ok(mut data) = bay.mount(size, pages) else {
        return Err(AllocError);
    };
    let _head = data.cut(3);
    Ok(data)
}

#[test]
fn the_largest_space_is_read_off_its_page(rt: HostRuntime) -> Result<(), AllocError> {
    let data = data_pages(&rt, "full_size_space.img", 4096, 16_387)?;
    let geometry = Geometry::new(4096, 14, 1, 1, 2).expect(&rt, "numbers in their ranges");
    match Space::read_page(rt.alloc(), &geometry, 0, &every_other_page(), data) {
        Ok(read) => assert_eq!(rt; read.used.len(), 8192),
        Err(_) => assert!(rt; false),
    }
    Ok(())
}

/// Space `s` of a store, with 16 pages of 256 bytes, none of which is free.
fn full_space(rt: &HostRuntime, s: u16, pages: FileSpan) -> Result<Space<FileSpan>, AllocError>
    requires { pages.count ≡ 16 }
    ensures number { IfOk result (λ v. v.number ≡ s) }
    ensures page { IfOk result (λ v. v.page ≡ 256) }
    ensures pages { IfOk result (λ v. length v.free ≡ 16) }
{
    let mut page = [0; 256];
    page[..4].copy_from_slice(b"DIR1");
    page[4..8].copy_from_slice(&u32::from(s).to_be_bytes());
    let Some(geometry) = Geometry::new(256, 4, 256, 1, 2) else {
        return Err(AllocError);
    };
    match Space::read_page(rt.alloc(), &geometry, s, &page, pages) {
        Ok(read) => Ok(read.space),
        Err(_) => Err(AllocError),
    }
}

/// As many spaces as a store may have.
fn all_spaces(rt: &HostRuntime) -> Result<Vec<Space<FileSpan>>, AllocError>
    ensures count { IfOk result (λ spaces. length spaces.items ≡ 256) }
    ensures alike { IfOk result (λ spaces. AreAlike 256 16 spaces.items) }
{
    let mut rest = data_pages(rt, "full_size_spaces.img", 256, 4100)?;
    let mut spaces = Vec::new(rt.alloc());
    for s in 0..SPACES {
        let pages = rest.cut(16);
        let space = full_space(rt, s, pages)?;
        spaces.push(space)?;
    }
    Ok(spaces)
}

#[test]
fn the_spaces_of_the_largest_store_are_taken_over(rt: HostRuntime) -> Result<(), AllocError> {
    let spaces = all_spaces(&rt)?;
    assert!(rt; Solo::new(rt.alloc(), spaces).is_ok());
    Ok(())
}
