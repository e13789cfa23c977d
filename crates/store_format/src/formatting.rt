//! Formatting a device.

ghost use Rattle.std.specs.Prelude.{◌≡◌, ◌-◌, ◌*◌, ◌≤◌, ◌++◌, [], length, take, replicate, IsTrue, IsErr};
ghost use Rattle.std.specs.Prelude.{OnOk, OnErr, Err, Some, None};
ghost use Rattle.geometry_model.specs.Numbers.{pages, IsInRange};
ghost use Rattle.fault_count.specs.Counts.{HasCause, IsUsed, new_meter};
ghost use Rattle.page_port.specs.Device.{is_home};
ghost use Rattle.page_port.specs.Pages.{IsSized};
ghost use Rattle.image_model.specs.Image.{image_pages};
ghost use Rattle.image_model.specs.Super.{super_bytes};
ghost use Rattle.store_format.specs.Rows.{row_page, KeepsShape};
ghost use Rattle.store_format.specs.Writing.{AreDirectories, IsStoreWritten, IsCutShort, front_count};
ghost use Rattle.store_format.specs.Blank.{blank_directory, blank_front};
ghost use Rattle.store_format.specs.Formatting.{IsFormatted, IsHalfFormatted, IsUnformatted};
ghost use Rattle.store_format.specs.Formatting.{store_bytes};

use crate::blank::{put_zeros, write_blank_directory};
use crate::writing::{write_page, write_run};
use image_format::{Geometry, write_super};
use page_port::{Bay, BayFail, DeviceFault, Port};
use std::alloc::Global;

/// Makes the device an empty store of these numbers: all its data pages are free, and all its
/// objects absent. The size becomes that of the store's pages. What data pages held stays there.
///
/// # Errors
/// - `Fault`: the device failed, and its count of faults rose. Where its size was made the store's,
///   pages may have been written, the superblock and the catalog last.
/// - `Memory`: there was no memory. Then no page was written.
pub fn format<Y: Bay>(alloc: Global, bay: &mut Y, geometry: &Geometry) -> Result<(), BayFail>
    requires { IsTrue Y.S.tells → IsTrue (is_home (Y.device bay.old)) }
    ensures formatted { OnOk result (IsTrue Y.S.tells →
        IsFormatted geometry.now (Y.device bay.old).bytes (Y.device bay.new).bytes) }
    ensures failed { OnErr result (IsTrue Y.S.tells →
        IsUnformatted geometry.now (Y.device bay.old).bytes (Y.device bay.new).bytes) }
    ensures home { IsTrue Y.S.tells → IsTrue (is_home (Y.device bay.new)) }
    ensures cause { HasCause (Y.device bay.old).faults (Y.device bay.new).faults
        (result ≡ Err BayFail.Fault) }
{
    let Ok(mut room) = vec![in alloc; 0u8; front_bytes(geometry)] else {
        return Err(BayFail::Memory);
    };
    bay.prepare(geometry.pages() as u64 * geometry.page() as u64)?;
    format_prepared(bay, geometry, &mut room)
}

/// The bytes of the superblock and the catalog.
fn front_bytes(geometry: &Geometry) -> usize
    ensures bytes { result ≡ front_count geometry.now * geometry.now.page }
    ensures range { IsInRange geometry.now }
{
    (1 + geometry.catalog() as usize) * geometry.page() as usize
}

/// Formats a device of the store's size. `room` has as many bytes as the front pages.
fn format_prepared<Y: Bay>(bay: &mut Y, geometry: &Geometry, room: &mut [u8]) -> Result<(), BayFail>
    requires home { IsTrue Y.S.tells → IsTrue (is_home (Y.device bay.old)) }
    requires size { IsTrue Y.S.tells → length (Y.device bay.old).bytes ≡ store_bytes geometry.now }
    requires room { length room.old ≡ front_count geometry.now * geometry.now.page }
    ensures formatted { OnOk result (IsTrue Y.S.tells →
        IsFormatted geometry.now (Y.device bay.old).bytes (Y.device bay.new).bytes) }
    ensures failed { OnErr result (IsTrue Y.S.tells →
        IsHalfFormatted geometry.now (Y.device bay.old).bytes (Y.device bay.new).bytes) }
    ensures home { IsTrue Y.S.tells → IsTrue (is_home (Y.device bay.new)) }
    ensures cause { HasCause (Y.device bay.old).faults (Y.device bay.new).faults
        (result ≡ Err BayFail.Fault) }
{
    let span = bay.mount(geometry.page(), geometry.pages())?;
    match bay.port() {
        Ok(port) => format_mounted(bay, geometry, room, port, span),
        Err(fail) => {
            bay.restore(span);
            Err(fail)
        }
    }
}

/// Formats the pages of a mount, and gives them back with the port.
fn format_mounted<Y: Bay>(
    bay: &mut Y,
    geometry: &Geometry,
    room: &mut [u8],
    mut port: Y::P,
    mut span: Y::S,
) -> Result<(), BayFail>
    requires mounted { (Y.device bay.old).mounted ≡ Some geometry.now.page }
    requires out { IsTrue Y.S.tells → (Y.device bay.old).pages ≡ replicate (pages geometry.now) None }
    requires none { IsTrue Y.S.tells → (Y.device bay.old).bytes ≡ [] }
    requires port { Y.P.meter port ≡ new_meter geometry.now.page }
    requires start { Y.S.start span ≡ 0 }
    requires count { length (Y.S.contents span) ≡ pages geometry.now }
    requires sized { IsSized Y.S.tells geometry.now.page (Y.S.contents span) }
    requires room { length room.old ≡ front_count geometry.now * geometry.now.page }
    ensures home { IsTrue Y.S.tells → IsTrue (is_home (Y.device bay.new)) }
    ensures size { IsTrue Y.S.tells → length (Y.device bay.new).bytes ≡ store_bytes geometry.now }
    ensures written { OnOk result (IsTrue Y.S.tells → IsStoreWritten geometry.now
        (blank_directory geometry.now) (blank_front geometry.now)
        (row_page (Y.S.contents span)) (image_pages geometry.now (Y.device bay.new).bytes)) }
    ensures failed { OnErr result (IsTrue Y.S.tells → IsCutShort geometry.now
        (blank_directory geometry.now)
        (row_page (Y.S.contents span)) (image_pages geometry.now (Y.device bay.new).bytes)) }
    ensures cause { HasCause (Y.device bay.old).faults (Y.device bay.new).faults
        (result ≡ Err BayFail.Fault) }
{
    let written = write_store(&mut port, &mut span, geometry, room);
    bay.restore(span);
    bay.absorb(port);
    match written {
        Ok(()) => Ok(()),
        Err(_) => Err(BayFail::Fault),
    }
}

/// Writes the pages of an empty store: the directories, and then the superblock with the catalog.
fn write_store<P: Port>(
    port: &mut P,
    span: &mut P::S,
    geometry: &Geometry,
    room: &mut [u8],
) -> Result<(), DeviceFault>
    requires page { (P.meter port.old).page ≡ geometry.now.page }
    requires count { length (P.S.contents span.old) ≡ pages geometry.now }
    requires sized { IsSized P.S.tells geometry.now.page (P.S.contents span.old) }
    requires room { length room.old ≡ front_count geometry.now * geometry.now.page }
    ensures written { OnOk result (IsTrue P.S.tells → IsStoreWritten geometry.now
        (blank_directory geometry.now) (blank_front geometry.now)
        (row_page (P.S.contents span.old)) (row_page (P.S.contents span.new))) }
    ensures failed { OnErr result (IsTrue P.S.tells → IsCutShort geometry.now
        (blank_directory geometry.now)
        (row_page (P.S.contents span.old)) (row_page (P.S.contents span.new))) }
    ensures place { P.S.start span.new ≡ P.S.start span.old }
    ensures shape { KeepsShape P.S.tells geometry.now.page
        (P.S.contents span.old) (P.S.contents span.new) }
    ensures port { IsUsed (P.meter port.old) (P.meter port.new) }
    ensures cause { HasCause (P.meter port.old).faults (P.meter port.new).faults (IsErr result) }
{
    let size = geometry.page() as usize;
    write_directories(port, span, geometry, &mut room[..size])?;
    put_blank_front(room, geometry);
    write_run(port, span, 0, room)
}

/// Puts the superblock and the catalog of an empty store into `room`.
fn put_blank_front(room: &mut [u8], geometry: &Geometry)
    requires { length room.old ≡ front_count geometry.now * geometry.now.page }
    ensures { room.new ≡ blank_front geometry.now }
{
    let size = geometry.page() as usize;
    put_super(room, geometry);
    put_zeros(room, size);
}

/// Puts the superblock on the first page of `room`, in the form of version 2.
pub fn put_super(room: &mut [u8], geometry: &Geometry)
    requires { geometry.now.page ≤ length room.old }
    ensures { take geometry.now.page room.new
        ≡ super_bytes 2 geometry.now ++ replicate (geometry.now.page - 256) 0 }
{
    let size = geometry.page() as usize;
    write_super(geometry, 0, &mut room[..size]);
}

/// Writes the directories of an empty store, one page at a time. `page` is room for one.
fn write_directories<P: Port>(
    port: &mut P,
    span: &mut P::S,
    geometry: &Geometry,
    page: &mut [u8],
) -> Result<(), DeviceFault>
    requires page { (P.meter port.old).page ≡ geometry.now.page }
    requires room { length page.old ≡ geometry.now.page }
    requires count { length (P.S.contents span.old) ≡ pages geometry.now }
    requires sized { IsSized P.S.tells geometry.now.page (P.S.contents span.old) }
    ensures written { OnOk result (IsTrue P.S.tells → AreDirectories geometry.now
        (blank_directory geometry.now) geometry.now.spaces
        (row_page (P.S.contents span.old)) (row_page (P.S.contents span.new))) }
    ensures failed { OnErr result (IsTrue P.S.tells → IsCutShort geometry.now
        (blank_directory geometry.now)
        (row_page (P.S.contents span.old)) (row_page (P.S.contents span.new))) }
    ensures place { P.S.start span.new ≡ P.S.start span.old }
    ensures shape { KeepsShape P.S.tells geometry.now.page
        (P.S.contents span.old) (P.S.contents span.new) }
    ensures port { IsUsed (P.meter port.old) (P.meter port.new) }
    ensures cause { HasCause (P.meter port.old).faults (P.meter port.new).faults (IsErr result) }
{
    // Who asks for the page size learns that all numbers are in range.
    let _size = geometry.page();
    let pages = geometry.space_pages();
    for s in 0..geometry.spaces() {
        let number = s as u16;
        write_blank_directory(page, number, pages);
        write_page(port, span, geometry.directory_page(number), page)?;
    }
    Ok(())
}
