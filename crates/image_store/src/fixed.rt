//! The pages of a store that belong to no object, written when it is closed.

ghost use Rattle.std.specs.Prelude.{◌≡◌, ℕ, ◌<◌, length, map, All, IsTrue, IsErr, OnOk, OnErr};
ghost use Rattle.geometry_model.specs.Numbers.{objects as object_count};
ghost use Rattle.fault_count.specs.Counts.{HasCause, IsUsed};
ghost use Rattle.object_body.specs.Places.{AreHome};
ghost use Rattle.block_model.specs.Directory.{directory_page};
ghost use Rattle.store_format.specs.Rows.{row_page, KeepsShape};
ghost use Rattle.store_parts.specs.Fixed.{IsFixed, fixed_view};
ghost use Rattle.store_parts.specs.Parts.{store_frame};
ghost use Rattle.image_store.specs.Closing.{AreFixedWritten, AreFixedCut, closed_directory};
ghost use Rattle.image_store.specs.Closing.{closed_front, directory_of, fixed_of, AreSpansWritten};
ghost use Rattle.page_port.specs.Pages.{IsSized};
ghost use Rattle.span_store.specs.Held.{spans_of};

use crate::catalog::put_front;
use object_body::{Object, Stored};
use page_port::{DeviceFault, Geometry, Port};
use space_directory::Space;
use store_format::{write_page, write_run};
use store_parts::Fixed;

/// Writes the directories, and then the superblock with the catalog. It takes no memory.
///
/// # Errors
/// The device failed: the port's count of faults rose. What was to be written then may hold
/// anything, and what comes behind it holds what it held.
pub fn write_fixed<P: Port, B: Stored<P = P>, H>(
    port: &mut P,
    fixed: &mut Fixed<P::S>,
    geometry: &Geometry,
    spaces: &[Space<P::S>],
    objects: &[Object<B, H>],
) -> Result<(), DeviceFault>
    requires page { (P.meter port.old).page ≡ geometry.now.page }
    requires fixed { IsFixed P.S.tells geometry.now (fixed_view P.S.start P.S.contents fixed.old) }
    requires spaces { AreHome (store_frame geometry.now) spaces.now }
    requires objects { length objects.now ≡ object_count geometry.now }
    ensures fixed { IsFixed P.S.tells geometry.now (fixed_view P.S.start P.S.contents fixed.new) }
    ensures written { OnOk result (IsTrue P.S.tells → AreFixedWritten geometry.now
        (closed_directory geometry.now spaces.now)
        (closed_front geometry.now (map (λ x. B.entry x.body) objects.now))
        (fixed_view P.S.start P.S.contents fixed.new)) }
    ensures failed { OnErr result (IsTrue P.S.tells → (done : ℕ) × AreFixedCut geometry.now
        (closed_directory geometry.now spaces.now) done
        (fixed_view P.S.start P.S.contents fixed.old)
        (fixed_view P.S.start P.S.contents fixed.new)) }
    ensures port { IsUsed (P.meter port.old) (P.meter port.new) }
    ensures cause { HasCause (P.meter port.old).faults (P.meter port.new).faults (IsErr result) }
{
    write_pages(
        port,
        &mut fixed.front,
        &mut fixed.directories,
        &mut fixed.room,
        geometry,
        spaces,
        objects,
    )
}

/// The same on the parts of these pages.
fn write_pages<P: Port, B: Stored<P = P>, H>(
    port: &mut P,
    front: &mut P::S,
    directories: &mut [P::S],
    room: &mut [u8],
    geometry: &Geometry,
    spaces: &[Space<P::S>],
    objects: &[Object<B, H>],
) -> Result<(), DeviceFault>
    requires page { (P.meter port.old).page ≡ geometry.now.page }
    requires fixed { IsFixed P.S.tells geometry.now
        (fixed_of P.S.start P.S.contents front.old directories.old room.old) }
    requires spaces { AreHome (store_frame geometry.now) spaces.now }
    requires objects { length objects.now ≡ object_count geometry.now }
    ensures fixed { IsFixed P.S.tells geometry.now
        (fixed_of P.S.start P.S.contents front.new directories.new room.new) }
    ensures written { OnOk result (IsTrue P.S.tells → AreFixedWritten geometry.now
        (closed_directory geometry.now spaces.now)
        (closed_front geometry.now (map (λ x. B.entry x.body) objects.now))
        (fixed_of P.S.start P.S.contents front.new directories.new room.new)) }
    ensures failed { OnErr result (IsTrue P.S.tells → (done : ℕ) × AreFixedCut geometry.now
        (closed_directory geometry.now spaces.now) done
        (fixed_of P.S.start P.S.contents front.old directories.old room.old)
        (fixed_of P.S.start P.S.contents front.new directories.new room.new)) }
    ensures port { IsUsed (P.meter port.old) (P.meter port.new) }
    ensures cause { HasCause (P.meter port.old).faults (P.meter port.new).faults (IsErr result) }
{
    let size = geometry.page() as usize;
    write_directories(port, directories, spaces, &mut room[..size])?;
    put_front(room, geometry, objects);
    write_run(port, front, 0, room)
}

/// Writes the directory of each space on its page, by one call for each. `page` is room for one.
fn write_directories<P: Port>(
    port: &mut P,
    directories: &mut [P::S],
    spaces: &[Space<P::S>],
    page: &mut [u8],
) -> Result<(), DeviceFault>
    requires some { 0 < (P.meter port.old).page }
    requires room { length page.old ≡ (P.meter port.old).page }
    requires count { length directories.old ≡ length spaces.now }
    requires sizes { All (λ v. v.page ≡ (P.meter port.old).page) spaces.now }
    requires each { All (λ d. (length (P.S.contents d) ≡ 1)
        × IsSized P.S.tells (P.meter port.old).page (P.S.contents d)) directories.old }
    ensures written { OnOk result (AreSpansWritten P.S.tells (P.meter port.old).page
        (directory_of spaces.now) (length spaces.now)
        (spans_of P.S.start P.S.contents directories.old)
        (spans_of P.S.start P.S.contents directories.new)) }
    ensures failed { OnErr result ((done : ℕ) × (done < length spaces.now)
        × AreSpansWritten P.S.tells (P.meter port.old).page
        (directory_of spaces.now) done
        (spans_of P.S.start P.S.contents directories.old)
        (spans_of P.S.start P.S.contents directories.new)) }
    ensures port { IsUsed (P.meter port.old) (P.meter port.new) }
    ensures cause { HasCause (P.meter port.old).faults (P.meter port.new).faults (IsErr result) }
{
    for s in 0..spaces.len() {
        write_directory(port, &mut directories[s], &spaces[s], page)?;
    }
    Ok(())
}

/// Writes the directory of a space on its page. `page` is room for one.
fn write_directory<P: Port>(
    port: &mut P,
    span: &mut P::S,
    space: &Space<P::S>,
    page: &mut [u8],
) -> Result<(), DeviceFault>
    requires some { 0 < (P.meter port.old).page }
    requires room { length page.old ≡ (P.meter port.old).page }
    requires size { space.now.page ≡ (P.meter port.old).page }
    requires one { length (P.S.contents span.old) ≡ 1 }
    requires sized { IsSized P.S.tells (P.meter port.old).page (P.S.contents span.old) }
    ensures bytes { OnOk result (IsTrue P.S.tells → row_page (P.S.contents span.new) 0
        ≡ directory_page space.now.page space.now.number space.now.free) }
    ensures place { P.S.start span.new ≡ P.S.start span.old }
    ensures shape { KeepsShape P.S.tells (P.meter port.old).page
        (P.S.contents span.old) (P.S.contents span.new) }
    ensures port { IsUsed (P.meter port.old) (P.meter port.new) }
    ensures cause { HasCause (P.meter port.old).faults (P.meter port.new).faults (IsErr result) }
{
    space.write_page(page);
    write_page(port, span, 0, page)
}
