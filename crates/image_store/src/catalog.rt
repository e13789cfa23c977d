//! The superblock and the catalog of a store, as bytes.

ghost use Rattle.std.specs.Prelude.{◌≡◌, ◌+◌, ◌-◌, ◌*◌, ◌≤◌, ◌++◌, length, map, take, drop};
ghost use Rattle.std.specs.List.{flat_map};
ghost use Rattle.geometry_model.specs.Numbers.{objects as object_count};
ghost use Rattle.image_model.specs.Catalog.{entry_bytes};
ghost use Rattle.image_format.specs.Entries.{model_entry};
ghost use Rattle.store_format.specs.Writing.{front_count};
ghost use Rattle.image_store.specs.Closing.{closed_front};

use image_format::{CatalogEntry, write_entry};
use object_body::{Object, Stored};
use page_port::Geometry;
use store_format::put_super;

/// Puts the superblock and the entries of all objects into `room`, as they stand on the front
/// pages. It takes no memory.
pub fn put_front<B: Stored, H>(room: &mut [u8], geometry: &Geometry, objects: &[Object<B, H>])
    requires room { length room.old ≡ front_count geometry.now * geometry.now.page }
    requires objects { length objects.now ≡ object_count geometry.now }
    ensures { room.new ≡ closed_front geometry.now (map (λ x. B.entry x.body) objects.now) }
{
    let size = geometry.page() as usize;
    put_super(room, geometry);
    put_entries(&mut room[size..], objects);
}

/// Puts the entries of objects one after the other.
fn put_entries<B: Stored, H>(out: &mut [u8], objects: &[Object<B, H>])
    requires { length out.old ≡ 16 * length objects.now }
    ensures { out.new ≡ flat_map (entry_bytes 2) (map (λ x. B.entry x.body) objects.now) }
{
    for o in 0..objects.len() {
        put_entry(out, 16 * o, &entry_of(&objects[o].body));
    }
}

/// Puts an entry at a place.
fn put_entry(out: &mut [u8], at: usize, entry: &CatalogEntry)
    requires { at + 16 ≤ length out.old }
    ensures { take (at + 16) out.new ≡ take at out.old ++ entry_bytes 2 (model_entry entry.now) }
{
    let mut bytes = [0; 16];
    write_entry(entry, &mut bytes);
    out[at..at + 16].copy_from_slice(&bytes);
}

/// What the catalog says of an object.
fn entry_of<B: Stored>(body: &B) -> CatalogEntry
    ensures { model_entry result ≡ B.entry body.now }
{
    let threshold = body.threshold();
    match body.root() {
        None => CatalogEntry::Absent,
        Some(root) => CatalogEntry::Present {
            height: root.height,
            root: root.page,
            length: root.length,
            threshold,
        },
    }
}
