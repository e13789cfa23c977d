//! The catalog entry of an object, 16 bytes.

ghost use Rattle.std.specs.Prelude.{◌≡◌, ◌<◌, ◌^◌, ◌↔◌, ◌∷◌, ◌++◌, drop, nat_eq, if◌then◌else◌};
ghost use Rattle.std.specs.Prelude.{IsTrue, IsErr, IfOk, false};
ghost use Rattle.std.specs.Int.{w16, w32, w64, to_be_bytes, from_be_bytes};
ghost use Rattle.geometry_model.specs.Numbers.{Numbers};
ghost use Rattle.image_model.specs.Super.{is_version};
ghost use Rattle.image_model.specs.Catalog.{entry_bytes, entry_in, has_entry, is_entry, is_root};
ghost use Rattle.image_model.specs.Catalog.{is_threshold};
ghost use Rattle.image_format.specs.Entries.{HasRoom, model_entry};

use crate::Geometry;
use crate::places::{u16_at, u32_at, u64_at};
use crate::refused::BadEntry;

/// What the catalog says of an object.
#[derive(Clone, Copy, PartialEq, Eq, Debug)]
pub enum CatalogEntry {
    /// There is no object of this number.
    Absent,
    /// The object is there.
    Present {
        /// The levels of its tree, 0 where it has no byte.
        height: u8,
        /// The page of its root node, 0 where the height is 0.
        root: u32,
        /// Its bytes.
        length: u64,
        /// Its threshold in pages, 1 to half of a space.
        threshold: u16,
    },
}

/// Reads an entry. In version 1 a present object has the store's threshold. It takes no memory.
pub fn read_entry(
    bytes: &[u8; 16],
    version: u32,
    geometry: &Geometry,
) -> Result<CatalogEntry, BadEntry>
    requires { IsTrue (is_version version) }
    ensures entry { IfOk result (λ e. model_entry e ≡ entry_in geometry.now version bytes.now) }
    ensures bytes { IfOk result (λ e. bytes.now ≡ entry_bytes version (model_entry e)) }
    ensures allowed { IfOk result (λ e. IsTrue (is_entry geometry.now (model_entry e))) }
    ensures bad { IsErr result ↔ (has_entry geometry.now version bytes.now ≡ false) }
{
    let entry = entry_said(bytes, version, geometry);
    if bytes_of(&entry, version) == *bytes && is_entry(&entry, geometry) {
        Ok(entry)
    } else {
        Err(BadEntry)
    }
}

/// What the bytes say, right or wrong.
fn entry_said(bytes: &[u8; 16], version: u32, geometry: &Geometry) -> CatalogEntry
    ensures { model_entry result ≡ entry_in geometry.now version bytes.now }
{
    if bytes[0] == 0 {
        return CatalogEntry::Absent;
    }
    CatalogEntry::Present {
        height: bytes[1],
        root: u32_at(bytes, 4),
        length: u64_at(bytes, 8),
        threshold: threshold_said(bytes, version, geometry),
    }
}

/// The threshold of a present object: its own in version 2, the store's in version 1.
fn threshold_said(bytes: &[u8; 16], version: u32, geometry: &Geometry) -> u16
    ensures { result ≡ (if nat_eq version 2 then from_be_bytes w16 (drop 2 bytes.now)
        else geometry.now.threshold) }
{
    if version == 2 {
        u16_at(bytes, 2)
    } else {
        store_threshold(geometry)
    }
}

/// The store's threshold.
fn store_threshold(geometry: &Geometry) -> u16
    ensures { result ≡ geometry.now.threshold }
{
    // Who asks for the page size learns that all numbers are in range: 16 bits hold the threshold.
    let _page = geometry.page();
    geometry.threshold() as u16
}

/// May an entry say this?
fn is_entry(entry: &CatalogEntry, geometry: &Geometry) -> bool
    ensures { result ≡ is_entry geometry.now (model_entry entry.now) }
{
    match *entry {
        CatalogEntry::Absent => true,
        CatalogEntry::Present {
            height,
            root,
            length,
            threshold,
        } => { is_root(height, root, length) && is_threshold(threshold, geometry) }
    }
}

/// Can a tree have this height, root and length?
fn is_root(height: u8, root: u32, length: u64) -> bool
    ensures { result ≡ is_root (record { height = height; page = root; length = length }) }
{
    if height == 0 {
        root == 0 && length == 0
    } else {
        length > 0
    }
}

/// Can an object have this threshold? It is at most half of a space.
fn is_threshold(threshold: u16, geometry: &Geometry) -> bool
    ensures { result ≡ is_threshold geometry.now threshold }
{
    threshold >= 1 && 2 * u32::from(threshold) <= geometry.space_pages()
}

/// Writes an entry in the form of version 2. It takes no memory.
pub fn write_entry(entry: &CatalogEntry, out: &mut [u8; 16])
    ensures bytes { out.new ≡ entry_bytes 2 (model_entry entry.now) }
    ensures back { (n : Numbers) → entry_in n 2 out.new ≡ model_entry entry.now }
{
    *out = bytes_of(entry, 2);
}

/// The bytes of an entry. Version 1 keeps no threshold.
fn bytes_of(entry: &CatalogEntry, version: u32) -> [u8; 16]
    ensures bytes { result ≡ entry_bytes version (model_entry entry.now) }
    ensures fits { HasRoom (model_entry entry.now) }
{
    match *entry {
        CatalogEntry::Absent => [0; 16],
        CatalogEntry::Present {
            height,
            root,
            length,
            threshold,
        } => { present_bytes(height, root, length, kept_threshold(threshold, version)) }
    }
}

/// The threshold as the bytes of a version keep it.
fn kept_threshold(threshold: u16, version: u32) -> u16
    ensures kept { result ≡ (if nat_eq version 2 then threshold else 0) }
    ensures fits { threshold < 2 ^ 16 }
{
    if version == 2 { threshold } else { 0 }
}

/// The bytes of a present object's entry.
fn present_bytes(height: u8, root: u32, length: u64, threshold: u16) -> [u8; 16]
    ensures bytes { result ≡ 1 ∷ height ∷ (to_be_bytes w16 threshold
        ++ (to_be_bytes w32 root ++ to_be_bytes w64 length)) }
    ensures fits { (root < 2 ^ 32) × (length < 2 ^ 64) }
{
    let [t0, t1] = threshold.to_be_bytes();
    let [r0, r1, r2, r3] = root.to_be_bytes();
    let [l0, l1, l2, l3, l4, l5, l6, l7] = length.to_be_bytes();
    [
        1, height, t0, t1, r0, r1, r2, r3, l0, l1, l2, l3, l4, l5, l6, l7,
    ]
}
