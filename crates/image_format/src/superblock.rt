//! The superblock: the first 256 bytes of an image.

ghost use Rattle.std.specs.Prelude.{◌≡◌, ℕ, ◌-◌, ◌++◌, ◌↔◌, length, take, replicate, true, false};
ghost use Rattle.std.specs.Prelude.{IsOk, IfOk, Err, MatchOption};
ghost use Rattle.geometry_model.specs.Numbers.{Numbers, IsInRange, is_in_range};
ghost use Rattle.image_model.specs.Super.{IsSuper, has_mark, has_numbers, is_version, numbers_in};
ghost use Rattle.image_model.specs.Super.{super_bytes, version_in};

use crate::Geometry;
use crate::places::{clear_from, is_blank_from, put_first, u16_at, u32_at};
use crate::refused::BadSuper;

/// The first 8 bytes of an image.
const MARK: [u8; 8] = *b"EOSBUDDY";

/// The bytes before the zeros.
const HEAD: usize = 24;

/// What a superblock says.
#[derive(Clone, Copy)]
pub struct SuperRead {
    /// The numbers of the store.
    pub geometry: Geometry,
    /// The version of the image, 1 or 2.
    pub version: u32,
    /// The kind of its objects, 0.
    pub kind: u8,
}

/// Reads a superblock. It takes no memory.
pub fn read_super(bytes: &[u8; 256]) -> Result<SuperRead, BadSuper>
    ensures found { IfOk result (λ read. IsSuper bytes.now read.version read.geometry) }
    ensures kind { IfOk result (λ read. read.kind ≡ 0) }
    ensures only { (version : ℕ) (n : Numbers) → IsSuper bytes.now version n → IsOk result
        × IfOk result (λ read. (read.version ≡ version) × (read.geometry ≡ n)) }

    // The refusals, in this order.
    ensures magic { (result ≡ Err BadSuper.Magic) ↔ (has_mark bytes.now ≡ false) }
    ensures version { (result ≡ Err BadSuper.Version)
        ↔ ((has_mark bytes.now ≡ true) × (is_version (version_in bytes.now) ≡ false)) }
    ensures geometry { (result ≡ Err BadSuper.Geometry)
        ↔ ((has_mark bytes.now ≡ true) × (is_version (version_in bytes.now) ≡ true)
        × (has_numbers bytes.now ≡ false)) }
{
    if !has_mark(bytes) {
        return Err(BadSuper::Magic);
    }
    let version = u32_at(bytes, 8);
    if version != 1 && version != 2 {
        return Err(BadSuper::Version);
    }
    let Some(geometry) = geometry_in(bytes) else {
        return Err(BadSuper::Geometry);
    };
    Ok(SuperRead {
        geometry,
        version,
        kind: bytes[17],
    })
}

/// Do the bytes begin with the mark?
fn has_mark(bytes: &[u8; 256]) -> bool
    ensures { result ≡ has_mark bytes.now }
{
    &bytes[..8] == MARK.as_slice()
}

/// The numbers of the store; none where one is out of its range, the kind isn't 0, or a byte from
/// place 24 on isn't zero.
fn geometry_in(bytes: &[u8; 256]) -> Option<Geometry>
    ensures { MatchOption result (has_numbers bytes.now ≡ false)
        (λ g. (has_numbers bytes.now ≡ true) × (g ≡ numbers_in bytes.now)) }
{
    if bytes[17] == 0 && is_blank_from(bytes, HEAD) {
        numbers_at(bytes)
    } else {
        None
    }
}

/// The five numbers; none where one is out of its range.
fn numbers_at(bytes: &[u8; 256]) -> Option<Geometry>
    ensures { MatchOption result (is_in_range (numbers_in bytes.now) ≡ false)
        (λ g. (is_in_range (numbers_in bytes.now) ≡ true) × (g ≡ numbers_in bytes.now)) }
{
    let order = u32::from(bytes[16]);
    let spaces = u32::from(u16_at(bytes, 18));
    let catalog = u32::from(u16_at(bytes, 20));
    let threshold = u32::from(u16_at(bytes, 22));
    let Some(geometry) = Geometry::new(u32_at(bytes, 12), order, spaces, catalog, threshold) else {
        return None;
    };
    // Who asks for the page size learns that all numbers are in range.
    let _page = geometry.page();
    Some(geometry)
}

/// Writes page 0: the superblock of version 2, and zeros to the end. It takes no memory.
pub fn write_super(geometry: &Geometry, kind: u8, page: &mut [u8])
    requires size { length page.old ≡ geometry.now.page }
    requires kind { kind ≡ 0 }
    ensures bytes { page.new ≡ super_bytes 2 geometry.now ++ replicate (geometry.now.page - 256) 0 }
    ensures found { IsSuper page.new 2 geometry.now }
{
    let head = head_of(geometry, kind);
    put_first(page, &head);
    clear_from(page, HEAD);
}

/// The first bytes of the superblock of version 2.
fn head_of(geometry: &Geometry, kind: u8) -> [u8; HEAD]
    requires { kind ≡ 0 }
    ensures bytes { result ≡ take 24 (super_bytes 2 geometry.now) }
    ensures range { IsInRange geometry.now }
{
    let [p0, p1, p2, p3] = geometry.page().to_be_bytes();
    let order = geometry.order() as u8;
    let [s0, s1] = (geometry.spaces() as u16).to_be_bytes();
    let [c0, c1] = (geometry.catalog() as u16).to_be_bytes();
    let [t0, t1] = (geometry.threshold() as u16).to_be_bytes();
    [
        b'E', b'O', b'S', b'B', b'U', b'D', b'D', b'Y', 0, 0, 0, 2, p0, p1, p2, p3, order, kind,
        s0, s1, c0, c1, t0, t1,
    ]
}
