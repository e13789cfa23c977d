//! Worked bytes of a superblock and of entries, and each place that makes them refused.

ghost use Rattle.std.specs.Prelude.{◌≡◌};

use crate::{BadSuper, CatalogEntry, Geometry, read_entry, read_super, write_entry, write_super};
use std::process::Abort;

/// The superblock of a store of pages of 256 bytes, spaces of 16 pages, two spaces, one catalog
/// page and a threshold of 4 pages, in version 2.
fn worked() -> [u8; 256] {
    let mut bytes = [0; 256];
    bytes[..24].copy_from_slice(
        b"EOSBUDDY\x00\x00\x00\x02\x00\x00\x01\x00\x04\x00\x00\x02\x00\x01\x00\x04",
    );
    bytes
}

/// The numbers of that store.
fn numbers(rt: &impl Abort) -> Geometry
    ensures { result.page ≡ 256 }
{
    Geometry::new(256, 4, 2, 1, 4).expect(rt, "numbers in their ranges")
}

#[test]
fn a_superblock_is_read_and_written(rt: HostRuntime) {
    let geometry = numbers(&rt);
    let mut page = [0xff; 256];
    write_super(&geometry, 0, &mut page);
    assert_eq!(rt; page, worked());
    for version in [1, 2] {
        let mut bytes = worked();
        bytes[11] = version;
        let Ok(read) = read_super(&bytes) else {
            panic!(rt; "version {version} is refused");
        };
        assert_eq!(rt; read.version, u32::from(version));
        assert_eq!(rt; read.kind, 0);
        assert_eq!(rt; read.geometry.page(), 256);
        assert_eq!(rt; read.geometry.order(), 4);
        assert_eq!(rt; read.geometry.spaces(), 2);
        assert_eq!(rt; read.geometry.catalog(), 1);
        assert_eq!(rt; read.geometry.threshold(), 4);
    }
}

#[test]
fn the_first_wrong_place_names_the_refusal(rt: HostRuntime) {
    // The mark; the version; page size, order, kind, spaces, catalog, threshold; and the zeros.
    let cases = [
        (0, 0x65, BadSuper::Magic),
        (7, 0, BadSuper::Magic),
        (8, 1, BadSuper::Version),
        (11, 0, BadSuper::Version),
        (11, 3, BadSuper::Version),
        (14, 3, BadSuper::Geometry),
        (16, 3, BadSuper::Geometry),
        (17, 1, BadSuper::Geometry),
        (19, 0, BadSuper::Geometry),
        (21, 0, BadSuper::Geometry),
        (23, 0, BadSuper::Geometry),
        (23, 9, BadSuper::Geometry),
        (24, 1, BadSuper::Geometry),
        (255, 1, BadSuper::Geometry),
    ];
    for (place, byte, want) in cases {
        let mut bytes = worked();
        if place < bytes.len() {
            bytes[place] = byte;
        }
        let found = read_super(&bytes);
        assert!(rt; found.is_err(), "place {place}");
        if let Err(refused) = found {
            assert_eq!(rt; refused, want, "place {place}");
        }
    }
}

/// An object of 1,000 bytes under a root of height 1 on page 7, with a threshold of 3 pages.
const PRESENT: CatalogEntry = CatalogEntry::Present {
    height: 1,
    root: 7,
    length: 1000,
    threshold: 3,
};

#[test]
fn an_entry_is_read_and_written(rt: HostRuntime) {
    let geometry = numbers(&rt);
    let present = [1, 1, 0, 3, 0, 0, 0, 7, 0, 0, 0, 0, 0, 0, 3, 232];
    let mut bytes = [0xff; 16];
    write_entry(&PRESENT, &mut bytes);
    assert_eq!(rt; bytes, present);
    assert_eq!(rt; read_entry(&present, 2, &geometry), Ok(PRESENT));
    write_entry(&CatalogEntry::Absent, &mut bytes);
    assert_eq!(rt; bytes, [0; 16]);
    for version in [1, 2] {
        assert_eq!(rt;
            read_entry(&[0; 16], version, &geometry),
            Ok(CatalogEntry::Absent)
        );
    }
    // Version 1 keeps no threshold: the store's is meant.
    let mut older = present;
    older[3] = 0;
    let want = CatalogEntry::Present {
        height: 1,
        root: 7,
        length: 1000,
        threshold: 4,
    };
    assert_eq!(rt; read_entry(&older, 1, &geometry), Ok(want));
}

#[test]
fn an_entry_that_no_object_has_is_refused(rt: HostRuntime) {
    let geometry = numbers(&rt);
    // (version, the sixteen bytes)
    let cases = [
        // neither absent nor present; an absent one with a byte of its own
        (2, [2, 1, 0, 3, 0, 0, 0, 7, 0, 0, 0, 0, 0, 0, 3, 232]),
        (2, [0, 0, 0, 0, 0, 0, 0, 0, 0, 0, 0, 0, 0, 0, 0, 1]),
        // no level, and yet a root or a length; a level, and no byte
        (2, [1, 0, 0, 3, 0, 0, 0, 7, 0, 0, 0, 0, 0, 0, 0, 0]),
        (2, [1, 0, 0, 3, 0, 0, 0, 0, 0, 0, 0, 0, 0, 0, 0, 5]),
        (2, [1, 1, 0, 3, 0, 0, 0, 7, 0, 0, 0, 0, 0, 0, 0, 0]),
        // thresholds of no page, and of more than half of a space
        (2, [1, 1, 0, 0, 0, 0, 0, 7, 0, 0, 0, 0, 0, 0, 3, 232]),
        (2, [1, 1, 0, 9, 0, 0, 0, 7, 0, 0, 0, 0, 0, 0, 3, 232]),
        // a threshold in version 1
        (1, [1, 1, 0, 3, 0, 0, 0, 7, 0, 0, 0, 0, 0, 0, 3, 232]),
    ];
    for (version, bytes) in cases {
        assert!(rt;
            read_entry(&bytes, version, &geometry).is_err(),
            "{bytes:?}"
        );
    }
}
