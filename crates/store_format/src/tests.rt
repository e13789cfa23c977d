//! An empty store byte for byte, in memory and in a file, and each call of the device failing in
//! turn.

ghost use Rattle.std.specs.Prelude.{◌≡◌, IsTrue};
ghost use Rattle.page_port.specs.Device.{is_home};

use crate::format;
use file_port::FileBay;
use page_port::{Bay, BayFail, FailAt, Geometry, MemBay};
use std::alloc::{AllocError, Global};
use std::fs;
use std::process::Abort;

/// The superblock of a store of pages of 256 bytes, two spaces of 16 pages, one catalog page and a
/// threshold of 4 pages.
const SUPERBLOCK: [u8; 24] =
    *b"EOSBUDDY\x00\x00\x00\x02\x00\x00\x01\x00\x04\x00\x00\x02\x00\x01\x00\x04";

/// The directories of its two spaces, up to the end of the bitmap.
const FIRST: [u8; 18] = *b"DIR1\x00\x00\x00\x00\x00\x00\x00\x10\x00\x00\x00\x00\xff\xff";

const SECOND: [u8; 18] = *b"DIR1\x00\x00\x00\x01\x00\x00\x00\x10\x00\x00\x00\x00\xff\xff";

/// The numbers of that store: 36 pages, the directories on pages 2 and 19.
fn numbers(rt: &impl Abort) -> Geometry {
    Geometry::new(256, 4, 2, 1, 4).expect(rt, "numbers in their ranges")
}

/// A byte of that store, where it was formatted over bytes that were all `old`.
fn expected(at: usize, old: u8) -> u8 {
    match at {
        0..=23 => SUPERBLOCK[at],
        24..=511 => 0,
        512..=529 => FIRST[at - 512],
        530..=767 => 0,
        4864..=4881 => SECOND[at - 4864],
        4882..=5119 => 0,
        _ => old,
    }
}

#[test]
fn a_file_is_formatted_whatever_was_there(rt: HostRuntime) -> Result<(), AllocError> {
    const PATH: &str = "store_format_empty.img";
    let geometry = numbers(&rt);
    for (had, old) in [(0, 0), (9216, 7), (9300, 9)] {
        let before = vec![in rt.alloc(); old; had]?;
        assert!(rt; fs::write(&rt, PATH, &before).is_ok());
        let mut bay = FileBay::new(rt.clone()?, rt.alloc(), PATH)?;
        assert!(rt; format(rt.alloc(), &mut bay, &geometry).is_ok());
        let Ok(file) = fs::read(&rt, PATH) else {
            return Err(AllocError);
        };
        assert_eq!(rt; file.len(), 9216, "{had} bytes");
        let same = file
            .iter()
            .enumerate()
            .all(|(at, byte)| *byte == expected(at, old));
        assert!(rt; same, "{had} bytes");
    }
    let _ = fs::remove_file(&rt, PATH);
    Ok(())
}

/// Formats a device of 9,216 bytes, all 7, one call of which fails; and its first byte then.
fn format_failing(
    alloc: Global,
    geometry: &Geometry,
    fail: FailAt,
) -> Result<(Result<(), BayFail>, u8), AllocError> {
    let bytes = vec![in alloc; 7u8; 9216]?;
    let mut bay = MemBay::new(alloc, bytes, vec![in alloc; fail]?);
    let result = format(alloc, &mut bay, geometry);
    Ok((result, first_byte(&mut bay)))
}

/// The first byte of a device, 0 where it has fewer than 256.
fn first_byte(bay: &mut MemBay) -> u8
    requires { IsTrue (is_home bay.old.device) }
{
    let mut head = [0; 256];
    let Ok(bytes) = bay.size() else {
        return 0;
    };
    if bytes < 256 {
        return 0;
    }
    match bay.probe(&mut head) {
        Ok(()) => head[0],
        Err(_) => 0,
    }
}

#[test]
fn each_failing_call_ends_it_and_the_superblock_comes_last(
    rt: HostRuntime,
) -> Result<(), AllocError> {
    let fault = Err(BayFail::Fault);
    let cases = [
        (0, false, 1, fault, 7),
        (0, false, 2, fault, 7),
        (0, false, 3, fault, 7),
        (1, true, 1, fault, 7),
        (1, true, 2, fault, 7),
        (1, true, 3, fault, 7),
        (1, true, 4, Ok(()), b'E'),
        (1, false, 1, Ok(()), b'E'),
    ];
    let geometry = numbers(&rt);
    for (port, write, call, want, first) in cases {
        let got = format_failing(rt.alloc(), &geometry, FailAt { port, write, call })?;
        assert_eq!(rt; got, (want, first), "{port} {write} {call}");
    }
    Ok(())
}
