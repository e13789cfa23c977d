//! Segments over a device in memory: what is read and written, compared with plain bytes, and by
//! how many calls of the device.

ghost use Rattle.std.specs.Prelude.{◌≡◌, ◌+◌, ◌<◌, ◌≤◌, IfOk, true, length};
ghost use Rattle.span_store.specs.Held.{AllSized};

use crate::{read_bytes, write_bytes};
use page_port::{Bay, DeviceFault, FailAt, MemBay, MemPort, MemSpan};
use span_store::Holdings;
use std::alloc::{AllocError, Global};
use std::process::Abort;
use tree_model::{Pair, Placed};

/// Byte `i` of the device.
fn byte(i: usize) -> u8 {
    (i % 251) as u8
}

/// A device of eight pages of 256 bytes, all of them held, and a port whose call of this number
/// fails.
fn device(
    rt: &impl Abort,
    alloc: Global,
    write: bool,
    call: u64,
) -> Result<(MemPort, Holdings<MemSpan>), AllocError>
    ensures page { IfOk result (λ d. d.0.meter.page ≡ 256) }
    ensures sized { IfOk result (λ d. AllSized true 256 d.1) }
{
    let mut bytes = vec![in alloc; 0; 2048]?;
    for (i, each) in bytes.iter_mut().enumerate() {
        *each = byte(i);
    }
    let fail = vec![in alloc;
        FailAt {
            port: 1,
            write,
            call
        },
    ]?;
    let mut bay = MemBay::new(alloc, bytes, fail);
    let span = bay.mount(256, 8).expect(rt, "eight pages");
    let port = bay.port().expect(rt, "a port");
    let mut held = Holdings::new(alloc);
    held.reserve(1)?;
    held.add(span);
    Ok((port, held))
}

/// Reads from an object of three segments: 300 bytes from page 5 on, 512 from page 1 on, and 100 on
/// page 7.
fn read(
    rt: &impl Abort,
    held: &Holdings<MemSpan>,
    port: &mut MemPort,
    at: usize,
    out: &mut [u8],
) -> Result<(), DeviceFault>
    requires page { port.old.meter.page ≡ 256 }
    requires sized { AllSized true 256 held.now }
{
    assert!(rt; at <= 912 && out.len() <= 912 - at);
    assert!(rt; held.holds(5, 2));
    assert!(rt; held.holds(1, 2));
    assert!(rt; held.holds(7, 1));
    let placed = [
        Placed {
            start: 0,
            pair: Pair {
                bytes: 300,
                page: 5,
            },
        },
        Placed {
            start: 300,
            pair: Pair {
                bytes: 512,
                page: 1,
            },
        },
        Placed {
            start: 812,
            pair: Pair {
                bytes: 100,
                page: 7,
            },
        },
    ];
    let mut scratch = [0; 256];
    read_bytes(held, port, &placed, at as u64, out, &mut scratch)
}

/// The byte of the device that is byte `i` of that object.
fn place(i: usize) -> usize
    requires { i < 912 }
{
    if i < 300 {
        1280 + i
    } else if i < 812 {
        256 + (i - 300)
    } else {
        1792 + (i - 812)
    }
}

/// How many calls of the device a read makes: before the first one that is made to fail and isn't
/// made.
fn reads_of(rt: &impl Abort, alloc: Global, at: usize, count: usize) -> Result<u64, AllocError> {
    assert!(rt; count <= 912);
    for call in 1..10 {
        let (mut port, held) = device(rt, alloc, false, call)?;
        let mut out = [0; 912];
        if read(rt, &held, &mut port, at, &mut out[..count]).is_ok() {
            return Ok(call - 1);
        }
    }
    Ok(9)
}

#[test]
fn any_bytes_of_an_object_are_read(rt: HostRuntime) -> Result<(), AllocError> {
    let cases = [
        (0, 0, 0),
        (912, 0, 0),
        (0, 912, 3),
        (10, 20, 1),
        (250, 10, 2),
        (256, 44, 1),
        (299, 2, 2),
        (0, 511, 3),
        (0, 512, 2),
        (250, 306, 3),
        (256, 556, 2),
        (300, 512, 1),
        (310, 502, 2),
        (310, 602, 3),
        (811, 101, 2),
        (911, 1, 1),
    ];
    for (at, count, calls) in cases {
        let (mut port, held) = device(&rt, rt.alloc(), false, 99)?;
        let mut out = [0; 912];
        assert!(rt; count <= 912 && at <= 912 - count);
        assert!(rt; read(&rt, &held, &mut port, at, &mut out[..count]).is_ok());
        for i in 0..count {
            assert_eq!(rt; out[i], byte(place(at + i)), "byte {i} from {at}");
        }
        assert_eq!(rt;
            reads_of(&rt, rt.alloc(), at, count)?,
            calls,
            "{count} from {at}"
        );
    }
    Ok(())
}

/// Writes bytes from page 3 on.
fn write(
    rt: &impl Abort,
    held: &mut Holdings<MemSpan>,
    port: &mut MemPort,
    bytes: &[u8],
) -> Result<(), DeviceFault>
    requires page { port.old.meter.page ≡ 256 }
    requires sized { AllSized true 256 held.old }
    ensures page { port.new.meter.page ≡ 256 }
    ensures sized { AllSized true 256 held.new }
{
    assert!(rt; bytes.len() <= 600);
    let pages = (bytes.len() + 255) / 256;
    assert!(rt; held.holds(3, pages as u32));
    let mut scratch = [9; 256];
    write_bytes(held, port, 3, bytes, &mut scratch)
}

/// The pages 2 to 6.
fn pages(rt: &impl Abort, held: &Holdings<MemSpan>, port: &mut MemPort) -> [u8; 1280]
    requires page { port.old.meter.page ≡ 256 }
    requires sized { AllSized true 256 held.now }
{
    let mut out = [0; 1280];
    assert!(rt; held.holds(2, 5));
    assert!(rt; held.read_run(port, 2, &mut out).is_ok());
    out
}

/// How many calls of the device a write makes.
fn writes_of(rt: &impl Abort, alloc: Global, bytes: &[u8]) -> Result<u64, AllocError> {
    for call in 1..10 {
        let (mut port, mut held) = device(rt, alloc, true, call)?;
        if write(rt, &mut held, &mut port, bytes).is_ok() {
            return Ok(call - 1);
        }
    }
    Ok(9)
}

#[test]
fn bytes_are_written_with_zeros_to_the_end_of_a_page(rt: HostRuntime) -> Result<(), AllocError> {
    let cases = [
        (0, 0),
        (1, 1),
        (255, 1),
        (256, 1),
        (257, 2),
        (512, 1),
        (600, 2),
    ];
    for (count, calls) in cases {
        let (mut port, mut held) = device(&rt, rt.alloc(), true, 99)?;
        assert!(rt; count <= 600);
        let bytes = &[0xee; 600][..count];
        assert!(rt; write(&rt, &mut held, &mut port, bytes).is_ok());
        let out = pages(&rt, &held, &mut port);
        let end = 256 + (count + 255) / 256 * 256;
        for i in 0..1280 {
            let want = if i < 256 || i >= end {
                byte(512 + i)
            } else if i < 256 + count {
                0xee
            } else {
                0
            };
            assert_eq!(rt; out[i], want, "byte {i} after {count}");
        }
        assert_eq!(rt; writes_of(&rt, rt.alloc(), bytes)?, calls, "{count}");
    }
    Ok(())
}
