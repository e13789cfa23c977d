//! Parts written over a device in memory, and what its pages hold then.

ghost use Rattle.std.specs.Prelude.{◌≡◌, ◌<◌, ◌≤◌, IfOk, true, length};
ghost use Rattle.std.specs.List.{AllByRecursion};
ghost use Rattle.edit_parts.specs.Pieces.{pieces_bytes};
ghost use Rattle.span_store.specs.Held.{AllSized, HoldsRun};
ghost use Rattle.part_bytes.specs.Gathering.{CanGather};

use crate::{WriteFail, write_part, write_parts};
use edit_parts::{Part, Piece, Pieces};
use layout_model::Extent;
use page_port::{Bay, FailAt, MemBay, MemPort, MemSpan};
use span_store::Holdings;
use std::alloc::{AllocError, Global};
use std::process::Abort;
use tree_model::Pair;

/// Byte `i` of the device.
fn byte(i: usize) -> u8 {
    (i % 251) as u8
}

/// A device of eight pages of 256 bytes, all of them held, and a port whose read or write of this
/// number fails.
fn device(
    rt: &impl Abort,
    alloc: Global,
    write: bool,
    call: u64,
) -> Result<(MemPort, Holdings<MemSpan>), AllocError>
    ensures page { IfOk result (λ d. d.0.meter.page ≡ 256) }
    ensures sized { IfOk result (λ d. AllSized true 256 d.1) }
{
    let mut bytes = vec![in alloc; 0; 2048]?;
    for (i, each) in bytes.iter_mut().enumerate() {
        *each = byte(i);
    }
    let fail = vec![in alloc;
        FailAt {
            port: 1,
            write,
            call
        },
    ]?;
    let mut bay = MemBay::new(alloc, bytes, fail);
    let span = bay.mount(256, 8).expect(rt, "eight pages");
    let port = bay.port().expect(rt, "a port");
    let mut held = Holdings::new(alloc);
    held.reserve(1)?;
    held.add(span);
    Ok((port, held))
}

/// Byte `i` of the payload.
fn given(i: usize) -> u8 {
    (i % 241) as u8
}

/// Writes a part on the pages 1 and 2 and then on page 4. It has 300 bytes from byte 10 of page 5
/// on and then 250 of the payload from byte 2 on; or 600 of these alone.
fn write(
    rt: &impl Abort,
    alloc: Global,
    held: &mut Holdings<MemSpan>,
    port: &mut MemPort,
    old: bool,
) -> Result<Result<(), WriteFail>, AllocError>
    requires page { port.old.meter.page ≡ 256 }
    requires sized { AllSized true 256 held.old }
    ensures page { IfOk result (λ r. port.new.meter.page ≡ 256) }
    ensures sized { IfOk result (λ r. AllSized true 256 held.new) }
{
    let mut payload = [0; 602];
    for (i, each) in payload.iter_mut().enumerate() {
        *each = given(i);
    }
    let mut pieces = Pieces::with_room(alloc, 2)?;
    if old {
        let (page, skip) = (5, 10);
        pieces.push(Piece::Old {
            page,
            skip,
            bytes: 300,
        })?;
        pieces.push(Piece::Given {
            from: 2,
            bytes: 250,
        })?;
        return Ok(put(rt, alloc, held, port, &pieces, &payload));
    }
    pieces.push(Piece::Given {
        from: 2,
        bytes: 600,
    })?;
    Ok(put(rt, alloc, held, port, &pieces, &payload))
}

/// Writes pieces on the pages 1 and 2 and then on page 4.
fn put(
    rt: &impl Abort,
    alloc: Global,
    held: &mut Holdings<MemSpan>,
    port: &mut MemPort,
    pieces: &Pieces,
    payload: &[u8],
) -> Result<(), WriteFail>
    requires page { port.old.meter.page ≡ 256 }
    requires sized { AllSized true 256 held.old }
    requires fits { pieces_bytes pieces.now ≤ 768 }
    requires each { HoldsRun held.old 5 2
        → AllByRecursion (CanGather held.old 256 (length payload.now)) pieces.now }
    ensures page { port.new.meter.page ≡ 256 }
    ensures sized { AllSized true 256 held.new }
{
    assert!(rt; held.holds(5, 2));
    assert!(rt; held.holds(1, 2));
    assert!(rt; held.holds(4, 1));
    let runs = [Extent { page: 1, pages: 2 }, Extent { page: 4, pages: 1 }];
    let mut scratch = [9; 256];
    write_part(alloc, held, port, pieces, payload, &runs, &mut scratch)
}

/// Writes a part behind one that stays: 600 bytes of the payload from byte 2 on, put on the pages 1
/// and 2 and then on page 4.
fn put_behind(
    rt: &impl Abort,
    alloc: Global,
    held: &mut Holdings<MemSpan>,
    port: &mut MemPort,
) -> Result<Result<(), WriteFail>, AllocError>
    requires page { port.old.meter.page ≡ 256 }
    requires sized { AllSized true 256 held.old }
    ensures page { IfOk result (λ r. port.new.meter.page ≡ 256) }
    ensures sized { IfOk result (λ r. AllSized true 256 held.new) }
{
    let mut payload = [0; 602];
    for (i, each) in payload.iter_mut().enumerate() {
        *each = given(i);
    }
    let mut pieces = Pieces::with_room(alloc, 1)?;
    pieces.push(Piece::Given {
        from: 2,
        bytes: 600,
    })?;
    let kept = Pair {
        bytes: 300,
        page: 6,
    };
    let parts = [Part::Keep(kept), Part::Make(pieces)];
    assert!(rt; held.holds(1, 2));
    assert!(rt; held.holds(4, 1));
    let runs = [Extent { page: 1, pages: 2 }, Extent { page: 4, pages: 1 }];
    let mut scratch = [9; 256];
    Ok(write_parts(
        alloc,
        held,
        port,
        &parts,
        &payload,
        &[2],
        &runs,
        &mut scratch,
    ))
}

/// All pages.
fn pages(rt: &impl Abort, held: &Holdings<MemSpan>, port: &mut MemPort) -> [u8; 2048]
    requires page { port.old.meter.page ≡ 256 }
    requires sized { AllSized true 256 held.now }
{
    let mut out = [0; 2048];
    assert!(rt; held.holds(0, 8));
    assert!(rt; held.read_run(port, 0, &mut out).is_ok());
    out
}

/// Byte `i` of the device once the part is written; it has `bytes` bytes, `old` of them old.
fn want(i: usize, old: usize, bytes: usize) -> u8
    requires within { i < 2048 }
    requires part { old ≤ bytes }
{
    let at = if i < 256 {
        return byte(i);
    } else if i < 768 {
        i - 256
    } else if i < 1024 || i >= 1280 {
        return byte(i);
    } else {
        i - 512
    };
    if at < old {
        byte(1290 + at)
    } else if at < bytes {
        given(2 + (at - old))
    } else {
        0
    }
}

#[test]
fn a_part_is_written_on_its_runs(rt: HostRuntime) -> Result<(), AllocError> {
    let alloc = rt.alloc();
    for (old, bytes) in [(300, 550), (0, 600)] {
        let (mut port, mut held) = device(&rt, alloc, true, 3)?;
        assert!(rt; write(&rt, alloc, &mut held, &mut port, old > 0)?.is_ok());
        let out = pages(&rt, &held, &mut port);
        for i in 0..2048 {
            assert!(rt; old <= bytes);
            assert_eq!(rt; out[i], want(i, old, bytes), "byte {i}, {old} old");
        }
    }
    Ok(())
}

#[test]
fn a_part_that_stays_is_passed_over(rt: HostRuntime) -> Result<(), AllocError> {
    let alloc = rt.alloc();
    let (mut port, mut held) = device(&rt, alloc, true, 3)?;
    assert!(rt; put_behind(&rt, alloc, &mut held, &mut port)?.is_ok());
    let out = pages(&rt, &held, &mut port);
    for i in 0..2048 {
        assert_eq!(rt; out[i], want(i, 0, 600), "byte {i}");
    }
    Ok(())
}

#[test]
fn a_call_of_the_device_that_fails_is_a_fault(rt: HostRuntime) -> Result<(), AllocError> {
    let alloc = rt.alloc();
    let cases = [
        (true, 1, true),
        (true, 2, true),
        (false, 1, true),
        (true, 2, false),
    ];
    for (write_fails, call, old) in cases {
        let (mut port, mut held) = device(&rt, alloc, write_fails, call)?;
        let answer = write(&rt, alloc, &mut held, &mut port, old)?;
        assert!(rt; answer == Err(WriteFail::Fault), "call {call}");
    }
    Ok(())
}
