//! The geometry's limits, a page's way through a device in memory, and each of its calls failing in
//! turn.
ghost use Rattle.std.specs.Prelude.{◌≡◌, ◌≤◌, length};
ghost use Rattle.page_port.specs.Pages.{AreOf};

use crate::{Bay, FailAt, Geometry, MemBay, MemPort, MemSpan, Port};
use std::alloc::{AllocError, Global};

#[test]
fn a_geometry_has_each_number_in_its_range(rt: HostRuntime) {
    let cases = [
        (256, 4, 1, 1, 2, true),
        (4096, 14, 256, 16, 8192, true),
        (300, 4, 1, 1, 2, false),
        (256, 3, 1, 1, 2, false),
        (256, 11, 1, 1, 2, false),
        (256, 10, 0, 1, 2, false),
        (256, 10, 257, 1, 2, false),
        (256, 10, 1, 0, 2, false),
        (256, 10, 1, 17, 2, false),
        (256, 4, 1, 1, 0, false),
        (256, 4, 1, 1, 9, false),
        (256, 4, 1, 1, 8, true),
    ];
    for (page, order, spaces, catalog, threshold, want) in cases {
        let got = Geometry::new(page, order, spaces, catalog, threshold).is_some();
        assert_eq!(rt; got, want, "{page} {order} {spaces} {catalog} {threshold}");
    }
}

#[test]
fn pages_of_a_store_are_counted_and_placed(rt: HostRuntime) {
    let Some(g) = Geometry::new(256, 4, 2, 1, 2) else {
        return assert!(rt; false);
    };
    assert_eq!(rt;
        (g.pages(), g.objects(), g.fan_out(), g.space_pages()),
        (36, 16, 20, 16)
    );
    assert_eq!(rt; (g.directory_page(0), g.directory_page(1)), (2, 19));
    let cases = [
        (0, None),
        (1, None),
        (2, None),
        (3, Some((0, 0))),
        (18, Some((0, 15))),
        (19, None),
        (20, Some((1, 0))),
        (35, Some((1, 15))),
        (36, None),
    ];
    for (page, want) in cases {
        assert_eq!(rt; g.place(page), want, "page {page}");
    }
}

/// The number of the first call that fails: of the bay's five, then of a port's reads and writes.
fn first_failure(alloc: Global, fail: Vec<FailAt>) -> u32 {
    let mut bay = MemBay::new(alloc, Vec::new(alloc), fail);
    let Ok(()) = bay.prepare(1024) else {
        return 1;
    };
    let Ok(1024) = bay.size() else {
        return 2;
    };
    let mut head = [0; 256];
    let Ok(()) = bay.probe(&mut head) else {
        return 3;
    };
    let Ok(mut span) = bay.mount(256, 4) else {
        return 4;
    };
    let Ok(mut port) = bay.port() else {
        return 5;
    };
    first_port_failure(&mut port, &mut span)
}

/// Two reads, two writes, and a read of what was written: 11, 12, 21, 22 or 13, or 0 where none
/// fails.
fn first_port_failure(port: &mut MemPort, span: &mut MemSpan) -> u32
    requires page { port.old.meter.page ≡ 256 }
    requires count { 4 ≤ length span.old.pages }
    requires sized { AreOf 256 span.old.pages }
{
    let mut page = [0; 256];
    let Ok(()) = port.read(span, 0, &mut page) else {
        return 11;
    };
    let Ok(()) = port.read(span, 3, &mut page) else {
        return 12;
    };
    let Ok(()) = port.write(span, 0, &page) else {
        return 21;
    };
    let Ok(()) = port.write(span, 2, &[7; 512]) else {
        return 22;
    };
    let Ok(()) = port.read(span, 3, &mut page) else {
        return 13;
    };
    if page == [7; 256] { 0 } else { 99 }
}

#[test]
fn each_call_fails_by_its_number(rt: HostRuntime) -> Result<(), AllocError> {
    let alloc = rt.alloc();
    let cases = [
        (0, false, 1, 1),
        (0, false, 2, 2),
        (0, false, 3, 3),
        (0, false, 4, 4),
        (0, false, 5, 5),
        (0, false, 6, 0),
        (0, true, 1, 0),
        (1, false, 1, 11),
        (1, false, 2, 12),
        (1, false, 3, 13),
        (1, true, 1, 21),
        (1, true, 2, 22),
        (1, true, 3, 0),
        (2, false, 1, 0),
    ];
    for (port, write, call, want) in cases {
        let fail = vec![in alloc; FailAt { port, write, call }]?;
        assert_eq!(rt; first_failure(alloc, fail), want, "{port} {write} {call}");
    }
    Ok(())
}
