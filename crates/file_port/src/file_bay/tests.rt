//! Real files: what the pages hold, and the calls that fail.

ghost use Rattle.std.specs.Prelude.{◌≡◌, ◌≤◌};

use super::FileBay;
use crate::{FilePort, FileSpan};
use page_port::{Bay, Port};
use std::alloc::AllocError;
use std::fs;

/// Writes pages 1 and 2, of 256 bytes each, in one call, and reads each in a call of its own
/// through another port, the second page first.
fn moved_pages(
    writer: &mut FilePort,
    reader: &mut FilePort,
    span: &mut FileSpan,
    bytes: &[u8; 512],
) -> [u8; 512]
    requires writer { writer.old.page ≡ 256 }
    requires reader { reader.old.page ≡ 256 }
    requires pages { 4 ≤ span.old.count }
{
    let mut found = [0; 512];
    if writer.write(span, 1, bytes).is_err() {
        return found;
    }
    let (first, second) = found.split_at_mut(256);
    if reader.read(span, 2, second).is_err() || reader.read(span, 1, first).is_err() {
        return [0; 512];
    }
    found
}

/// Whether a read of page 1, of 256 bytes, fails and is counted.
fn read_fails(port: &mut FilePort, span: &FileSpan) -> bool
    requires port { port.old.page ≡ 256 }
    requires pages { 2 ≤ span.now.count }
{
    let before = port.faults();
    port.read(span, 1, &mut [0; 256]).is_err() && port.faults() == before.saturating_add(1)
}

#[test]
fn pages_stand_in_the_file_where_their_numbers_say(rt: HostRuntime) -> Result<(), AllocError> {
    const PATH: &str = "file_port_pages.img";
    let mut bay = FileBay::new(rt.clone()?, rt.alloc(), PATH)?;
    assert!(rt; bay.prepare(1024).is_ok());
    assert!(rt; bay.size() == Ok(1024));
    let Ok(mut span) = bay.mount(256, 4) else {
        return Err(AllocError);
    };
    let Ok(mut writer) = bay.port() else {
        return Err(AllocError);
    };
    let Ok(mut reader) = bay.port() else {
        return Err(AllocError);
    };
    let mut bytes = [7; 512];
    bytes[0] = 1;
    bytes[256..].fill(9);
    assert!(rt; moved_pages(&mut writer, &mut reader, &mut span, &bytes) == bytes);

    let Ok(file) = fs::read(&rt, PATH) else {
        return Err(AllocError);
    };
    let mut whole = [0; 1024];
    whole[256..768].copy_from_slice(&bytes);
    assert!(rt; file[..] == whole[..]);
    assert!(rt; bay.mount(256, 5).is_err());
    assert_eq!(rt; bay.faults, 1);
    let _ = fs::remove_file(&rt, PATH);
    Ok(())
}

#[test]
fn the_first_bytes_are_those_of_the_file(rt: HostRuntime) -> Result<(), AllocError> {
    const PATH: &str = "file_port_first.img";
    let mut bytes = [3; 300];
    bytes[0] = 1;
    bytes[255] = 2;
    assert!(rt; fs::write(&rt, PATH, &bytes).is_ok());
    let mut bay = FileBay::new(rt.clone()?, rt.alloc(), PATH)?;
    let mut first = [0; 256];
    assert!(rt; bay.probe(&mut first).is_ok());
    assert!(rt; first[..] == bytes[..256]);
    assert!(rt; bay.size() == Ok(300));
    let _ = fs::remove_file(&rt, PATH);
    Ok(())
}

#[test]
fn a_missing_file_fails_each_call_but_the_one_that_makes_it(
    rt: HostRuntime,
) -> Result<(), AllocError> {
    const PATH: &str = "file_port_missing.img";
    let mut bay = FileBay::new(rt.clone()?, rt.alloc(), PATH)?;
    assert!(rt; bay.size().is_err());
    assert!(rt; bay.probe(&mut [0; 256]).is_err());
    assert!(rt; bay.mount(256, 1).is_err());
    assert_eq!(rt; bay.faults, 3);
    assert!(rt; fs::read(&rt, PATH).is_err());
    assert!(rt; bay.prepare(256).is_ok());
    assert!(rt; bay.size() == Ok(256));
    assert_eq!(rt; bay.faults, 3);
    let _ = fs::remove_file(&rt, PATH);
    Ok(())
}

#[test]
fn a_file_that_is_too_short_fails_what_reads_past_its_end(
    rt: HostRuntime,
) -> Result<(), AllocError> {
    const PATH: &str = "file_port_short.img";
    let mut bay = FileBay::new(rt.clone()?, rt.alloc(), PATH)?;
    assert!(rt; bay.prepare(512).is_ok());
    let Ok(span) = bay.mount(256, 2) else {
        return Err(AllocError);
    };
    let Ok(mut port) = bay.port() else {
        return Err(AllocError);
    };
    assert!(rt; bay.prepare(255).is_ok());
    assert!(rt; read_fails(&mut port, &span));
    assert!(rt; bay.probe(&mut [0; 256]).is_err());
    assert!(rt; bay.mount(256, 1).is_err());
    assert_eq!(rt; bay.faults, 2);
    bay.absorb(port);
    assert_eq!(rt; bay.faults, 3);
    let _ = fs::remove_file(&rt, PATH);
    Ok(())
}
