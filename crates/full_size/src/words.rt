//! Scripts, lines and payloads of the largest sizes, and a world of all its objects.

use edge_io::{MemSource, read_all};
use eos_ops::{Bytes, MAX_TRANSFER, Payload};
use script_text::read_line;
use std::alloc::{AllocError, Global};
use world::PlainWorld;

/// The bytes of the longest script.
const SCRIPT: usize = 16_777_216;

/// The bytes of the longest line, without its end.
const LINE: usize = 65_536;

/// The objects of a store with sixteen catalog pages of 4,096 bytes.
const OBJECTS: u32 = 4096;

#[test]
fn the_longest_script_is_read(rt: HostRuntime) -> Result<(), AllocError> {
    let script = vec![in rt.alloc(); b'a'; SCRIPT]?;
    let mut source = MemSource::new(script, LINE, Vec::new(rt.alloc()));
    let Ok(read) = read_all(rt.alloc(), &mut source, SCRIPT) else {
        return Err(AllocError);
    };
    assert_eq!(rt; read.len(), SCRIPT);
    Ok(())
}

#[test]
fn the_longest_line_is_read(rt: HostRuntime) -> Result<(), AllocError> {
    let mut line = Vec::from_slice(rt.alloc(), b"1 append 0 x")?;
    for _digit in 12..LINE {
        line.push(b'7')?;
    }
    assert!(rt; read_line(rt.alloc(), line.as_slice()).is_ok());
    Ok(())
}

/// Keeps these bytes twice, and copies them.
fn kept(alloc: Global, made: &Bytes) -> Result<Bytes, AllocError> {
    let mut object = Bytes::new(alloc);
    object.append(made.as_slice())?;
    let end = object.as_slice().len() as u64;
    let copy = object.read(alloc, 0, end)?;
    object.insert(end, made.as_slice())?;
    Ok(copy)
}

#[test]
fn a_payload_of_the_largest_size_is_made_and_kept(rt: HostRuntime) -> Result<(), AllocError> {
    let payload = Payload::Made {
        len: MAX_TRANSFER,
        start: 1,
    };
    let made = payload.into_bytes(rt.alloc())?;
    let copy = kept(rt.alloc(), &made)?;
    assert!(rt; copy.as_slice() == made.as_slice());
    Ok(())
}

#[test]
fn a_world_has_all_objects(rt: HostRuntime) {
    assert!(rt; PlainWorld::new(rt.alloc(), OBJECTS).is_ok());
}
