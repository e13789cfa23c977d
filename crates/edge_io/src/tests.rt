//! What no clause says: that the calls succeed with ample memory, over memory and over readers and
//! writers of the standard library, and that a failed call in mid-stream is passed on.
use crate::{
    Fault, MemSink, MemSource, ReadFail, Sink, SinkFail, Source, StdSink, StdSource, read_all,
    write_all,
};
use std::test::Fail;

#[test]
fn reading_all_ends_at_the_end_the_limit_or_a_fault(rt: HostRuntime) -> Result<(), Fail> {
    // The bytes of `abcdef` a call, the call that fails, the limit, and the outcome: the number of
    // bytes read, or 100 for a fault and 101 for too long.
    let cases = [
        (1, 0, 6, 6),
        (4, 0, 9, 6),
        (9, 0, 6, 6),
        (2, 0, 5, 101),
        (2, 3, 9, 100),
        (9, 0, 0, 101),
    ];
    for (piece, failing, limit, want) in cases {
        let text = Vec::from_slice(rt.alloc(), b"abcdef")?;
        let mut source = MemSource::new(text, piece, vec![in rt.alloc(); failing]?);
        let got = match read_all(rt.alloc(), &mut source, limit) {
            Ok(bytes) => {
                assert_eq!(rt; bytes.as_slice(), b"abcdef".as_slice());
                bytes.len()
            }
            Err(ReadFail::Fault) => 100,
            Err(ReadFail::TooLong) => 101,
            Err(ReadFail::Memory) => 102,
        };
        assert_eq!(rt;
            got,
            want,
            "{piece} a call, call {failing} fails, limit {limit}"
        );
    }
    let mut reader = StdSource::new(b"abc".as_slice());
    assert_eq!(rt;
        read_all(rt.alloc(), &mut reader, 3)
            .map_err(|_| "read")?
            .as_slice(),
        b"abc".as_slice()
    );
    Ok(())
}

#[test]
fn writing_all_stops_at_a_failed_call(rt: HostRuntime) -> Result<(), Fail> {
    let mut sink = MemSink::new(rt.alloc(), vec![in rt.alloc(); 2]?);
    assert!(rt; write_all(&mut sink, b"").is_ok());
    assert!(rt; write_all(&mut sink, b"abc").is_ok());
    assert!(rt; matches!(write_all(&mut sink, b"def"), Err(SinkFail::Fault)));
    assert!(rt; write_all(&mut sink, b"ghi").is_ok());
    assert_eq!(rt; sink.written(), b"abcghi".as_slice());
    let mut writer = StdSink::new(Vec::new(rt.alloc()));
    assert!(rt; write_all(&mut writer, b"abc").is_ok());
    Ok(())
}
