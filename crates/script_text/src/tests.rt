//! What no clause says: that the calls succeed with ample memory, the worked texts, and that a
//! short reply is one call of the sink.
use crate::{Draft, LineFail, payload, read_line, write_no_line, write_reply, write_reply_with};
use edge_io::{MemSink, SinkFail};
use eos_ops::{Bytes, Payload, Reply};
use std::test::Fail;

#[test]
fn a_line_is_read_just_where_it_is_in_a_form(rt: HostRuntime) -> Result<(), Fail> {
    let forms = [
        b"64 begin".as_slice(),
        b"1 create 18446744073709551615",
        b"1 create 0 8192",
        b"1 destroy 0",
        b"1 length 7",
        b"1 read 0 1 1048577",
        b"1 append 0 x",
        b"1 append 0 x00ff9a",
        b"1 insert 0 5 r0.4294967295",
        b"1 delete 10 20 30",
        b"1 replace 0 5 r1048577.0",
        b"1 commit",
        b"1 abort",
        b"1 status",
    ];
    for line in forms {
        assert!(rt; read_line(rt.alloc(), line).is_ok(), "{line:?}");
    }
    let others = [
        b"".as_slice(),
        b"begin",
        b"1",
        b"0 begin",
        b"65 begin",
        b"01 begin",
        b" 1 begin",
        b"1  begin",
        b"1 begin ",
        b"1 begin\r",
        b"1 begin 0",
        b"1 frob",
        b"1 status 0",
        b"1 create",
        b"1 create 00",
        b"1 create 18446744073709551616",
        b"1 create 0 0",
        b"1 create 0 8193",
        b"1 create +1",
        b"1 read 0 1",
        b"1 append 0",
        b"1 append 0 x4",
        b"1 append 0 x4A",
        b"1 append 0 r5",
        b"1 append 0 r5.4294967296",
        b"1 append 0 r5.1.2",
        b"1 append 0 y00",
        b"1 append 0 x00\x00\xff",
    ];
    for line in others {
        assert!(rt;
            matches!(read_line(rt.alloc(), line), Err(LineFail::Bad)),
            "{line:?}"
        );
    }
    Ok(())
}

#[test]
fn made_bytes_count_up_by_seven(rt: HostRuntime) -> Result<(), Fail> {
    let made = payload(rt.alloc(), &Payload::Made { len: 259, start: 0 })?;
    assert_eq!(rt; made.len(), 259);
    for (i, want) in [
        (0, 0x00),
        (1, 0x07),
        (2, 0x0e),
        (3, 0x15),
        (254, 0xf3),
        (255, 0xfa),
        (256, 0x01),
        (257, 0x08),
    ] {
        assert_eq!(rt; made.as_slice().get(i).copied(), Some(want), "byte {i}");
    }
    let given = Payload::Given(Bytes::from_vec(Vec::from_slice(rt.alloc(), b"AB")?));
    assert_eq!(rt; payload(rt.alloc(), &given)?.as_slice(), b"AB".as_slice());
    Ok(())
}

#[test]
fn each_reply_is_one_line_and_one_call(rt: HostRuntime) -> Result<(), Fail> {
    let bytes = Bytes::from_vec(Vec::from_slice(rt.alloc(), b"BC")?);
    let replies = [
        (Reply::Ok, b"7 ok\n".as_slice()),
        (
            Reply::Length(18446744073709551615),
            b"7 length 18446744073709551615\n",
        ),
        (Reply::Bytes(bytes), b"7 bytes x4243\n"),
        (Reply::Range(0), b"7 range 0\n"),
        (Reply::Exists, b"7 exists\n"),
        (Reply::Missing, b"7 missing\n"),
        (Reply::Busy, b"7 busy\n"),
        (Reply::Full, b"7 full\n"),
        (Reply::NoObject, b"7 noobject\n"),
        (Reply::NoSpace(16), b"7 nospace 16\n"),
        (Reply::Fault, b"7 fault\n"),
        (Reply::Memory, b"7 memory\n"),
        (Reply::Idle, b"7 idle\n"),
        (Reply::Active, b"7 active\n"),
        (Reply::TooLong, b"7 toolong\n"),
        (Reply::Worn, b"7 worn\n"),
        (
            Reply::Status {
                free: 8,
                locked: 0,
                held: 4294967295,
            },
            b"7 status 8 0 4294967295\n",
        ),
        (Reply::Again, b"7 again\n"),
    ];
    let mut draft = Draft::new();
    for (reply, want) in replies {
        // The second call would fail.
        let mut sink = MemSink::new(rt.alloc(), vec![in rt.alloc(); 2]?);
        assert!(rt; write_reply(7, &reply, &mut sink).is_ok());
        assert_eq!(rt; sink.written(), want);
        let mut again = MemSink::new(rt.alloc(), vec![in rt.alloc(); 2]?);
        assert!(rt; write_reply_with(&mut draft, 7, &reply, &mut again).is_ok());
        assert_eq!(rt; again.written(), want);
    }
    let mut sink = MemSink::new(rt.alloc(), vec![in rt.alloc(); 2]?);
    assert!(rt; write_no_line(&mut sink).is_ok());
    assert_eq!(rt; sink.written(), b"?\n".as_slice());
    Ok(())
}

#[test]
fn a_reply_that_fits_the_buffer_is_one_call(rt: HostRuntime) -> Result<(), Fail> {
    // How many bytes the reply has, and whether the second call of the sink, which would fail,
    // comes.
    let sizes = [
        (28, false),
        (29, false),
        (45, false),
        (100, false),
        (1000, false),
        (2000, false),
        (2043, false),
        (2044, true),
    ];
    let mut draft = Draft::new();
    for (len, comes) in sizes {
        let reply = Reply::Bytes(Bytes::from_vec(vec![in rt.alloc(); 0x41; len]?));
        let mut sink = MemSink::new(rt.alloc(), vec![in rt.alloc(); 2]?);
        let done = write_reply_with(&mut draft, 7, &reply, &mut sink);
        assert_eq!(rt; done.is_err(), comes, "{len} bytes");
    }
    Ok(())
}

#[test]
fn a_long_reply_takes_calls_of_the_size_of_the_buffer(rt: HostRuntime) -> Result<(), Fail> {
    let reply = Reply::Bytes(payload(
        rt.alloc(),
        &Payload::Made {
            len: 5000,
            start: 0,
        },
    )?);
    let mut whole = MemSink::new(rt.alloc(), Vec::new(rt.alloc()));
    assert!(rt; write_reply(64, &reply, &mut whole).is_ok());
    assert_eq!(rt; whole.written().len(), 10011);
    let mut cut = MemSink::new(rt.alloc(), vec![in rt.alloc(); 3]?);
    assert!(rt; matches!(write_reply(64, &reply, &mut cut), Err(SinkFail::Fault)));
    assert_eq!(rt; cut.written().len(), 8192);
    Ok(())
}
