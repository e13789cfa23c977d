//! Worked scripts over fresh stores, and their replies.

use crate::run::run_model;
use edge_io::{MemSink, MemSource};
use std::alloc::{AllocError, Global};
use std::test::Fail;

/// The lines of a row in parts, between which it has a `/`.
fn lines(alloc: Global, parts: &[&str]) -> Result<Vec<u8>, AllocError> {
    let mut text = Vec::new(alloc);
    for part in parts {
        for byte in part.as_bytes() {
            text.push(if *byte == b'/' { b'\n' } else { *byte })?;
        }
    }
    text.push(b'\n')?;
    Ok(text)
}

/// The output of a script over a fresh store of 256 bytes a page and one space of 16 pages,
/// threshold 2. Where the run failed it is empty.
fn run(alloc: Global, script: [&str; 3]) -> Result<Vec<u8>, AllocError> {
    let mut words = Vec::new(alloc);
    for word in "256 4 1 1 2".split_whitespace() {
        words.push(String::from_str(alloc, word)?)?;
    }
    let mut source = MemSource::new(lines(alloc, script.as_slice())?, 100_000, Vec::new(alloc));
    let mut sink = MemSink::new(alloc, Vec::new(alloc));
    match run_model(alloc, &words, &mut source, &mut sink) {
        Ok(()) => Vec::from_slice(alloc, sink.written()),
        Err(_) => Ok(Vec::new(alloc)),
    }
}

/// Whether a script gets these replies.
fn is_answered(alloc: Global, script: [&str; 3], replies: [&str; 2]) -> Result<bool, AllocError> {
    Ok(run(alloc, script)? == lines(alloc, replies.as_slice())?)
}

#[test]
fn worked_scripts_get_their_replies(rt: HostRuntime) -> Result<(), Fail> {
    // A script in three parts, and its replies in two.
    let rows = [
        (
            [
                "1 begin/1 create 0/1 append 0 x/1 length 0/1 read 0 0 0/1 read 0 0 1/1 commit",
                "",
                "",
            ],
            ["1 ok/1 ok/1 ok/1 length 0/1 bytes x/1 range 0/1 ok", ""],
        ),
        (
            [
                "1 begin/1 create 0/1 append 0 r4096.1/1 length 0/1 commit",
                "",
                "",
            ],
            ["1 ok/1 ok/1 nospace 1/1 length 0/1 ok", ""],
        ),
        (
            [
                "1 begin/1 create 0/1 append 0 r3840.1/1 status/1 commit",
                "",
                "",
            ],
            ["1 ok/1 ok/1 ok/1 status 0 0 16/1 ok", ""],
        ),
        (
            [
                "1 begin/1 create 0/1 append 0 r1792.1/1 commit/2 begin/2 delete 0 0 1792/2 status",
                "/1 begin/1 create 1/1 append 1 r2048.2/2 commit/1 append 1 r2048.2/1 commit",
                "",
            ],
            [
                "1 ok/1 ok/1 ok/1 ok/2 ok/2 ok/2 status 8 8 0/1 ok/1 ok/1 nospace 1/2 ok/1 ok/1 ok",
                "",
            ],
        ),
        (
            [
                "1 begin/1 create 0/1 append 0 r1792.1/1 commit/2 begin/2 delete 0 0 1792/2 status",
                "/1 begin/1 create 1/1 append 1 r2048.2/2 abort/1 append 1 r2048.2/1 commit/1 begin",
                "/1 length 0",
            ],
            [
                "1 ok/1 ok/1 ok/1 ok/2 ok/2 ok/2 status 8 8 0/1 ok/1 ok/1 nospace 1/2 ok",
                "/1 nospace 1/1 ok/1 ok/1 length 1792",
            ],
        ),
        (
            [
                "1 begin/1 create 0/2 begin/2 length 0/1 abort/2 length 0",
                "",
                "",
            ],
            ["1 ok/1 ok/2 ok/2 busy/1 ok/2 missing", ""],
        ),
        (
            ["1 begin/1 create 0/1 insert 0 1 x41/1 create 0", "", ""],
            ["1 ok/1 ok/1 range 0/1 exists", ""],
        ),
        (
            [
                "1 begin/1 create 0/1 append 0 r512.0/1 commit/1 begin/1 insert 0 256 x2d/1 status",
                "/1 read 0 254 5/1 commit/1 status",
                "",
            ],
            [
                "1 ok/1 ok/1 ok/1 ok/1 ok/1 ok/1 status 10 2 4/1 bytes xf3fa2d0108/1 ok",
                "/1 status 12 0 4",
            ],
        ),
        (
            [
                "1 begin/1 create 0/1 append 0 r512.0/1 commit/1 begin/1 insert 0 255 x2d/1 status",
                "/1 read 0 254 5/1 commit/1 status",
                "",
            ],
            [
                "1 ok/1 ok/1 ok/1 ok/1 ok/1 ok/1 status 10 2 4/1 bytes xf32dfa0108/1 ok",
                "/1 status 12 0 4",
            ],
        ),
        (
            [
                "1 begin/1 create 0/1 append 0 r512.0/1 commit/1 begin/1 insert 0 257 x2d/1 status",
                "/1 read 0 254 5/1 commit/1 status",
                "",
            ],
            [
                "1 ok/1 ok/1 ok/1 ok/1 ok/1 ok/1 status 11 1 4/1 bytes xf3fa012d08/1 ok",
                "/1 status 12 0 4",
            ],
        ),
        (
            ["1 commit/1 begin/1 begin/1 frob/1 commit", "", ""],
            ["1 idle/1 ok/1 active/?/1 ok", ""],
        ),
        (
            [
                "1 begin/1 create 0/1 append 0 r256.0/1 append 0 r256.0/1 status/1 append 0 r256.0",
                "/1 status/1 append 0 r256.0/1 status/1 commit/1 status",
                "",
            ],
            [
                "1 ok/1 ok/1 ok/1 ok/1 status 13 0 3/1 ok/1 status 9 0 7/1 ok/1 status 9 0 7/1 ok",
                "/1 status 11 0 5",
            ],
        ),
        (
            [
                "1 begin/1 read 0 0 1048577/1 create 0/1 append 0 r1048577.0/65 begin/1 begin ",
                "",
                "",
            ],
            ["1 ok/1 toolong/1 ok/1 toolong/?/?", ""],
        ),
        (
            [
                "1 begin/1 create 0/1 append 0 x41/1 destroy 0/1 length 0/1 create 0/1 length 0",
                "/1 status/1 commit",
                "",
            ],
            [
                "1 ok/1 ok/1 ok/1 ok/1 missing/1 ok/1 length 0/1 status 16 0 0/1 ok",
                "",
            ],
        ),
        (
            [
                "1 begin/1 create 0 8/1 append 0 r512.0/1 commit/1 begin/1 insert 0 256 x2d",
                "/1 status/1 commit/1 status/1 begin/1 create 1 0/1 create 1 8193/1 create 1 8192",
                "",
            ],
            [
                "1 ok/1 ok/1 ok/1 ok/1 ok/1 ok/1 status 9 3 4/1 ok/1 status 12 0 4/1 ok/?/?/1 ok",
                "",
            ],
        ),
        (
            [
                "1 begin/1 create 0/1 append 0 r256.0/1 create 1/1 append 1 r1024.0/1 create 2",
                "/1 append 2 r256.0/1 create 3/1 append 3 r1280.5/1 status/1 read 3 767 3",
                "/1 create 4/1 append 4 r768.0/1 append 4 r1024.0/1 commit",
            ],
            [
                "1 ok/1 ok/1 ok/1 ok/1 ok/1 ok/1 ok/1 ok/1 ok/1 status 1 0 15/1 bytes x01080f/1 ok",
                "/1 nospace 3/1 nospace 2/1 ok",
            ],
        ),
        (
            [
                "64 status/65 status/0 status/1  status/1 status /status/1 begin/1 create 16",
                "",
                "",
            ],
            ["64 status 16 0 0/?/?/?/?/?/1 ok/1 noobject", ""],
        ),
    ];
    for (script, replies) in rows {
        let first = script[0];
        assert!(rt; is_answered(rt.alloc(), script, replies)?, "{first}");
    }
    Ok(())
}

#[test]
fn words_that_are_no_store_are_refused(rt: HostRuntime) -> Result<(), Fail> {
    let rows = [
        "300 4 1 1 2",
        "256 11 1 1 2",
        "256 4 1 1 9",
        "256 04 1 1 2",
        "256 4 1 1",
        "256 4 0 1 2",
        "256 4 1 17 2",
        "--help",
    ];
    for row in rows {
        let mut words = Vec::new(rt.alloc());
        for word in row.split_whitespace() {
            words.push(String::from_str(rt.alloc(), word)?)?;
        }
        let mut source = MemSource::new(Vec::new(rt.alloc()), 1, Vec::new(rt.alloc()));
        let mut sink = MemSink::new(rt.alloc(), Vec::new(rt.alloc()));
        match run_model(rt.alloc(), &words, &mut source, &mut sink) {
            Ok(()) => assert!(rt; false, "{row}"),
            Err(failure) => assert_eq!(rt; failure.status(), 2, "{row}"),
        }
    }
    Ok(())
}
