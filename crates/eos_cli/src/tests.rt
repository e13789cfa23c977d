//! What no clause says: that a run succeeds with ample memory, and the texts of scripts.
use crate::run::run_alone;
use edge_io::{MemSink, MemSource};
use std::alloc::{AllocError, Global};
use std::test::Fail;

/// A script, and the replies that it is to get.
#[derive(Drop)]
struct Talk {
    script: Vec<u8>,
    replies: Vec<u8>,
}

/// A command of a session that gets a reply.
fn say(
    alloc: Global,
    talk: &mut Talk,
    session: u32,
    command: &str,
    reply: &str,
) -> Result<(), AllocError> {
    let line = format!(in alloc; "{session} {command}\n")?;
    talk.script.extend_from_slice(line.as_bytes())?;
    let answer = format!(in alloc; "{session} {reply}\n")?;
    talk.replies.extend_from_slice(answer.as_bytes())
}

/// A read of the first bytes of an object that has made ones from this start on.
fn say_read(
    alloc: Global,
    talk: &mut Talk,
    session: u32,
    object: u32,
    len: u32,
    start: u32,
) -> Result<(), AllocError> {
    let line = format!(in alloc; "{session} read {object} 0 {len}\n")?;
    talk.script.extend_from_slice(line.as_bytes())?;
    let front = format!(in alloc; "{session} bytes x")?;
    talk.replies.extend_from_slice(front.as_bytes())?;
    for i in 0..len {
        let byte = start.wrapping_add(i.wrapping_mul(7)).wrapping_add(i / 251) % 256;
        talk.replies.push(digit(byte / 16))?;
        talk.replies.push(digit(byte % 16))?;
    }
    talk.replies.push(b'\n')?;
    Ok(())
}

/// The hexadecimal digit of a number below 16.
fn digit(number: u32) -> u8 {
    b"0123456789abcdef"
        .get(number as usize)
        .copied()
        .unwrap_or(b'?')
}

/// A round of the sessions `s` and `s + 32` at object `s - 1`, which is absent before and after it.
fn say_round(alloc: Global, talk: &mut Talk, s: u32, len: u32) -> Result<(), AllocError> {
    let object = s.saturating_sub(1);
    let other = s.saturating_add(32);
    say(alloc, talk, s, "begin", "ok")?;
    say(alloc, talk, other, "begin", "ok")?;
    say(alloc, talk, s, "begin", "active")?;
    say(alloc, talk, s, &format!(in alloc; "create {object}")?, "ok")?;
    say(
        alloc,
        talk,
        s,
        &format!(in alloc; "create {object}")?,
        "exists",
    )?;
    say(
        alloc,
        talk,
        other,
        &format!(in alloc; "length {object}")?,
        "busy",
    )?;
    say(
        alloc,
        talk,
        s,
        &format!(in alloc; "append {object} r{len}.{s}")?,
        "ok",
    )?;
    say(
        alloc,
        talk,
        s,
        &format!(in alloc; "length {object}")?,
        &format!(in alloc; "length {len}")?,
    )?;
    say_read(alloc, talk, s, object, len, s)?;
    say(
        alloc,
        talk,
        s,
        &format!(in alloc; "read {object} 1 {len}")?,
        &format!(in alloc; "range {len}")?,
    )?;
    say(
        alloc,
        talk,
        s,
        &format!(in alloc; "read {object} 0 1048577")?,
        "toolong",
    )?;
    say(alloc, talk, other, "length 32", "noobject")?;
    say(alloc, talk, other, "status", "status 0 0 0")?;
    say(
        alloc,
        talk,
        s,
        &format!(in alloc; "destroy {object}")?,
        "ok",
    )?;
    say(
        alloc,
        talk,
        s,
        &format!(in alloc; "length {object}")?,
        "missing",
    )?;
    say(alloc, talk, s, "commit", "ok")?;
    say(alloc, talk, other, "abort", "ok")?;
    say(alloc, talk, other, "commit", "idle")?;
    talk.script.extend_from_slice(b"1 frob\n")?;
    talk.replies.extend_from_slice(b"?\n")
}

/// The words of a row, between which it has a blank.
fn words(alloc: Global, row: &str) -> Result<Vec<String>, AllocError> {
    let mut words = Vec::new(alloc);
    for word in row.split_whitespace() {
        words.push(String::from_str(alloc, word)?)?;
    }
    Ok(words)
}

/// The status and the output of a run over this input, where some calls of the source and the sink
/// fail.
fn run(
    alloc: Global,
    input: Vec<u8>,
    failing_reads: Vec<u64>,
    failing_writes: Vec<u64>,
) -> Result<(u8, Vec<u8>), AllocError> {
    let mut source = MemSource::new(input, 100_000, failing_reads);
    let mut sink = MemSink::new(alloc, failing_writes);
    let status = run_alone(alloc, &words(alloc, "script s")?, &mut source, &mut sink);
    Ok((status, Vec::from_slice(alloc, sink.written())?))
}

#[test]
fn no_line_of_thousands_wants_memory(rt: HostRuntime) -> Result<(), Fail> {
    let alloc = rt.alloc();
    let mut talk = Talk {
        script: Vec::new(alloc),
        replies: Vec::new(alloc),
    };
    for round in 0..10u32 {
        for s in 1..33u32 {
            let len = if s == round && round > 7 {
                1_048_576
            } else {
                97 * s
            };
            say_round(alloc, &mut talk, s, len)?;
        }
    }
    let (status, output) = run(alloc, talk.script, Vec::new(alloc), Vec::new(alloc))?;
    assert_eq!(rt; status, 0);
    assert!(rt; output == talk.replies);
    Ok(())
}

#[test]
fn a_seventeenth_object_is_refused_before_it_is_looked_for(rt: HostRuntime) -> Result<(), Fail> {
    let alloc = rt.alloc();
    let mut talk = Talk {
        script: Vec::new(alloc),
        replies: Vec::new(alloc),
    };
    say(alloc, &mut talk, 1, "begin", "ok")?;
    for object in 0..16u32 {
        say(
            alloc,
            &mut talk,
            1,
            &format!(in alloc; "create {object}")?,
            "ok",
        )?;
    }
    say(alloc, &mut talk, 1, "create 16", "full")?;
    say(alloc, &mut talk, 1, "create 32", "noobject")?;
    let (status, output) = run(alloc, talk.script, Vec::new(alloc), Vec::new(alloc))?;
    assert_eq!(rt; (status, output), (0, talk.replies));
    Ok(())
}

#[test]
fn a_text_of_any_bytes_is_answered_and_nothing_is_lost(rt: HostRuntime) -> Result<(), Fail> {
    let alloc = rt.alloc();
    let mut input = Vec::from_slice(alloc, b"1 begin\n\0\n\xff\xfe\n1 commit\r\n\n")?;
    for _ in 0..60000 {
        input.push(b' ')?;
    }
    input.extend_from_slice(b"\n1 commit")?;
    let (status, output) = run(alloc, input, Vec::new(alloc), Vec::new(alloc))?;
    assert_eq!(rt; status, 0);
    assert_eq!(rt;
        output.as_slice(),
        b"1 ok\n?\n?\n?\n?\n?\n1 ok\n".as_slice()
    );
    Ok(())
}

#[test]
fn each_failure_has_its_status(rt: HostRuntime) -> Result<(), Fail> {
    // The call of the source that fails, that of the sink, the status, and the output.
    let cases = [
        (0, 0, 0, b"1 ok\n1 ok\n".as_slice()),
        (1, 0, 3, b""),
        (2, 0, 3, b""),
        (0, 1, 4, b""),
        (0, 2, 4, b"1 ok\n"),
    ];
    for (read, write, want, replies) in cases {
        let (status, output) = run(
            rt.alloc(),
            Vec::from_slice(rt.alloc(), b"1 begin\n1 commit\n")?,
            vec![in rt.alloc(); read]?,
            vec![in rt.alloc(); write]?,
        )?;
        assert_eq!(rt; status, want, "read {read}, write {write}");
        assert_eq!(rt; output.as_slice(), replies);
    }
    Ok(())
}

#[test]
fn a_line_and_a_script_have_a_limit(rt: HostRuntime) -> Result<(), Fail> {
    // The bytes of a line, how many lines there are, and the status: at the limits, and one byte
    // past them.
    let sizes = [
        (65_536, 1, 0),
        (65_537, 1, 7),
        (65_535, 256, 0),
        (65_535, 257, 7),
    ];
    for (bytes, count, want) in sizes {
        let mut line = vec![in rt.alloc(); b'y'; bytes]?;
        line.push(b'\n')?;
        let mut input = Vec::new(rt.alloc());
        for _ in 0..count {
            input.extend_from_slice(&line)?;
        }
        let (status, output) = run(
            rt.alloc(),
            input,
            Vec::new(rt.alloc()),
            Vec::new(rt.alloc()),
        )?;
        assert_eq!(rt; status, want, "{count} lines of {bytes}");
        assert_eq!(rt; output.len(), if want == 0 { 2 * count } else { 0 });
    }
    Ok(())
}

#[test]
fn words_in_no_form_are_usage(rt: HostRuntime) -> Result<(), Fail> {
    let rows = [
        "",
        "script",
        "script -s",
        "script s t",
        "format s",
        "-h",
        "Script s",
    ];
    for row in rows {
        let mut source = MemSource::new(Vec::new(rt.alloc()), 1, Vec::new(rt.alloc()));
        let mut sink = MemSink::new(rt.alloc(), Vec::new(rt.alloc()));
        let words = words(rt.alloc(), row)?;
        assert_eq!(rt;
            run_alone(rt.alloc(), &words, &mut source, &mut sink),
            2,
            "{row}"
        );
    }
    Ok(())
}
