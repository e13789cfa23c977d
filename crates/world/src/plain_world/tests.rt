//! Whole scripts, with their replies worked by hand.

use super::PlainWorld;
use eos_ops::{Bytes, Command, Payload, Reply};
use std::alloc::{AllocError, Global};
use std::process::Abort;
use std::test::Fail;

/// A command with its payload as a constant.
enum Ask {
    Begin,
    Create(u64),
    Destroy(u64),
    Length(u64),
    Read(u64, u64, u64),
    Append(u64, &'static [u8]),
    Made(u64, u64),
    Insert(u64, u64, &'static [u8]),
    Delete(u64, u64, u64),
    Replace(u64, u64, &'static [u8]),
    Commit,
    Abort,
}

fn given(alloc: Global, bytes: &[u8]) -> Result<Payload, AllocError> {
    Ok(Payload::Given(Bytes::from_vec(bytes.to_vec(alloc)?)))
}

fn command(alloc: Global, ask: &Ask) -> Result<Command, AllocError> {
    Ok(match *ask {
        Ask::Begin => Command::Begin,
        Ask::Create(object) => Command::Create {
            object,
            threshold: None,
        },
        Ask::Destroy(object) => Command::Destroy { object },
        Ask::Length(object) => Command::Length { object },
        Ask::Read(object, at, len) => Command::Read { object, at, len },
        Ask::Append(object, bytes) => Command::Append {
            object,
            payload: given(alloc, bytes)?,
        },
        Ask::Made(object, len) => Command::Append {
            object,
            payload: Payload::Made { len, start: 1 },
        },
        Ask::Insert(object, at, bytes) => Command::Insert {
            object,
            at,
            payload: given(alloc, bytes)?,
        },
        Ask::Delete(object, at, len) => Command::Delete { object, at, len },
        Ask::Replace(object, at, bytes) => Command::Replace {
            object,
            at,
            payload: given(alloc, bytes)?,
        },
        Ask::Commit => Command::Commit,
        Ask::Abort => Command::Abort,
    })
}

/// Runs the lines, and compares each reply.
fn steps(
    rt: &(impl Abort + AllocGlobal),
    world: &mut PlainWorld,
    lines: &[(u32, Ask, &str)],
) -> Result<(), Fail> {
    for (session, ask, want) in lines {
        let session = *session;
        assert!(rt; 0 < session && session <= 64);
        let reply = world.step(session, command(rt.alloc(), ask)?);
        let text = format!(in rt.alloc(); "{reply:?}")?;
        assert_eq!(rt; text.as_str(), *want);
    }
    Ok(())
}

/// Runs the lines over 32 absent objects.
fn run(rt: &(impl Abort + AllocGlobal), lines: &[(u32, Ask, &str)]) -> Result<(), Fail> {
    let mut world = PlainWorld::new(rt.alloc(), 32)?;
    steps(rt, &mut world, lines)
}

#[test]
fn one_session_reads_what_it_wrote(rt: HostRuntime) -> Result<(), Fail> {
    run(
        &rt,
        &[
            (1, Ask::Begin, "Ok"),
            (1, Ask::Begin, "Active"),
            (1, Ask::Read(0, 0, 1), "Missing"),
            (1, Ask::Create(0), "Ok"),
            (1, Ask::Create(0), "Exists"),
            (1, Ask::Append(0, b"ABC"), "Ok"),
            (1, Ask::Read(0, 1, 2), "Bytes(Bytes { items: [66, 67] })"),
            (1, Ask::Read(0, 4, 0), "Range(3)"),
            (1, Ask::Read(0, 3, 0), "Bytes(Bytes { items: [] })"),
            (1, Ask::Insert(0, 4, b"D"), "Range(3)"),
            (1, Ask::Destroy(0), "Ok"),
            (1, Ask::Length(0), "Missing"),
            (1, Ask::Commit, "Ok"),
            (1, Ask::Commit, "Idle"),
            (2, Ask::Begin, "Ok"),
        ],
    )
}

#[test]
fn an_edit_is_others_after_its_commit_and_nobodys_after_an_abort(
    rt: HostRuntime,
) -> Result<(), Fail> {
    run(
        &rt,
        &[
            (1, Ask::Begin, "Ok"),
            (1, Ask::Create(0), "Ok"),
            (1, Ask::Made(0, 4), "Ok"),
            (1, Ask::Insert(0, 1, b"-"), "Ok"),
            (1, Ask::Delete(0, 0, 1), "Ok"),
            (1, Ask::Replace(0, 1, b"*+"), "Ok"),
            (2, Ask::Begin, "Ok"),
            (2, Ask::Length(0), "Busy"),
            (1, Ask::Commit, "Ok"),
            (2, Ask::Delete(0, 1, 2), "Ok"),
            (2, Ask::Read(0, 0, 2), "Bytes(Bytes { items: [45, 22] })"),
            (2, Ask::Abort, "Ok"),
            (3, Ask::Begin, "Ok"),
            (
                3,
                Ask::Read(0, 0, 4),
                "Bytes(Bytes { items: [45, 42, 43, 22] })",
            ),
            (3, Ask::Insert(0, 4, b"!"), "Ok"),
            (3, Ask::Length(0), "Length(5)"),
        ],
    )
}

#[test]
fn the_end_aborts_what_is_open_and_lets_it_go(rt: HostRuntime) -> Result<(), Fail> {
    let mut world = PlainWorld::new(rt.alloc(), 32)?;
    steps(
        &rt,
        &mut world,
        &[
            (1, Ask::Begin, "Ok"),
            (1, Ask::Create(0), "Ok"),
            (1, Ask::Append(0, b"A"), "Ok"),
            (1, Ask::Commit, "Ok"),
            (1, Ask::Begin, "Ok"),
            (1, Ask::Append(0, b"B"), "Ok"),
            (64, Ask::Begin, "Ok"),
            (64, Ask::Create(1), "Ok"),
        ],
    )?;
    world.finish();
    steps(
        &rt,
        &mut world,
        &[
            (1, Ask::Commit, "Idle"),
            (64, Ask::Abort, "Idle"),
            (2, Ask::Begin, "Ok"),
            (2, Ask::Length(0), "Length(1)"),
            (2, Ask::Length(1), "Missing"),
        ],
    )
}

#[test]
fn a_session_holds_sixteen_objects_and_a_long_payload_is_refused(
    rt: HostRuntime,
) -> Result<(), Fail> {
    let mut world = PlainWorld::new(rt.alloc(), 32)?;
    let _ = world.step(1, Command::Begin);
    for object in 0..16 {
        let reply = world.step(
            1,
            Command::Create {
                object,
                threshold: None,
            },
        );
        assert!(&rt; matches!(reply, Reply::Ok));
    }
    for (object, want) in [(16, "Full"), (32, "NoObject"), (15, "Exists")] {
        let reply = world.step(
            1,
            Command::Create {
                object,
                threshold: None,
            },
        );
        let text = format!(in rt.alloc(); "{reply:?}")?;
        assert_eq!(rt; text.as_str(), want);
    }
    for (len, want) in [(1_048_577, "TooLong"), (1_048_576, "Ok")] {
        let payload = Payload::Made { len, start: 0 };
        let reply = world.step(1, Command::Append { object: 0, payload });
        let text = format!(in rt.alloc(); "{reply:?}")?;
        assert_eq!(rt; text.as_str(), want);
    }
    Ok(())
}
