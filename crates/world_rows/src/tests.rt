//! Whole scripts, with their replies worked by hand.

use crate::fresh::plain_world;
use crate::worlds::{Ask, page_world, steps};
use body_double::PageBody;
use body_world::{Unmade, World};
use eos_ops::{Command, Reply};
use object_body::Body;
use page_port::MemPort;
use std::process::Abort;
use std::test::Fail;

/// Runs the lines over objects in memory, and over objects that own pages: the replies are the
/// same.
fn both(rt: &(impl Abort + AllocGlobal), lines: &[(u32, Ask, &str)]) -> Result<(), Fail> {
    let Some(mut plain) = plain_world(rt.alloc()) else {
        assert!(rt; false);
        return Ok(());
    };
    steps(rt, &mut plain, lines)?;
    let Some(mut paged) = page_world(rt.alloc()) else {
        assert!(rt; false);
        return Ok(());
    };
    steps(rt, &mut paged, lines)
}

#[test]
fn an_object_of_no_byte(rt: HostRuntime) -> Result<(), Fail> {
    both(
        &rt,
        &[
            (1, Ask::Begin, "Ok"),
            (1, Ask::Create(0), "Ok"),
            (1, Ask::Append(0, b""), "Ok"),
            (1, Ask::Length(0), "Length(0)"),
            (1, Ask::Read(0, 0, 0), "Bytes(Bytes { items: [] })"),
            (1, Ask::Read(0, 0, 1), "Range(0)"),
            (1, Ask::Commit, "Ok"),
        ],
    )
}

#[test]
fn an_object_is_busy_until_its_session_ends(rt: HostRuntime) -> Result<(), Fail> {
    both(
        &rt,
        &[
            (1, Ask::Begin, "Ok"),
            (1, Ask::Create(0), "Ok"),
            (2, Ask::Begin, "Ok"),
            (2, Ask::Length(0), "Busy"),
            (1, Ask::Abort, "Ok"),
            (2, Ask::Length(0), "Missing"),
        ],
    )
}

#[test]
fn what_the_object_refuses(rt: HostRuntime) -> Result<(), Fail> {
    both(
        &rt,
        &[
            (1, Ask::Begin, "Ok"),
            (1, Ask::Create(0), "Ok"),
            (1, Ask::Insert(0, 1, b"A"), "Range(0)"),
            (1, Ask::Create(0), "Exists"),
        ],
    )
}

#[test]
fn a_session_begins_once(rt: HostRuntime) -> Result<(), Fail> {
    both(
        &rt,
        &[
            (1, Ask::Commit, "Idle"),
            (1, Ask::Length(0), "Idle"),
            (1, Ask::Begin, "Ok"),
            (1, Ask::Begin, "Active"),
            (1, Ask::Commit, "Ok"),
            (1, Ask::Length(0), "Idle"),
        ],
    )
}

#[test]
fn what_is_too_long(rt: HostRuntime) -> Result<(), Fail> {
    both(
        &rt,
        &[
            (1, Ask::Begin, "Ok"),
            (1, Ask::Read(0, 0, 1_048_577), "TooLong"),
            (1, Ask::Create(0), "Ok"),
            (1, Ask::Made(0, 1_048_577), "TooLong"),
        ],
    )
}

#[test]
fn a_session_holds_sixteen_objects(rt: HostRuntime) -> Result<(), Fail> {
    both(
        &rt,
        &[
            (64, Ask::Begin, "Ok"),
            (64, Ask::Create(0), "Ok"),
            (64, Ask::Create(1), "Ok"),
            (64, Ask::Create(2), "Ok"),
            (64, Ask::Create(3), "Ok"),
            (64, Ask::Create(4), "Ok"),
            (64, Ask::Create(5), "Ok"),
            (64, Ask::Create(6), "Ok"),
            (64, Ask::Create(7), "Ok"),
            (64, Ask::Create(8), "Ok"),
            (64, Ask::Create(9), "Ok"),
            (64, Ask::Create(10), "Ok"),
            (64, Ask::Create(11), "Ok"),
            (64, Ask::Create(12), "Ok"),
            (64, Ask::Create(13), "Ok"),
            (64, Ask::Create(14), "Ok"),
            (64, Ask::Create(15), "Ok"),
            (64, Ask::Create(16), "Full"),
            (64, Ask::Create(32), "NoObject"),
        ],
    )
}

/// The one space that is handed out has so many free pages, and none that is locked, and object 0
/// has this length.
fn is_left<B: Body<P = MemPort>>(
    rt: &impl Abort,
    world: World<MemPort, B>,
    free: u32,
    length: Option<u64>,
) {
    let Unmade {
        spaces,
        objects,
        ..
    } = world.finish();
    assert!(rt; spaces.len() == 1 && objects.len() == 32);
    let counts = spaces[0].counts();
    assert_eq!(rt; (counts.free, counts.locked), (free, 0));
    assert_eq!(rt; objects[0].body.length(), length);
}

#[test]
fn what_is_open_is_aborted_at_the_end(rt: HostRuntime) -> Result<(), Fail> {
    let Some(mut plain) = plain_world(rt.alloc()) else {
        assert!(&rt; false);
        return Ok(());
    };
    let Some(mut paged) = page_world(rt.alloc()) else {
        assert!(&rt; false);
        return Ok(());
    };
    let lines = [(1, Ask::Begin, "Ok"), (1, Ask::Create(0), "Ok")];
    steps(&rt, &mut plain, &lines)?;
    steps(&rt, &mut paged, &lines)?;
    is_left(&rt, plain, 16, None);
    is_left(&rt, paged, 16, None);
    Ok(())
}

#[test]
fn an_edit_is_others_after_its_commit_and_nobodys_after_an_abort(
    rt: HostRuntime,
) -> Result<(), Fail> {
    let Some(mut world) = plain_world(rt.alloc()) else {
        assert!(&rt; false);
        return Ok(());
    };
    steps(
        &rt,
        &mut world,
        &[
            (1, Ask::Begin, "Ok"),
            (1, Ask::Create(0), "Ok"),
            (1, Ask::Append(0, b"ABC"), "Ok"),
            (1, Ask::Made(0, 1), "Ok"),
            (1, Ask::Insert(0, 5, b"D"), "Range(4)"),
            (1, Ask::Read(0, 1, 3), "Bytes(Bytes { items: [66, 67, 1] })"),
            (1, Ask::Commit, "Ok"),
            (2, Ask::Begin, "Ok"),
            (2, Ask::Destroy(0), "Ok"),
            (2, Ask::Length(0), "Missing"),
            (2, Ask::Abort, "Ok"),
            (64, Ask::Begin, "Ok"),
            (64, Ask::Length(0), "Length(4)"),
            (64, Ask::Status, "Status { free: 16, locked: 0, held: 0 }"),
        ],
    )?;
    is_left(&rt, world, 16, Some(4));
    Ok(())
}

#[test]
fn want_of_memory_leaves_an_object_on_the_shelf(rt: HostRuntime) -> Result<(), Fail> {
    let Some(mut world) = page_world(rt.alloc()) else {
        assert!(&rt; false);
        return Ok(());
    };
    steps(
        &rt,
        &mut world,
        &[
            (1, Ask::Begin, "Ok"),
            (1, Ask::Create(0), "Ok"),
            (1, Ask::Commit, "Ok"),
            (1, Ask::Begin, "Ok"),
            // An object that owns a page has no room for bytes.
            (1, Ask::Append(0, b"A"), "Memory"),
            (2, Ask::Begin, "Ok"),
            (2, Ask::Length(0), "Length(0)"),
            (1, Ask::Length(0), "Busy"),
        ],
    )
}

/// Runs one line of a session, and compares its reply and the counts of all pages after it.
fn counted(
    rt: &(impl Abort + AllocGlobal),
    world: &mut World<MemPort, PageBody<MemPort>>,
    line: (u32, Ask, &str),
    free: u32,
    locked: u32,
) -> Result<(), Fail> {
    let (session, ask, want) = line;
    steps(rt, world, &[(session, ask, want)])?;
    assert!(rt; 0 < session && session <= 64);
    let reply = world.step(session, Command::Status);
    let held = 16u32.saturating_sub(free).saturating_sub(locked);
    let Reply::Status {
        free: f,
        locked: l,
        held: h,
    } = reply
    else {
        assert!(rt; false);
        return Ok(());
    };
    assert_eq!(rt; (f, l, h), (free, locked, held));
    Ok(())
}

#[test]
fn pages_are_counted_after_each_command_of_64_sessions(rt: HostRuntime) -> Result<(), Fail> {
    let Some(mut world) = page_world(rt.alloc()) else {
        assert!(&rt; false);
        return Ok(());
    };
    for place in 0..64 {
        counted(&rt, &mut world, (place + 1, Ask::Begin, "Ok"), 16, 0)?;
    }
    // The first sixteen objects take all pages, and the others find none.
    for place in 0..16 {
        let line = (place + 1, Ask::Create(u64::from(place)), "Ok");
        counted(&rt, &mut world, line, 15 - place, 0)?;
    }
    for place in 16..32 {
        let line = (place + 1, Ask::Create(u64::from(place)), "NoSpace(1)");
        counted(&rt, &mut world, line, 0, 0)?;
    }
    // Each of them is with its session.
    for place in 32..64 {
        let line = (place + 1, Ask::Length(u64::from(place - 32)), "Busy");
        counted(&rt, &mut world, line, 0, 0)?;
    }
    // The sessions of the even objects commit, and those of the odd ones abort.
    for pair in 0..8 {
        counted(&rt, &mut world, (2 * pair + 1, Ask::Commit, "Ok"), pair, 0)?;
        counted(
            &rt,
            &mut world,
            (2 * pair + 2, Ask::Abort, "Ok"),
            pair + 1,
            0,
        )?;
    }
    // An edit goes to a page of its own, and the old one is locked.
    for pair in 0..8 {
        let line = (pair + 33, Ask::Append(2 * u64::from(pair), b""), "Ok");
        counted(&rt, &mut world, line, 7 - pair, pair + 1)?;
    }
    // With the end one of the two is free again.
    for pair in 0..4 {
        let line = (2 * pair + 33, Ask::Commit, "Ok");
        counted(&rt, &mut world, line, 2 * pair + 1, 7 - 2 * pair)?;
        let line = (2 * pair + 34, Ask::Abort, "Ok");
        counted(&rt, &mut world, line, 2 * pair + 2, 6 - 2 * pair)?;
    }
    is_left(&rt, world, 8, Some(0));
    Ok(())
}
