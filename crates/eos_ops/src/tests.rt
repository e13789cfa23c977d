//! Worked edits, and that each allocating call succeeds with ample memory.

ghost use Rattle.std.specs.Prelude.{◌≡◌, [], IfOk};

use crate::{
    Act, Acts, Annals, Blank, Bytes, Command, Edit, End, Kept, LAST_STAMP, MAX_TRANSFER, Outcome,
    Payload, Plain, Reply, apply_plain,
};
use std::alloc::{AllocError, Global};
use std::test::Fail;

fn bytes(alloc: Global, text: &str) -> Result<Bytes, AllocError> {
    Ok(Bytes::from_vec(Vec::from_slice(alloc, text.as_bytes())?))
}

/// An object of this text, absent where there is none.
fn object(alloc: Global, text: Option<&str>) -> Result<Plain, AllocError> {
    match text {
        None => Ok(Plain::Absent),
        Some(text) => Ok(Plain::Present(bytes(alloc, text)?)),
    }
}

fn is_object(object: &Plain, text: Option<&str>) -> bool {
    match (object, text) {
        (Plain::Absent, None) => true,
        (Plain::Present(bytes), Some(text)) => bytes.as_slice() == text.as_bytes(),
        _ => false,
    }
}

#[test]
fn edits_of_an_object(rt: HostRuntime) -> Result<(), Fail> {
    let alloc = rt.alloc();
    let create = Edit::Create { threshold: Some(2) };
    let append = Edit::Append(bytes(alloc, "fg")?);
    let front = Edit::Insert {
        at: 0,
        bytes: bytes(alloc, "xy")?,
    };
    let middle = Edit::Insert {
        at: 2,
        bytes: bytes(alloc, "xy")?,
    };
    let behind = Edit::Insert {
        at: 6,
        bytes: bytes(alloc, "")?,
    };
    let replace = Edit::Replace {
        at: 3,
        bytes: bytes(alloc, "xy")?,
    };
    let too_far = Edit::Replace {
        at: 4,
        bytes: bytes(alloc, "xy")?,
    };
    let wide = Edit::Delete {
        at: 1,
        len: u64::MAX,
    };
    let word = Some("abcde");
    let cases = [
        (&create, None, Outcome::Done, Some("")),
        (&create, word, Outcome::Exists, word),
        (&Edit::Destroy, None, Outcome::Missing, None),
        (&Edit::Destroy, word, Outcome::Done, None),
        (&append, None, Outcome::Missing, None),
        (&append, word, Outcome::Done, Some("abcdefg")),
        (&front, word, Outcome::Done, Some("xyabcde")),
        (&middle, word, Outcome::Done, Some("abxycde")),
        (&middle, Some("ab"), Outcome::Done, Some("abxy")),
        (&middle, None, Outcome::Missing, None),
        (&behind, word, Outcome::Range(5), word),
        (
            &Edit::Delete { at: 1, len: 3 },
            word,
            Outcome::Done,
            Some("ae"),
        ),
        (&Edit::Delete { at: 5, len: 0 }, word, Outcome::Done, word),
        (
            &Edit::Delete { at: 3, len: 3 },
            word,
            Outcome::Range(5),
            word,
        ),
        (&wide, word, Outcome::Range(5), word),
        (&wide, None, Outcome::Missing, None),
        (&replace, word, Outcome::Done, Some("abcxy")),
        (&too_far, word, Outcome::Range(5), word),
        (&replace, None, Outcome::Missing, None),
    ];
    for (i, (edit, before, outcome, after)) in cases.into_iter().enumerate() {
        let mut plain = object(alloc, before)?;
        assert_eq!(rt; apply_plain(alloc, edit, &mut plain)?, outcome, "case {i}");
        assert!(rt; is_object(&plain, after), "case {i}");
    }
    Ok(())
}

#[test]
fn a_part_of_the_bytes_is_copied(rt: HostRuntime) -> Result<(), Fail> {
    let whole = bytes(rt.alloc(), "abcde")?;
    assert!(rt; !whole.is_empty());
    assert_eq!(rt; whole.len(), 5);
    assert_eq!(rt; whole.read(rt.alloc(), 1, 3)?.as_slice(), b"bcd".as_slice());
    assert_eq!(rt; whole.into_vec().as_slice(), b"abcde".as_slice());
    Ok(())
}

#[test]
fn a_command_tells_its_object_and_its_size(rt: HostRuntime) -> Result<(), Fail> {
    let made = Payload::Made {
        len: MAX_TRANSFER + 1,
        start: 0,
    };
    let given = Payload::Given(bytes(rt.alloc(), "ab")?);
    let read = Command::Read {
        object: 3,
        at: 0,
        len: MAX_TRANSFER,
    };
    let cases = [
        (Command::Begin, None, false),
        (Command::Commit, None, false),
        (Command::Destroy { object: 7 }, Some(7), false),
        (read, Some(3), false),
        (
            Command::Append {
                object: 1,
                payload: made,
            },
            Some(1),
            true,
        ),
        (
            Command::Replace {
                object: 2,
                at: 9,
                payload: given,
            },
            Some(2),
            false,
        ),
    ];
    for (command, object, too_long) in &cases {
        assert_eq!(rt; command.object(), *object);
        assert_eq!(rt; command.is_too_long(), *too_long);
    }
    Ok(())
}

/// The end of transaction 1 of session 5, which created object 0.
fn end_at(alloc: Global, stamp: u64) -> Result<End, AllocError>
    ensures { IfOk result (λ end. end.stamp ≡ stamp) }
{
    let mut acts = Acts::new(alloc);
    acts.push(Act {
        command: Command::Create {
            object: 0,
            threshold: None,
        },
        reply: Reply::Ok,
    })?;
    Ok(End {
        stamp,
        session: 5,
        number: 1,
        acts: Acts::from_vec(acts.into_vec()),
        committed: true,
    })
}

#[test]
fn kept_annals_have_their_ends(rt: HostRuntime) -> Result<(), Fail> {
    let mut annals = Kept::start(rt.alloc());
    assert!(rt; annals.keeps());
    assert_eq!(rt; annals.ends(), 0);
    assert_eq!(rt; annals.last_stamp(), 0);
    annals.reserve(2)?;
    annals.append_end(end_at(rt.alloc(), 4)?);
    annals.append_end(end_at(rt.alloc(), LAST_STAMP)?);
    assert_eq!(rt; annals.ends(), 2);
    assert_eq!(rt; annals.last_stamp(), LAST_STAMP);
    for (end, stamp) in annals.as_slice().iter().zip([4, LAST_STAMP]) {
        assert_eq!(rt; end.stamp, stamp);
        assert_eq!(rt; end.acts.as_slice().len(), 1);
    }
    Ok(())
}

#[test]
fn blank_annals_have_the_last_stamp_alone(rt: HostRuntime) -> Result<(), Fail> {
    let mut annals = Blank::at(3);
    annals.reserve(usize::MAX)?;
    annals.append_end(end_at(rt.alloc(), 4)?);
    assert!(rt; !annals.keeps());
    assert_eq!(rt; annals.ends(), 0);
    assert_eq!(rt; annals.last_stamp(), 4);
    assert_eq!(rt; Blank::start(rt.alloc()).last_stamp(), 0);
    Ok(())
}
