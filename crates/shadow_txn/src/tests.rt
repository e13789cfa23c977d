//! Transactions as worked by hand, and that calls succeed with ample memory.

ghost use Rattle.std.specs.Prelude.{◌≡◌, ◌≤◌, ◌^◌, [], None, All, IfSome, IfOk, length, vec_len};

use crate::test_session::TestSession;
use crate::{BeginFail, HoldFail, PlainObject, Txn, TxnFail};
use eos_ops::{Act, Annals, Blank, Bytes, Command, Edit, Kept, LAST_STAMP, Payload, Plain, Reply};
use std::alloc::{AllocError, Global};
use std::process::Abort;
use std::test::Fail;

/// Absent objects with these last stamps.
fn objects_at(alloc: Global, stamps: &[u64]) -> Result<Vec<PlainObject<Blank>>, AllocError>
    requires { All (λ s. s ≤ 2 ^ 62) stamps.now }
    ensures rests { IfOk result (λ objects. All (λ x. x.working ≡ None) objects.items) }
    ensures count { IfOk result (λ objects. vec_len objects ≡ length stamps.now) }
{
    let mut objects = Vec::new(alloc);
    for stamp in stamps {
        objects.push(PlainObject {
            committed: Plain::Absent,
            working: None,
            annals: Blank::at(*stamp),
        })?;
    }
    Ok(objects)
}

fn absent<H: Annals>(alloc: Global) -> PlainObject<H>
    ensures rests { result.working ≡ None }
    ensures new { IfSome (H.told result.annals) (λ ends. ends ≡ []) }
{
    PlainObject {
        committed: Plain::Absent,
        working: None,
        annals: H::start(alloc),
    }
}

/// Session 1 over two absent objects.
fn session_of_two<H: Annals>(alloc: Global) -> Result<TestSession<H>, AllocError> {
    let mut objects = Vec::new(alloc);
    objects.push(absent(alloc))?;
    objects.push(absent(alloc))?;
    TestSession::new(alloc, objects)
}

#[test]
fn stamps_end_at_the_last_one(rt: HostRuntime) -> Result<(), Fail> {
    let objects = objects_at(rt.alloc(), &[LAST_STAMP, LAST_STAMP - 1])?;
    let mut session = TestSession::new(rt.alloc(), objects)?;
    assert_eq!(rt; session.begin(), Ok(()));
    assert_eq!(rt; session.begin(), Err(BeginFail::Active));
    assert_eq!(rt; session.hold(&rt, 0), Err(HoldFail::Worn));
    assert_eq!(rt; session.hold(&rt, 1), Ok(()));
    assert_eq!(rt; session.hold(&rt, 2), Err(HoldFail::NoObject));
    assert_eq!(rt; session.commit(&rt), LAST_STAMP);
    assert_eq!(rt; session.begin(), Err(BeginFail::Worn));
    Ok(())
}

fn bytes(alloc: Global, text: &str) -> Result<Bytes, AllocError> {
    Ok(Bytes::from_vec(Vec::from_slice(alloc, text.as_bytes())?))
}

fn is_bytes(plain: &Plain, text: &str) -> bool {
    matches!(plain, Plain::Present(bytes) if bytes.as_slice() == text.as_bytes())
}

/// Creates object 0 with the bytes `abc`, asks for its length and its last two bytes, and for more.
fn make_object<H: Annals>(
    rt: &impl Abort,
    alloc: Global,
    session: &mut TestSession<H>,
) -> Result<(), Fail> {
    assert_eq!(rt; session.begin(), Ok(()));
    assert_eq!(rt; session.hold(rt, 0), Ok(()));
    assert_eq!(rt; session.length(rt, 0), Err(TxnFail::Missing));
    let create = Edit::Create { threshold: Some(2) };
    assert_eq!(rt; session.edit(rt, 0, &create), Ok(()));
    assert_eq!(rt; session.edit(rt, 0, &create), Err(TxnFail::Exists));
    assert_eq!(rt;
        session.edit(rt, 0, &Edit::Append(bytes(alloc, "abc")?)),
        Ok(())
    );
    assert_eq!(rt; session.length(rt, 0), Ok(3));
    let Ok(part) = session.read(rt, 0, 1, 2) else {
        return Err(Fail::from("the bytes are there"));
    };
    assert_eq!(rt; part.as_slice(), b"bc".as_slice());
    assert!(rt; matches!(session.read(rt, 0, 2, 2), Err(TxnFail::Range(3))));
    assert_eq!(rt;
        session.edit(rt, 0, &Edit::Delete { at: 4, len: 0 }),
        Err(TxnFail::Range(3))
    );
    Ok(())
}

fn is_append(act: &Act, text: &str) -> bool {
    match act {
        Act {
            command: Command::Append {
                object: 0,
                payload: Payload::Given(bytes),
            },
            reply: Reply::Ok,
        } => bytes.as_slice() == text.as_bytes(),
        _ => false,
    }
}

fn is_read(act: &Act, text: &str) -> bool {
    match act {
        Act {
            command: Command::Read {
                object: 0,
                at: 1,
                len: 2,
            },
            reply: Reply::Bytes(bytes),
        } => bytes.as_slice() == text.as_bytes(),
        _ => false,
    }
}

/// Whether act `i` of the worked transaction is this one.
fn is_worked(i: usize, act: &Act) -> bool {
    match (i, &act.command, &act.reply) {
        (0, Command::Length { object: 0 }, Reply::Missing) => true,
        (
            1,
            Command::Create {
                object: 0,
                threshold: Some(2),
            },
            Reply::Ok,
        ) => true,
        (2, Command::Create { .. }, Reply::Exists) => true,
        (3, _, _) => is_append(act, "abc"),
        (4, Command::Length { object: 0 }, Reply::Length(3)) => true,
        (5, _, _) => is_read(act, "bc"),
        (
            6,
            Command::Read {
                object: 0,
                at: 2,
                len: 2,
            },
            Reply::Range(3),
        ) => true,
        (
            7,
            Command::Delete {
                object: 0,
                at: 4,
                len: 0,
            },
            Reply::Range(3),
        ) => true,
        _ => false,
    }
}

#[test]
fn kept_annals_get_the_acts_of_a_commit(rt: HostRuntime) -> Result<(), Fail> {
    let mut session: TestSession<Kept> = session_of_two(rt.alloc())?;
    make_object(&rt, rt.alloc(), &mut session)?;
    assert_eq!(rt; session.hold(&rt, 1), Ok(()));
    assert_eq!(rt; session.commit(&rt), 1);
    let Ok(object) = session.into_object(&rt, 0) else {
        return Err(Fail::from("the object is home"));
    };
    assert!(rt; is_bytes(&object.committed, "abc"));
    let ends = object.annals.as_slice();
    assert_eq!(rt; ends.len(), 1);
    for end in ends {
        assert_eq!(rt;
            (end.stamp, end.session, end.number, end.committed),
            (1, 1, 1, true)
        );
        assert_eq!(rt; end.acts.as_slice().len(), 8);
        for (i, act) in end.acts.as_slice().iter().enumerate() {
            assert!(rt; is_worked(i, act), "act {i}");
        }
    }
    Ok(())
}

#[test]
fn kept_annals_get_the_acts_of_an_abort(rt: HostRuntime) -> Result<(), Fail> {
    let mut session: TestSession<Kept> = session_of_two(rt.alloc())?;
    assert_eq!(rt; session.begin(), Ok(()));
    assert_eq!(rt; session.commit(&rt), 1);
    make_object(&rt, rt.alloc(), &mut session)?;
    assert_eq!(rt; session.abort(&rt), 2);
    let Ok(object) = session.into_object(&rt, 0) else {
        return Err(Fail::from("the object is home"));
    };
    assert!(rt; matches!(object.committed, Plain::Absent));
    let ends = object.annals.as_slice();
    assert_eq!(rt; ends.len(), 1);
    for end in ends {
        assert_eq!(rt;
            (end.stamp, end.session, end.number, end.committed),
            (2, 1, 2, false)
        );
        assert_eq!(rt; end.acts.as_slice().len(), 8);
    }
    Ok(())
}

#[test]
fn blank_annals_get_the_stamps(rt: HostRuntime) -> Result<(), Fail> {
    let mut session: TestSession<Blank> = session_of_two(rt.alloc())?;
    make_object(&rt, rt.alloc(), &mut session)?;
    assert_eq!(rt; session.abort(&rt), 1);
    make_object(&rt, rt.alloc(), &mut session)?;
    assert_eq!(rt; session.commit(&rt), 2);
    let Ok(object) = session.into_object(&rt, 0) else {
        return Err(Fail::from("the object is home"));
    };
    assert!(rt; is_bytes(&object.committed, "abc"));
    assert_eq!(rt; object.annals.last_stamp(), 2);
    Ok(())
}

#[test]
fn an_object_that_is_held_is_busy(rt: HostRuntime) -> Result<(), Fail> {
    let mut session: TestSession<Blank> = session_of_two(rt.alloc())?;
    let mut other = Txn::new(rt.alloc(), 2, 2)?;
    assert_eq!(rt; other.begin(), Ok(()));
    make_object(&rt, rt.alloc(), &mut session)?;
    session.finds_busy(&rt, &mut other, 0);
    assert_eq!(rt; session.commit(&rt), 1);
    let mut session = session.hand_over(&rt, other);
    assert_eq!(rt; session.hold(&rt, 0), Ok(()));
    assert_eq!(rt; session.length(&rt, 0), Ok(3));
    assert_eq!(rt; session.commit(&rt), 2);
    Ok(())
}
