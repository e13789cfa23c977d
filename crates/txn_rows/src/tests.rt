//! Transactions worked by hand over a store of one space of 16 pages, with 32 objects that are
//! absent at first.

ghost use Rattle.std.specs.Prelude.{◌≡◌, IfSome, OnOk, true};
ghost use Rattle.geometry_model.specs.Numbers.{Numbers};
ghost use Rattle.object_body.specs.Places.{IsReady};
ghost use Rattle.superdirectory.specs.Solo.{rest_of};
ghost use Rattle.txn_rows.specs.Session.{small, AreFresh};

use crate::session::Session;
use body_double::PageBody;
use eos_ops::{Annals, Blank, Bytes, Edit, Kept, Plain};
use object_body::{Body, Object};
use page_port::{Bay, Geometry, MemBay, MemPort, MemSpan, Span};
use plain_body::PlainBody;
use shadow_txn::{BeginFail, HoldFail, TxnFail};
use space_directory::Space;
use std::alloc::{AllocError, Global};
use std::process::Abort;
use superdirectory::Solo;

/// Pages of 256 bytes, one space, pages 4 to 19, all of them free.
fn free_space(alloc: Global) -> Option<Solo<MemSpan>>
    ensures ready { IfSome result (λ solo. IsReady
        small (rest_of solo)) }
{
    let mut bay = MemBay::new(alloc, Vec::new(alloc), Vec::new(alloc));
    let Ok(()) = bay.prepare(5120) else {
        return None;
    };
    let Ok(mut span) = bay.mount(256, 20) else {
        return None;
    };
    let _head = span.cut(4);
    let mut page = [0; 256];
    page[0] = b'D';
    page[1] = b'I';
    page[2] = b'R';
    page[3] = b'1';
    page[11] = 16;
    page[16] = 255;
    page[17] = 255;
    let geometry = Geometry::new(256, 4, 1, 2, 2)?;
    let space = match Space::read_page(alloc, &geometry, 0, &page, span) {
        Ok(read) => read.space,
        Err(_) => return None,
    };
    let Ok(spaces) = Vec::from_array(alloc, [space]) else {
        return None;
    };
    match Solo::new(alloc, spaces) {
        Ok(solo) => Some(solo),
        Err(_) => None,
    }
}

/// What a row does, and what it is answered.
#[derive(Drop)]
enum Row {
    Begin(Result<(), BeginFail>),
    /// Says whether it takes the object in this row.
    Hold(u64, Result<bool, HoldFail>),
    Create(u64, Result<(), TxnFail>),
    /// Five bytes more.
    Append(u64, Result<(), TxnFail>),
    /// No byte more.
    AppendNone(u64, Result<(), TxnFail>),
    /// A byte at this place.
    Insert(u64, u64, Result<(), TxnFail>),
    Destroy(u64, Result<(), TxnFail>),
    Length(u64, Result<u64, TxnFail>),
    /// So many bytes from this one on.
    Read(u64, u64, u64, Result<(), TxnFail>),
    Commit(u64),
    Abort(u64),
    /// So many pages are free, and so many locked.
    Counts(u32, u32),
}

/// Does what a row says, and compares the answer.
fn play<B: Body<P = MemPort>, H: Annals>(
    rt: &impl Abort,
    alloc: Global,
    session: &mut Session<B, H>,
    row: Row,
) {
    match row {
        Row::Begin(want) => assert_eq!(rt; session.begin(), want),
        Row::Hold(o, want) => assert_eq!(rt; session.hold(rt, o), want),
        Row::Create(o, want) => {
            let create = Edit::Create { threshold: None };
            assert_eq!(rt; session.edit(rt, o, &create), want);
        }
        Row::Append(o, want) => {
            let Ok(items) = Vec::from_slice(alloc, b"abcde") else {
                return assert!(rt; false);
            };
            let append = Edit::Append(Bytes::from_vec(items));
            assert_eq!(rt; session.edit(rt, o, &append), want);
        }
        Row::AppendNone(o, want) => {
            let append = Edit::Append(Bytes::from_vec(Vec::new(alloc)));
            assert_eq!(rt; session.edit(rt, o, &append), want);
        }
        Row::Insert(o, at, want) => {
            let Ok(items) = Vec::from_slice(alloc, b"A") else {
                return assert!(rt; false);
            };
            let bytes = Bytes::from_vec(items);
            assert_eq!(rt; session.edit(rt, o, &Edit::Insert { at, bytes }), want);
        }
        Row::Destroy(o, want) => assert_eq!(rt; session.edit(rt, o, &Edit::Destroy), want),
        Row::Length(o, want) => assert_eq!(rt; session.length(rt, o), want),
        Row::Read(o, at, len, want) => match session.read(rt, o, at, len) {
            Ok(bytes) => {
                assert_eq!(rt; bytes.len(), len);
                assert_eq!(rt; Ok(()), want);
            }
            Err(fail) => assert_eq!(rt; Err(fail), want),
        },
        Row::Commit(stamp) => assert_eq!(rt; session.commit(rt), stamp),
        Row::Abort(stamp) => assert_eq!(rt; session.abort(rt), stamp),
        Row::Counts(free, locked) => assert_eq!(rt; session.counts(), (free, locked)),
    }
}

/// Adds an object over this body, without ends.
fn add<B: Body, H: Annals>(
    alloc: Global,
    objects: &mut Vec<Object<B, H>>,
    body: B,
) -> Result<(), AllocError>
    requires { (B.form body).is_resting ≡ true }
    ensures { OnOk result ((n : Numbers) → (B.form body).numbers ≡ n
        → AreFresh B.form H.told n objects.old.items
        → AreFresh B.form H.told n objects.new.items) }
{
    let annals = H::start(alloc);
    objects.push(Object { body, annals })?;
    Ok(())
}

/// A session over the store, whose objects are these.
fn session_over<B: Body<P = MemPort>, H: Annals>(
    alloc: Global,
    geometry: &Geometry,
    objects: Vec<Object<B, H>>,
) -> Option<Session<B, H>>
    requires store { geometry.now ≡ small }
    requires fresh { AreFresh B.form H.told geometry.now objects.items }
{
    let spaces = free_space(alloc)?;
    let port = MemPort::new(256, Vec::new(alloc), Vec::new(alloc));
    Session::new(alloc, geometry, objects, spaces, port).ok()
}

/// Session 1 over absent objects in memory.
fn plain_session<H: Annals>(alloc: Global) -> Option<Session<PlainBody<MemPort>, H>> {
    let geometry = Geometry::new(256, 4, 1, 2, 2)?;
    let mut objects = Vec::new(alloc);
    'adds: for _ in 0..32 {
        let body = PlainBody::new(&geometry, Plain::Absent);
        let Ok(()) = add(alloc, &mut objects, body) else {
            return None;
        };
    }
    session_over(alloc, &geometry, objects)
}

/// Session 1 over absent objects each of whose versions stands on one page.
fn page_session<H: Annals>(alloc: Global) -> Option<Session<PageBody<MemPort>, H>> {
    let geometry = Geometry::new(256, 4, 1, 2, 2)?;
    let mut objects = Vec::new(alloc);
    'adds: for _ in 0..32 {
        let body = PageBody::new(&geometry);
        let Ok(()) = add(alloc, &mut objects, body) else {
            return None;
        };
    }
    session_over(alloc, &geometry, objects)
}

#[test]
fn a_commit_keeps_what_an_abort_loses(rt: HostRuntime) {
    let Some(mut session) = plain_session::<Kept>(rt.alloc()) else {
        return assert!(rt; false);
    };
    for row in [
        Row::Begin(Ok(())),
        Row::Begin(Err(BeginFail::Active)),
        Row::Hold(32, Err(HoldFail::NoObject)),
        Row::Hold(3, Ok(true)),
        Row::Length(3, Err(TxnFail::Missing)),
        Row::Append(3, Err(TxnFail::Missing)),
        Row::Create(3, Ok(())),
        Row::Create(3, Err(TxnFail::Exists)),
        Row::Append(3, Ok(())),
        Row::Length(3, Ok(5)),
        Row::Read(3, 1, 4, Ok(())),
        Row::Read(3, 1, 5, Err(TxnFail::Range(5))),
        Row::Commit(1),
        Row::Begin(Ok(())),
        Row::Hold(3, Ok(true)),
        Row::Append(3, Ok(())),
        Row::Length(3, Ok(10)),
        Row::Abort(2),
        Row::Begin(Ok(())),
        Row::Hold(3, Ok(true)),
        Row::Length(3, Ok(5)),
        Row::Counts(16, 0),
        Row::Commit(3),
    ] {
        play(&rt, rt.alloc(), &mut session, row);
    }
}

#[test]
fn what_is_refused_is_refused_by_the_length(rt: HostRuntime) {
    let Some(mut session) = plain_session::<Kept>(rt.alloc()) else {
        return assert!(rt; false);
    };
    for row in [
        Row::Begin(Ok(())),
        Row::Hold(0, Ok(true)),
        Row::Read(0, 0, 0, Err(TxnFail::Missing)),
        Row::Create(0, Ok(())),
        Row::AppendNone(0, Ok(())),
        Row::Length(0, Ok(0)),
        Row::Read(0, 0, 0, Ok(())),
        Row::Read(0, 0, 1, Err(TxnFail::Range(0))),
        Row::Insert(0, 1, Err(TxnFail::Range(0))),
        Row::Create(0, Err(TxnFail::Exists)),
        Row::Insert(0, 0, Ok(())),
        Row::Length(0, Ok(1)),
        Row::Destroy(0, Ok(())),
        Row::Length(0, Err(TxnFail::Missing)),
        Row::Commit(1),
    ] {
        play(&rt, rt.alloc(), &mut session, row);
    }
}

#[test]
fn sixteen_objects_are_held_at_most(rt: HostRuntime) {
    let Some(mut session) = page_session::<Kept>(rt.alloc()) else {
        return assert!(rt; false);
    };
    play(&rt, rt.alloc(), &mut session, Row::Begin(Ok(())));
    for o in 0..16 {
        play(&rt, rt.alloc(), &mut session, Row::Hold(o, Ok(true)));
        play(&rt, rt.alloc(), &mut session, Row::Create(o, Ok(())));
    }
    for row in [
        Row::Counts(0, 0),
        Row::Hold(16, Err(HoldFail::Full)),
        Row::Hold(32, Err(HoldFail::NoObject)),
        Row::Hold(15, Ok(false)),
        Row::Abort(1),
        Row::Counts(16, 0),
        Row::Begin(Ok(())),
        Row::Hold(0, Ok(true)),
        Row::Length(0, Err(TxnFail::Missing)),
        Row::Commit(2),
    ] {
        play(&rt, rt.alloc(), &mut session, row);
    }
}

#[test]
fn pages_go_back_at_the_end(rt: HostRuntime) {
    let Some(mut session) = page_session::<Blank>(rt.alloc()) else {
        return assert!(rt; false);
    };
    for row in [
        Row::Begin(Ok(())),
        Row::Hold(0, Ok(true)),
        Row::Hold(1, Ok(true)),
        Row::Create(0, Ok(())),
        Row::Create(1, Ok(())),
        Row::Counts(14, 0),
        Row::Destroy(1, Ok(())),
        Row::Counts(15, 0),
        Row::Append(0, Err(TxnFail::Memory)),
        Row::Commit(1),
        Row::Counts(15, 0),
        Row::Begin(Ok(())),
        Row::Hold(0, Ok(true)),
        Row::AppendNone(0, Ok(())),
        Row::Counts(14, 1),
        Row::Abort(2),
        Row::Counts(15, 0),
        Row::Begin(Ok(())),
        Row::Hold(0, Ok(true)),
        Row::AppendNone(0, Ok(())),
        Row::Commit(3),
        Row::Counts(15, 0),
        Row::Begin(Ok(())),
        Row::Hold(0, Ok(true)),
        Row::Length(0, Ok(0)),
        Row::Destroy(0, Ok(())),
        Row::Counts(15, 1),
        Row::Commit(4),
        Row::Counts(16, 0),
    ] {
        play(&rt, rt.alloc(), &mut session, row);
    }
}
