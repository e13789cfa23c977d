//! Rows: what is done with the two objects of a store, and what is found.

ghost use Rattle.std.specs.Prelude.{IfOk};
ghost use Rattle.object_body.specs.Form.{NamesThreshold};

use crate::store::Store;
use eos_ops::{Bytes, Edit, Outcome, Payload};
use object_body::EditFail;
use object_state::TreeBody;
use page_port::MemPort;
use std::alloc::Global;
use std::process::Abort;
use std::test::Fail;
use tree_model::Root;

/// A store whose objects are trees.
pub type Trees = Store<TreeBody<MemPort>>;

/// An edit in short.
#[derive(Clone, Copy)]
pub enum Step<'a> {
    Create(Option<u32>),
    /// So many made bytes from this start on come to the end.
    Append(u64, u32),
    /// A dash comes before the byte at this place.
    Dash(u64),
    /// From this place on so many bytes go.
    Delete(u64, u64),
    /// From this place on these bytes stand.
    Replace(u64, &'a [u8]),
}

/// What a row does, or what it finds.
#[derive(Clone, Copy)]
pub enum Row<'a> {
    /// An edit is made.
    Make(Step<'a>),
    /// An edit is refused so many pages.
    NoSpace(Step<'a>, u32),
    Commit,
    Abort,
    /// The other object is in hand.
    Turn,
    Length(Option<u64>),
    /// These bytes stand at this place.
    Bytes(u64, &'a [u8]),
    /// There is one node, on this page, with these entries: their bytes, and their first pages.
    Node(u32, &'a [(u64, u32)]),
    /// So many pages are free, and so many locked.
    Counts(u32, u32),
}

/// So many made bytes from this start on.
pub fn made(alloc: Global, len: u64, start: u32) -> Result<Bytes, Fail> {
    if len > 100_000 {
        return Err(Fail::from("so many bytes"));
    }
    Ok(Payload::Made { len, start }.into_bytes(alloc)?)
}

/// These bytes, once more.
pub fn given(alloc: Global, bytes: &[u8]) -> Result<Bytes, Fail> {
    Ok(Bytes::from_vec(Vec::from_slice(alloc, bytes)?))
}

/// The edit.
pub fn edit_of(rt: &impl Abort, alloc: Global, step: Step) -> Result<Edit, Fail>
    ensures { IfOk result (λ edit. NamesThreshold edit) }
{
    Ok(match step {
        Step::Create(threshold) => {
            if let Some(pages) = threshold {
                assert!(rt; 1 <= pages && pages <= 8192);
            }
            Edit::Create { threshold }
        }
        Step::Append(len, start) => Edit::Append(made(alloc, len, start)?),
        Step::Dash(at) => Edit::Insert {
            at,
            bytes: given(alloc, b"-")?,
        },
        Step::Delete(at, len) => Edit::Delete { at, len },
        Step::Replace(at, bytes) => Edit::Replace {
            at,
            bytes: given(alloc, bytes)?,
        },
    })
}

/// The edit has this answer.
pub fn answers(
    rt: &impl Abort,
    alloc: Global,
    store: &mut Trees,
    step: Step,
    want: Result<Outcome, EditFail>,
) -> Result<(), Fail> {
    let edit = edit_of(rt, alloc, step)?;
    assert_eq!(rt; store.edit(alloc, &edit), want);
    Ok(())
}

/// There is one node, on this page, with these entries.
fn has_node(
    rt: &impl Abort,
    alloc: Global,
    store: &mut Trees,
    page: u32,
    entries: &[(u64, u32)],
) -> Result<(), Fail> {
    let length = store.length().unwrap_or(0);
    let root = Root {
        height: 1,
        page,
        length,
    };
    assert!(rt; store.root() == Some(root), "the root on page {page}");
    let node = store.node(rt, alloc, page)?;
    let pairs = node.pairs.as_slice();
    assert_eq!(rt; (node.level, pairs.len()), (1, entries.len()));
    for (pair, want) in pairs.iter().zip(entries) {
        assert_eq!(rt; (pair.bytes, pair.page), *want);
    }
    Ok(())
}

/// These bytes stand at this place.
pub fn has_bytes(rt: &impl Abort, alloc: Global, store: &mut Trees, at: u64, want: &[u8]) {
    let bytes = store.read(rt, alloc, at, want.len() as u64);
    let bytes = bytes.expect(rt, "a read");
    assert!(rt; bytes.as_slice() == want, "bytes from {at} on");
}

/// Does what a row says, or compares it.
fn play(rt: &impl Abort, alloc: Global, store: &mut Trees, row: Row) -> Result<(), Fail> {
    match row {
        Row::Make(step) => answers(rt, alloc, store, step, Ok(Outcome::Done))?,
        Row::NoSpace(step, pages) => {
            answers(rt, alloc, store, step, Err(EditFail::NoSpace(pages)))?;
        }
        Row::Commit => store.commit(),
        Row::Abort => store.abort(),
        Row::Turn => store.turn(),
        Row::Length(want) => assert_eq!(rt; store.length(), want),
        Row::Bytes(at, want) => has_bytes(rt, alloc, store, at, want),
        Row::Node(page, entries) => has_node(rt, alloc, store, page, entries)?,
        Row::Counts(free, locked) => assert_eq!(rt; store.counts(), (free, locked)),
    }
    Ok(())
}

/// Plays rows on a store of 16 pages, of which the first `used` aren't free.
pub fn play_all(rt: &impl Abort, alloc: Global, used: u32, rows: &[Row]) -> Result<(), Fail> {
    let mut store = Store::new(alloc, 4, used)?;
    for row in rows {
        play(rt, alloc, &mut store, *row)?;
    }
    Ok(())
}
