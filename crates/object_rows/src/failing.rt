//! Edits some call of which fails on the device: all is as before, and the next try is made.

use crate::rows::{Step, Trees, answers, has_bytes};
use crate::store::{Role, Store};
use eos_ops::Outcome;
use object_body::EditFail;
use std::alloc::Global;
use std::process::Abort;
use std::test::Fail;
use tree_model::Root;

/// What an object and the space show.
#[derive(Drop)]
struct Sight {
    root: Option<Root>,
    threshold: u16,
    bytes: Vec<u8>,
    roles: Vec<Role>,
}

/// What the object and the space show, through a device that doesn't fail.
fn look(rt: &impl Abort, alloc: Global, store: &mut Trees) -> Result<Sight, Fail> {
    store.mend(alloc);
    let (root, threshold) = (store.root(), store.threshold());
    let length = store.length().unwrap_or(0);
    let bytes = store.read(rt, alloc, 0, length);
    let bytes = bytes.expect(rt, "a read").into_vec();
    let roles = store.roles(alloc)?;
    Ok(Sight {
        root,
        threshold,
        bytes,
        roles,
    })
}

/// Both show the same.
fn assert_same(rt: &impl Abort, one: &Sight, other: &Sight) {
    assert!(rt; one.root == other.root, "the roots");
    assert_eq!(rt; one.threshold, other.threshold);
    assert!(rt; one.bytes.as_slice() == other.bytes.as_slice(), "the bytes");
    assert!(rt; one.roles.as_slice() == other.roles.as_slice(), "the pages");
}

/// An object of 512 bytes, committed, and after it these edits.
fn store_after(rt: &impl Abort, alloc: Global, steps: &[Step]) -> Result<Trees, Fail> {
    let mut store = Store::new(alloc, 4, 0)?;
    answers(rt, alloc, &mut store, Step::Create(None), Ok(Outcome::Done))?;
    answers(
        rt,
        alloc,
        &mut store,
        Step::Append(512, 0),
        Ok(Outcome::Done),
    )?;
    store.commit();
    for step in steps {
        answers(rt, alloc, &mut store, *step, Ok(Outcome::Done))?;
    }
    Ok(store)
}

/// Makes an edit while the `call`th read or write fails. It is refused, and all is as before; or it
/// has no such call and is made. Says whether it was refused.
fn is_refused(
    rt: &impl Abort,
    alloc: Global,
    store: &mut Trees,
    step: Step,
    write: bool,
    call: u64,
) -> Result<bool, Fail> {
    let before = look(rt, alloc, store)?;
    store.fail(alloc, write, call)?;
    let edit = crate::rows::edit_of(rt, alloc, step)?;
    let answer = store.edit(alloc, &edit);
    store.mend(alloc);
    if answer == Ok(Outcome::Done) {
        return Ok(false);
    }
    assert_eq!(rt; answer, Err(EditFail::Fault));
    let after = look(rt, alloc, store)?;
    assert_same(rt, &before, &after);
    Ok(true)
}

/// Makes a read or write of an edit fail, which is made behind others, and then the edit. The bytes
/// at 254 are these then, and the committed ones after an abort. Says whether the call failed.
fn fails_at(
    rt: &impl Abort,
    alloc: Global,
    steps: &[Step],
    step: Step,
    write: bool,
    call: u64,
    bytes: &[u8],
) -> Result<bool, Fail> {
    let mut store = store_after(rt, alloc, steps)?;
    let failed = is_refused(rt, alloc, &mut store, step, write, call)?;
    if failed {
        answers(rt, alloc, &mut store, step, Ok(Outcome::Done))?;
    }
    has_bytes(rt, alloc, &mut store, 254, bytes);
    store.abort();
    assert_eq!(rt; store.counts(), (13, 0));
    has_bytes(rt, alloc, &mut store, 254, b"\xf3\xfa\x01\x08");
    Ok(failed)
}

/// Makes each read or each write of an edit fail, and says how many there are.
fn fails_everywhere(
    rt: &impl Abort,
    alloc: Global,
    steps: &[Step],
    step: Step,
    write: bool,
    bytes: &[u8],
) -> Result<u64, Fail> {
    for call in 0..100 {
        if !fails_at(rt, alloc, steps, step, write, call + 1, bytes)? {
            return Ok(call);
        }
    }
    Err(Fail::from("so many calls"))
}

/// The first insert into a committed object, and the second one, which leaves pages of the same
/// transaction. Each writes a segment and a node, and reads the bytes that it merges.
#[test]
fn an_insert_that_fails_leaves_all_as_it_was(rt: HostRuntime) -> Result<(), Fail> {
    let dash = Step::Dash(255);
    let cases: [(&[Step], &[u8]); 2] = [
        (&[], b"\xf3\x2d\xfa\x01\x08"),
        (&[dash], b"\xf3\x2d\x2d\xfa\x01"),
    ];
    for (before, bytes) in cases {
        let writes = fails_everywhere(&rt, rt.alloc(), before, dash, true, bytes)?;
        let reads = fails_everywhere(&rt, rt.alloc(), before, dash, false, bytes)?;
        assert!(rt; writes >= 2 && reads >= 1, "{writes} writes, {reads} reads");
    }
    Ok(())
}

/// Two appends each: the second is written behind the last segment, on pages of its own behind it,
/// on new pages with what it is merged with, and on new pages alone.
#[test]
fn an_append_that_fails_leaves_the_spare_pages(rt: HostRuntime) -> Result<(), Fail> {
    let bytes = b"\xf3\xfa\x01\x08".as_slice();
    for (first, second) in [(256, 256), (300, 300), (256, 100), (1, 512)] {
        let (first, second) = (Step::Append(first, 1), Step::Append(second, 2));
        let writes = fails_everywhere(&rt, rt.alloc(), &[], first, true, bytes)?;
        assert!(rt; writes >= 2, "the first has {writes} writes");
        let writes = fails_everywhere(&rt, rt.alloc(), &[first], second, true, bytes)?;
        assert!(rt; writes >= 2, "the second has {writes} writes");
        let reads = fails_everywhere(&rt, rt.alloc(), &[first], second, false, bytes)?;
        assert!(rt; reads <= 4, "the second has {reads} reads");
    }
    Ok(())
}
