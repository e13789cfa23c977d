//! Thrown edits of one object, beside a byte string and the layout of the plain program.

ghost use Rattle.std.specs.Prelude.{◌≡◌, ◌^◌, ◌<◌, IfOk, length};
ghost use Rattle.object_body.specs.Form.{NamesThreshold};

use crate::levels::{compare, roles_of};
use crate::rows::{Step, Trees, answers, given, has_bytes, made};
use crate::store::{Role, Store};
use eos_ops::{Bytes, Edit, Outcome, Plain, apply_plain};
use layout_model::{Change, Extent};
use object_body::EditFail;
use plain_layout::{Answer, Laid, Pages, Spaces, Tree, granted, laid};
use plain_plan::{Store as Numbers, as_page};
use std::alloc::Global;
use std::process::Abort;
use std::test::Fail;

/// The store: a space of 128 pages of 256 bytes.
const NUMBERS: Numbers = Numbers {
    page: 256,
    order: 7,
    spaces: 1,
    catalog: 1,
    threshold: 2,
};

/// A number that looks thrown.
fn thrown(seed: &mut u64, below: u64) -> u64
    requires { 0 < below }
    ensures { result < below }
{
    *seed = seed
        .wrapping_mul(6_364_136_223_846_793_005)
        .wrapping_add(1_442_695_040_888_963_407);
    (*seed >> 33) % below
}

/// A version of the object by the plain program: its bytes, and their layout.
#[derive(Drop)]
struct Version {
    object: Plain,
    tree: Tree,
}

/// An object, and what the plain program has of it.
#[derive(Drop)]
struct Trial {
    store: Trees,
    committed: Version,
    working: Version,
    spare: Option<Extent>,
}

/// The bytes of a version.
fn bytes_of(version: &Version) -> Result<&[u8], Fail> {
    match &version.object {
        Plain::Present(bytes) => Ok(bytes.as_slice()),
        Plain::Absent => Err(Fail::from("no object")),
    }
}

/// A version of no byte with this threshold.
fn empty(alloc: Global, threshold: u64) -> Version {
    Version {
        object: Plain::Present(Bytes::new(alloc)),
        tree: Tree::new(Vec::new(alloc), threshold),
    }
}

/// The same version once more.
fn copy(alloc: Global, version: &Version) -> Result<Version, Fail> {
    let bytes = given(alloc, bytes_of(version)?)?;
    match version.tree.copy(alloc) {
        Ok(tree) => Ok(Version {
            object: Plain::Present(bytes),
            tree,
        }),
        Err(_) => Err(Fail::from("a copy")),
    }
}

/// How many bytes: mostly some hundred, and now and then none or some thousand.
fn thrown_size(seed: &mut u64) -> u64
    ensures { result < 5000 }
{
    match thrown(seed, 16) {
        0 => 0,
        1 => thrown(seed, 4000),
        2 => 256 * (thrown(seed, 4) + 1),
        _ => thrown(seed, 500) + 1,
    }
}

/// An edit of an object of this length. Now and then it lies beyond its end; of a long one more is
/// deleted than comes.
fn thrown_edit(alloc: Global, seed: &mut u64, length: u64) -> Result<Edit, Fail>
    requires { length < 2 ^ 63 }
    ensures { IfOk result (λ edit. NamesThreshold edit) }
{
    let at = if thrown(seed, 32) == 0 {
        length + 1
    } else {
        thrown(seed, length + 1)
    };
    let n = thrown_size(seed);
    let start = thrown(seed, 1000) as u32;
    let kind = if length > 12_000 { 5 } else { thrown(seed, 8) };
    Ok(match kind {
        0 | 1 => Edit::Insert {
            at,
            bytes: made(alloc, n, start)?,
        },
        2 | 3 | 4 => Edit::Append(made(alloc, n, start)?),
        5 | 6 => Edit::Delete {
            at,
            len: n.min(length.saturating_sub(at) + thrown(seed, 2)),
        },
        _ => Edit::Replace {
            at,
            bytes: made(alloc, n.min(length.saturating_sub(at)), start)?,
        },
    })
}

/// An edit as a change of an object of this length.
fn change_of(edit: &Edit, length: u64) -> Change {
    let (at, removed, added, appends) = match edit {
        Edit::Create { .. } | Edit::Destroy => (0, 0, 0, false),
        Edit::Append(bytes) => (length, 0, bytes.len(), true),
        Edit::Insert { at, bytes } => (*at, 0, bytes.len(), false),
        Edit::Delete { at, len } => (*at, *len, 0, false),
        Edit::Replace { at, bytes } => (*at, bytes.len(), bytes.len(), false),
    };
    Change {
        at,
        removed,
        added,
        appends,
    }
}

/// The free pages of the space.
fn free_of(alloc: Global, roles: &[Role]) -> Result<Spaces, Fail> {
    let mut free = Vec::new(alloc);
    for role in roles {
        free.push(*role == Role::Free)?;
    }
    let rows = Vec::from_array(alloc, [Pages::from_vec(free)])?;
    Ok(Spaces::from_vec(rows))
}

/// What the plain program makes of a change: a tree and a spare, or the pages that it is refused.
fn plain_layout(
    alloc: Global,
    trial: &Trial,
    change: Change,
    free: &Spaces,
) -> Result<Result<Laid, u32>, Fail> {
    let (tree, spare) = (&trial.working.tree, trial.spare);
    let Ok(answer) = granted(alloc, &NUMBERS, 0, tree, spare, change, free) else {
        return Err(Fail::from("no grants"));
    };
    match answer {
        Answer::Refused { pages } => match as_page(pages) {
            Ok(pages) => Ok(Err(pages)),
            Err(_) => Err(Fail::from("so many pages")),
        },
        Answer::Got { value: grants, .. } => {
            match laid(alloc, &NUMBERS, tree, spare, change, &grants) {
                Ok(laid) => Ok(Ok(laid)),
                Err(_) => Err(Fail::from("no layout")),
            }
        }
    }
}

/// The object has the bytes and the layout that the plain program has, and so have the pages.
fn check(rt: &impl Abort, alloc: Global, trial: &mut Trial) -> Result<(), Fail> {
    let bytes = bytes_of(&trial.working)?;
    let length = bytes.len() as u64;
    has_bytes(rt, alloc, &mut trial.store, 0, bytes);
    let levels = trial.working.tree.levels();
    compare(rt, alloc, &mut trial.store, levels, length)?;
    let roles = trial.store.roles(alloc)?;
    let (committed, working) = (&trial.committed.tree, &trial.working.tree);
    let want = roles_of(alloc, roles.len(), committed, working, trial.spare)?;
    assert!(rt; roles.as_slice() == want.as_slice(), "the pages");
    Ok(())
}

/// What the edit makes of the plain object and of its layout.
fn edit_plain(
    alloc: Global,
    trial: &mut Trial,
    edit: &Edit,
) -> Result<Result<Outcome, EditFail>, Fail> {
    let outcome = edit.outcome(&trial.working.object);
    let length = bytes_of(&trial.working)?.len() as u64;
    let change = change_of(edit, length);
    if outcome != Outcome::Done || (change.removed == 0 && change.added == 0) {
        return Ok(Ok(outcome));
    }
    let roles = trial.store.roles(alloc)?;
    let free = free_of(alloc, &roles)?;
    match plain_layout(alloc, trial, change, &free)? {
        Err(pages) => Ok(Err(EditFail::NoSpace(pages))),
        Ok(laid) => {
            trial.spare = laid.spare();
            trial.working.tree = laid.into_tree();
            Ok(Ok(apply_plain(alloc, edit, &mut trial.working.object)?))
        }
    }
}

/// A thrown edit.
fn step(rt: &impl Abort, alloc: Global, seed: &mut u64, trial: &mut Trial) -> Result<(), Fail> {
    let length = bytes_of(&trial.working)?.len() as u64;
    let edit = thrown_edit(alloc, seed, length)?;
    let want = edit_plain(alloc, trial, &edit)?;
    assert_eq!(rt; trial.store.edit(alloc, &edit), want);
    check(rt, alloc, trial)
}

/// The end of a transaction.
fn end(rt: &impl Abort, alloc: Global, trial: &mut Trial, commits: bool) -> Result<(), Fail> {
    trial.spare = None;
    if commits {
        trial.store.commit();
        trial.committed = copy(alloc, &trial.working)?;
    } else {
        trial.store.abort();
        trial.working = copy(alloc, &trial.committed)?;
    }
    check(rt, alloc, trial)
}

/// The object is destroyed and made again, with this threshold.
fn make_again(
    rt: &impl Abort,
    alloc: Global,
    trial: &mut Trial,
    threshold: u32,
) -> Result<(), Fail> {
    let done = Ok(Outcome::Done);
    assert_eq!(rt; trial.store.edit(alloc, &Edit::Destroy), done);
    let create = Step::Create(Some(threshold));
    answers(rt, alloc, &mut trial.store, create, done)?;
    trial.working = empty(alloc, u64::from(threshold));
    end(rt, alloc, trial, true)
}

/// An object of no byte, committed.
fn start(alloc: Global) -> Result<Trial, Fail> {
    let mut store = Store::new(alloc, NUMBERS.order, 0)?;
    let create = Edit::Create { threshold: None };
    if store.edit(alloc, &create) != Ok(Outcome::Done) {
        return Err(Fail::from("no object"));
    }
    store.commit();
    Ok(Trial {
        store,
        committed: empty(alloc, 2),
        working: empty(alloc, 2),
        spare: None,
    })
}

/// So many edits, with an end after some of them.
fn steps(
    rt: &impl Abort,
    alloc: Global,
    seed: &mut u64,
    trial: &mut Trial,
    count: u32,
) -> Result<(), Fail> {
    for _ in 0..count {
        step(rt, alloc, seed, trial)?;
        match thrown(seed, 16) {
            0 => end(rt, alloc, trial, true)?,
            1 => end(rt, alloc, trial, false)?,
            _ => {}
        }
    }
    Ok(())
}

#[test]
fn edits_are_those_of_the_plain_program(rt: HostRuntime) -> Result<(), Fail> {
    let mut seed = 1;
    let mut trial = start(rt.alloc())?;
    for threshold in [1, 2, 3, 5, 8, 16] {
        make_again(&rt, rt.alloc(), &mut trial, threshold)?;
        steps(&rt, rt.alloc(), &mut seed, &mut trial, 500)?;
    }
    Ok(())
}
