//! Planned changes of an object of one segment over a file, worked by hand, and taken back.

ghost use Rattle.std.specs.Prelude.{◌≡◌, IsTrue, IfOk, false};
ghost use Rattle.object_body.specs.Places.{IsReady};
ghost use Rattle.object_change.specs.Scene.{HoldsSpare};
ghost use Rattle.object_rows.specs.Store.{numbers_of};
ghost use Rattle.superdirectory.specs.Solo.{rest_of};
ghost use Rattle.tree_model.specs.Tree.{Pages};
ghost use Rattle.tree_read.specs.Search.{KeepsNodes};

use crate::store::{numbers, space_of};
use eos_ops::made_byte;
use file_port::{FileBay, FilePort, FileSpan};
use layout_model::{Change, Extent};
use object_body::EditFail;
use object_change::{Changed, make_change, take_back};
use object_plan::{Planned, WorkingTree, plan_change};
use page_cache::Cache;
use page_port::{Bay, Geometry, Port, Span};
use space_directory::Counts;
use span_store::Holdings;
use std::alloc::{AllocError, Global};
use std::process::Abort;
use std::test::Fail;
use superdirectory::{Latches, Solo};
use tree_model::{Pair, Root};
use tree_splice::Run;

/// An object whose node is on page 3, and its one segment of two pages behind it with its spare,
/// and what it is changed with.
#[derive(Drop)]
struct Scene {
    geometry: Geometry,
    working: WorkingTree,
    held: Holdings<FileSpan>,
    cache: Cache,
    port: FilePort,
    latches: Solo<FileSpan>,
}

/// A change of an object, and what it leaves.
#[derive(Clone, Copy)]
struct Case<'a> {
    /// How many of the first pages of the space aren't free: those of the object, and more.
    used: u32,
    /// The bytes of the segment.
    bytes: u64,
    /// The spare pages behind it.
    spare: u32,
    change: Change,
    want: Result<Left<'a>, EditFail>,
}

/// What a change leaves.
#[derive(Clone, Copy)]
struct Left<'a> {
    /// The new entries: their bytes, and their first pages.
    entries: &'a [(u64, u32)],
    /// The runs that were granted.
    runs: &'a [(u32, u32)],
    /// The pages of the nodes that were made.
    made: &'a [u32],
    spare: Option<Extent>,
    root: Root,
    free: u32,
}

/// The data pages of a store of one space of 16 pages, and a port to them.
fn opened(rt: &HostRuntime, path: &str) -> Result<(FilePort, FileSpan), AllocError>
    ensures page { IfOk result (λ made. made.0.page ≡ 256) }
    ensures first { IfOk result (λ made. made.1.first ≡ 3) }
    ensures count { IfOk result (λ made. made.1.count ≡ 16) }
{
    let mut bay = FileBay::new(rt.clone()?, rt.alloc(), path)?;
    let Ok(()) = bay.prepare(4864) else {
        return Err(AllocError);
    };
    let Ok(mut pages) = bay.mount(256, 19) else {
        return Err(AllocError);
    };
    let _head = pages.cut(3);
    let Ok(port) = bay.port() else {
        return Err(AllocError);
    };
    Ok((port, pages))
}

/// The bytes of the object, all pages of it: on page 3 a node of one entry, and behind it the
/// segment.
fn object_bytes(bytes: u64) -> [u8; 768] {
    let mut all = [0; 768];
    all[..4].copy_from_slice(b"N\x01\x00\x01");
    all[8..16].copy_from_slice(&bytes.to_be_bytes());
    all[19] = 4;
    for i in 0..bytes.min(512) {
        all[256 + i as usize] = made_byte(0, i);
    }
    all
}

/// The pages of the object, written, and a port to them.
fn written(
    rt: &HostRuntime,
    path: &str,
    case: &Case,
) -> Result<(FilePort, Holdings<FileSpan>), AllocError>
    ensures page { IfOk result (λ made. made.0.page ≡ 256) }
{
    let (mut port, mut pages) = opened(rt, path)?;
    if case.spare > 8 {
        return Err(AllocError);
    }
    let mut span = pages.cut(3 + case.spare);
    let Ok(()) = port.write(&mut span, 0, &object_bytes(case.bytes)) else {
        return Err(AllocError);
    };
    let mut held = Holdings::new(rt.alloc());
    held.reserve(1)?;
    held.add(span);
    Ok((port, held))
}

/// The object as an edit finds it.
fn working_tree(case: &Case) -> WorkingTree
    ensures { result.threshold ≡ 2 }
{
    let spare = Extent {
        page: 6,
        pages: case.spare,
    };
    WorkingTree {
        root: root(1, 3, case.bytes),
        threshold: 2,
        spare: if case.spare > 0 { Some(spare) } else { None },
    }
}

/// Are the spare pages held?
fn holds_spare(held: &Holdings<FileSpan>, working: &WorkingTree) -> bool
    ensures { IsTrue result → HoldsSpare held.now working.now.spare }
{
    match working.spare {
        Some(run) => 1 <= run.pages && held.holds(run.page, run.pages),
        None => true,
    }
}

/// A cache without any node.
fn empty_cache(alloc: Global) -> Result<Cache, AllocError>
    ensures { IfOk result (λ cache. (at : Pages) → KeepsNodes false 256 at cache) }
{
    Cache::new(alloc, 4)
}

/// The object, and the space that its pages are of.
fn scene_of(rt: &HostRuntime, case: &Case) -> Result<Scene, AllocError>
    ensures numbers { IfOk result (λ s. s.geometry ≡ numbers_of 4) }
    ensures page { IfOk result (λ s. s.port.page ≡ 256) }
    ensures ready { IfOk result (λ s. IsReady (numbers_of 4) (rest_of s.latches)) }
    ensures nodes { IfOk result (λ s. (at : Pages) → KeepsNodes false 256 at s.cache) }
    ensures threshold { IfOk result (λ s. s.working.threshold ≡ 2) }
    ensures spare { IfOk result (λ s. HoldsSpare s.held s.working.spare) }
{
    const PATH: &str = "object_rows_changes.img";
    let (port, held) = written(rt, PATH, case)?;
    let (_port, pages) = opened(rt, PATH)?;
    let geometry = numbers(4)?;
    let latches = space_of(rt.alloc(), &geometry, pages, case.used)?;
    let working = working_tree(case);
    if !holds_spare(&held, &working) {
        return Err(AllocError);
    }
    let cache = empty_cache(rt.alloc())?;
    Ok(Scene {
        geometry,
        working,
        held,
        cache,
        port,
        latches,
    })
}

/// How many pages are free. None is locked.
fn free(rt: &impl Abort, latches: &mut Solo<FileSpan>) -> u32
    requires ready { IsReady (numbers_of 4) (rest_of latches.old) }
    ensures ready { IsReady (numbers_of 4) (rest_of latches.new) }
{
    let space = latches.enter(&mut (), 0);
    let Counts { free, locked } = space.counts();
    latches.leave(0, space);
    assert_eq!(rt; locked, 0);
    free
}

/// The object is as it was made.
fn stays(
    rt: &impl Abort,
    working: &WorkingTree,
    held: &Holdings<FileSpan>,
    port: &mut FilePort,
    case: &Case,
) {
    assert_eq!(rt; port.page(), 256);
    let first = working.root.page;
    assert!(rt; held.holds(first, 3), "its pages are held");
    let mut bytes = [0; 768];
    assert!(rt;
        held.read_run(port, first, &mut bytes).is_ok(),
        "a read of it"
    );
    assert!(rt; bytes == object_bytes(case.bytes), "its bytes");
}

/// The bytes from one to another, none where they lie beyond these.
fn between(bytes: &[u8], from: u64, to: u64) -> &[u8] {
    match bytes.get(from as usize..to as usize) {
        Some(found) => found,
        None => &[],
    }
}

/// The bytes that the change makes of those of the entries that it replaces.
fn replaced_bytes(alloc: Global, length: u64, planned: &Planned) -> Result<Vec<u8>, AllocError> {
    let all = object_bytes(length);
    let old = &all[256..];
    let change = planned.change;
    let mut want = Vec::new(alloc);
    want.extend_from_slice(between(old, planned.from, change.at))?;
    want.extend_from_slice(between(&[b'-'; 512], 0, change.added))?;
    let from = change.at.saturating_add(change.removed);
    want.extend_from_slice(between(old, from, planned.to))?;
    Ok(want)
}

/// The bytes of a segment of three pages at most.
fn segment_bytes(
    rt: &impl Abort,
    alloc: Global,
    held: &Holdings<FileSpan>,
    port: &mut FilePort,
    pair: &Pair,
) -> Result<Vec<u8>, AllocError> {
    assert_eq!(rt; port.page(), 256);
    assert!(rt; 1 <= pair.bytes && pair.bytes <= 768);
    let pages = pair.bytes.div_ceil(256) as u32;
    let mut bytes = vec![in alloc; 0; pages as usize * 256]?;
    assert!(rt; held.holds(pair.page, pages), "page {} is held", pair.page);
    assert!(rt;
        held.read_run(port, pair.page, &mut bytes).is_ok(),
        "page {}",
        pair.page
    );
    bytes.truncate(pair.bytes as usize);
    Ok(bytes)
}

/// The entries have these bytes.
fn entries_have(
    rt: &impl Abort,
    alloc: Global,
    held: &Holdings<FileSpan>,
    port: &mut FilePort,
    entries: &[Pair],
    want: &[u8],
) -> Result<(), AllocError> {
    let mut got = Vec::new(alloc);
    for pair in entries {
        let bytes = segment_bytes(rt, alloc, held, port, pair)?;
        got.extend_from_slice(bytes.as_slice())?;
    }
    assert!(rt; got.as_slice() == want, "the bytes of the entries");
    Ok(())
}

/// The pairs are these.
fn are_pairs(rt: &impl Abort, pairs: &[Pair], want: &[(u64, u32)]) {
    assert_eq!(rt; pairs.len(), want.len());
    for (pair, want) in pairs.iter().zip(want) {
        assert_eq!(rt; (pair.bytes, pair.page), *want);
    }
}

/// The runs are these.
fn are_runs(rt: &impl Abort, runs: &[Extent], want: &[(u32, u32)]) {
    assert_eq!(rt; runs.len(), want.len());
    for (run, want) in runs.iter().zip(want) {
        assert_eq!(rt; (run.page, run.pages), *want);
    }
}

/// The nodes stand on these pages.
fn are_nodes(rt: &impl Abort, nodes: &[Run], want: &[u32]) {
    assert_eq!(rt; nodes.len(), want.len());
    for (node, want) in nodes.iter().zip(want) {
        assert_eq!(rt; (node.first, node.pages), (*want, 1));
    }
}

/// A change has left this. The old node isn't used any more.
fn leaves(rt: &impl Abort, working: &WorkingTree, changed: &Changed, want: &Left) {
    are_pairs(rt, changed.entries.as_slice(), want.entries);
    are_runs(rt, changed.runs.as_slice(), want.runs);
    are_nodes(rt, changed.made.as_slice(), want.made);
    are_nodes(rt, changed.left.as_slice(), &[working.root.page]);
    assert!(rt; changed.root == want.root, "the root");
    assert!(rt; changed.spare == want.spare, "the spare");
}

/// None of the pages that a change was granted is held.
fn holds_none(rt: &impl Abort, held: &Holdings<FileSpan>, changed: &Changed) {
    for run in &changed.runs {
        assert!(rt; held.lacks(run.page, run.pages), "page {}", run.page);
    }
    for run in changed.made.as_slice() {
        assert!(rt; held.lacks(run.first, run.pages), "page {}", run.first);
    }
}

/// Makes a change, which is taken back, or refused: all is as before.
fn changes(rt: &impl Abort, alloc: Global, scene: Scene, case: &Case) -> Result<(), Fail>
    requires numbers { scene.geometry ≡ numbers_of 4 }
    requires page { scene.port.page ≡ 256 }
    requires ready { IsReady (numbers_of 4) (rest_of scene.latches) }
    requires nodes { (at : Pages) → KeepsNodes false 256 at scene.cache }
    requires threshold { scene.working.threshold ≡ 2 }
    requires spare { HoldsSpare scene.held scene.working.spare }
{
    let Scene {
        geometry,
        working,
        mut held,
        mut cache,
        mut port,
        mut latches,
    } = scene;
    let before = free(rt, &mut latches);
    let (length, change) = (working.root.length, case.change);
    assert!(rt; length <= 512 && change.added <= 512);
    assert!(rt; change.at <= length && change.removed <= length - change.at);
    assert!(rt; change.removed > 0 || change.added > 0);
    assert!(rt; !change.appends || change.at == length);
    let planned = plan_change(
        alloc,
        &geometry,
        &working,
        case.change,
        &held,
        &mut cache,
        &mut port,
    );
    let Ok(planned) = planned else {
        return Err(Fail::from("a plan"));
    };
    let payload = between(&[b'-'; 512], 0, case.change.added);
    assert_eq!(rt; payload.len() as u64, case.change.added);
    let answer = make_change(
        alloc,
        &geometry,
        &working,
        &planned,
        payload,
        &mut held,
        &mut cache,
        &mut port,
        &mut latches,
        &mut (),
        0,
    );
    match (answer, case.want) {
        (Ok(changed), Ok(want)) => {
            leaves(rt, &working, &changed, &want);
            assert_eq!(rt; free(rt, &mut latches), want.free);
            let bytes = replaced_bytes(alloc, working.root.length, &planned)?;
            let entries = changed.entries.as_slice();
            entries_have(rt, alloc, &held, &mut port, entries, bytes.as_slice())?;
            take_back(
                &geometry,
                &changed,
                &mut held,
                &mut cache,
                &mut latches,
                &mut (),
            );
            holds_none(rt, &held, &changed);
            assert_eq!(rt; free(rt, &mut latches), before);
        }
        (Err(fail), Err(want)) => {
            assert_eq!(rt; fail, want);
            assert_eq!(rt; free(rt, &mut latches), before);
        }
        _ => return Err(Fail::from("the other answer")),
    }
    stays(rt, &working, &held, &mut port, case);
    Ok(())
}

/// A change that removes and brings so many bytes.
fn exchange(at: u64, removed: u64, added: u64, appends: bool) -> Change {
    Change {
        at,
        removed,
        added,
        appends,
    }
}

/// The root on a page.
fn root(height: u8, page: u32, length: u64) -> Root {
    Root {
        height,
        page,
        length,
    }
}

fn run(page: u32, pages: u32) -> Option<Extent> {
    Some(Extent { page, pages })
}

#[test]
fn a_change_is_made_and_taken_back(rt: HostRuntime) -> Result<(), Fail> {
    let cases = [
        // One byte in the middle: it is merged with what stands before it.
        Case {
            used: 3,
            bytes: 512,
            spare: 0,
            change: exchange(255, 0, 1, false),
            want: Ok(Left {
                entries: &[(257, 7), (256, 5)],
                runs: &[(7, 2)],
                made: &[6],
                spare: None,
                root: root(1, 6, 513),
                free: 10,
            }),
        },
        // A page more at the end, which gets four of its own.
        Case {
            used: 3,
            bytes: 512,
            spare: 0,
            change: exchange(512, 0, 256, true),
            want: Ok(Left {
                entries: &[(256, 7)],
                runs: &[(7, 4)],
                made: &[6],
                spare: run(8, 3),
                root: root(1, 6, 768),
                free: 8,
            }),
        },
        // A page more on the spare, where the last one is full.
        Case {
            used: 5,
            bytes: 512,
            spare: 2,
            change: exchange(512, 0, 256, true),
            want: Ok(Left {
                entries: &[(768, 4)],
                runs: &[],
                made: &[8],
                spare: run(7, 1),
                root: root(1, 8, 768),
                free: 10,
            }),
        },
        // Two pages more on the spare as an entry of their own, where the last one isn't full.
        Case {
            used: 5,
            bytes: 300,
            spare: 2,
            change: exchange(300, 0, 300, true),
            want: Ok(Left {
                entries: &[(300, 6)],
                runs: &[],
                made: &[8],
                spare: None,
                root: root(1, 8, 600),
                free: 10,
            }),
        },
        // All bytes go.
        Case {
            used: 3,
            bytes: 512,
            spare: 0,
            change: exchange(0, 512, 0, false),
            want: Ok(Left {
                entries: &[],
                runs: &[],
                made: &[],
                spare: None,
                root: root(0, 0, 0),
                free: 13,
            }),
        },
        // One byte is exchanged: all parts have one page, and become one.
        Case {
            used: 3,
            bytes: 512,
            spare: 0,
            change: exchange(10, 1, 1, false),
            want: Ok(Left {
                entries: &[(512, 7)],
                runs: &[(7, 2)],
                made: &[6],
                spare: None,
                root: root(1, 6, 512),
                free: 10,
            }),
        },
        // One page is free.
        Case {
            used: 15,
            bytes: 512,
            spare: 0,
            change: exchange(255, 0, 1, false),
            want: Err(EditFail::NoSpace(2)),
        },
    ];
    for case in &cases {
        let scene = scene_of(&rt, case)?;
        changes(&rt, rt.alloc(), scene, case)?;
    }
    Ok(())
}
