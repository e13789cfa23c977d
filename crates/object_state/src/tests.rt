//! Objects over a file of one space, pages 3 to 18 of 256 bytes: one of a node and a segment, also
//! where the file has ended before them, and one that is made, and settled or undone.

ghost use Rattle.std.specs.Prelude.{◌≡◌, ℕ, ◌≤◌, IsTrue, IfOk, true};
ghost use Rattle.span_store.specs.Held.{has};
ghost use Rattle.object_body.specs.Places.{IsReady};
ghost use Rattle.object_state.specs.Tree.{tree_form};
ghost use Rattle.superdirectory.specs.Solo.{rest_of};

use crate::TreeBody;
use crate::fits::fits;
use eos_ops::Outcome;
use file_port::{FileBay, FilePort, FileSpan};
use object_body::{EditFail, LookFail};
use page_port::{Bay, Geometry, Port, Span};
use space_directory::{Counts, Space};
use span_store::Holdings;
use std::alloc::{AllocError, Global};
use superdirectory::{Latches, Solo};
use tree_model::{Pair, Root};

/// The root of an object of five bytes: its node is on page 3, and its segment on page 4.
const ROOT: Root = Root {
    height: 1,
    page: 3,
    length: 5,
};

/// The numbers of the store.
fn numbers() -> Result<Geometry, AllocError>
    ensures { IfOk result (λ n. n
        ≡ record { page = 256; order = 4; spaces = 1; catalog = 1; threshold = 2 }) }
{
    match Geometry::new(256, 4, 1, 1, 2) {
        Some(geometry) => Ok(geometry),
        None => Err(AllocError),
    }
}

/// The file's pages from 3 on, and a port to it.
fn opened(rt: &HostRuntime, path: &str) -> Result<(FilePort, FileSpan), AllocError>
    ensures page { IfOk result (λ made. made.0.page ≡ 256) }
    ensures first { IfOk result (λ made. made.1.first ≡ 3) }
    ensures count { IfOk result (λ made. made.1.count ≡ 16) }
{
    let mut bay = FileBay::new(rt.clone()?, rt.alloc(), path)?;
    let Ok(()) = bay.prepare(4864) else {
        return Err(AllocError);
    };
    let Ok(mut pages) = bay.mount(256, 19) else {
        return Err(AllocError);
    };
    let _head = pages.cut(3);
    let Ok(port) = bay.port() else {
        return Err(AllocError);
    };
    Ok((port, pages))
}

/// Ends the file behind this many pages.
fn end_behind(rt: &HostRuntime, path: &str, pages: u8) -> Result<(), AllocError> {
    let mut bay = FileBay::new(rt.clone()?, rt.alloc(), path)?;
    bay.prepare(u64::from(pages) * 256).map_err(|_| AllocError)
}

/// The pages 3 and 4, the object's node and bytes written on them, and a port to the file.
fn written(rt: &HostRuntime, path: &str) -> Result<(FilePort, Holdings<FileSpan>), AllocError>
    ensures page { IfOk result (λ made. made.0.page ≡ 256) }
    ensures held { IfOk result (λ made. (page : ℕ) → IsTrue (has made.1 page) →
        (3 ≤ page) × (page ≤ 4)) }
{
    let (mut port, mut pages) = opened(rt, path)?;
    let mut both = pages.cut(2);
    let mut bytes = [0; 512];
    bytes[..20].copy_from_slice(b"N\x01\x00\x01\0\0\0\0\0\0\0\0\0\0\0\x05\0\0\0\x04");
    bytes[256..261].copy_from_slice(b"bytes");
    let Ok(()) = port.write(&mut both, 0, &bytes) else {
        return Err(AllocError);
    };
    let mut held = Holdings::new(rt.alloc());
    held.reserve(1)?;
    held.add(both);
    Ok((port, held))
}

/// An object at rest of these pages.
fn loaded(alloc: Global, held: Holdings<FileSpan>) -> Result<TreeBody<FilePort>, AllocError>
    requires { (page : ℕ) → IsTrue (has held page) → (3 ≤ page) × (page ≤ 4) }
    ensures numbers { IfOk result (λ body. body.numbers
        ≡ record { page = 256; order = 4; spaces = 1; catalog = 1; threshold = 2 }) }
    ensures rests { IfOk result (λ body. (tree_form body).is_resting ≡ true) }
{
    let geometry = numbers()?;
    let mut held = Some(held);
    match TreeBody::take_pages(alloc, &geometry, 1, Some(ROOT), &mut held) {
        Some(body) => Ok(body),
        None => Err(AllocError),
    }
}

/// Whether the object has five bytes, and a read from `at` on gives these of them.
fn reads(
    alloc: Global,
    body: &mut TreeBody<FilePort>,
    port: &mut FilePort,
    at: u64,
    want: &[u8],
) -> Result<bool, LookFail>
    requires page { port.old.page ≡ body.old.numbers.page }
    ensures page { port.new.page ≡ body.new.numbers.page }
{
    let count = want.len() as u64;
    if body.length() != Some(5) || at > 5 || count > 5 - at {
        return Ok(false);
    }
    let bytes = body.read(alloc, port, at, count)?;
    Ok(bytes.as_slice() == want)
}

/// The same, where the file has ended behind so many pages, and then where it is whole again.
fn reads_twice(
    rt: &HostRuntime,
    pages: u8,
    at: u64,
    want: &[u8],
) -> Result<(Result<bool, LookFail>, Result<bool, LookFail>), AllocError> {
    const PATH: &str = "object_state_read.img";
    let (mut port, held) = written(rt, PATH)?;
    let mut body = loaded(rt.alloc(), held)?;
    end_behind(rt, PATH, pages)?;
    let first = reads(rt.alloc(), &mut body, &mut port, at, want);
    let (_, _) = written(rt, PATH)?;
    Ok((first, reads(rt.alloc(), &mut body, &mut port, at, want)))
}

#[test]
fn a_read_gives_the_bytes_and_one_that_fails_leaves_them(
    rt: HostRuntime,
) -> Result<(), AllocError> {
    let fault = Err(LookFail::Fault);
    let cases = [
        (19, 0, b"bytes".as_slice(), Ok(true)),
        (19, 2, b"te".as_slice(), Ok(true)),
        (4, 0, b"bytes".as_slice(), fault),
        (3, 4, b"s".as_slice(), fault),
        (0, 5, b"".as_slice(), Ok(true)),
    ];
    for (pages, at, want, first) in cases {
        assert_eq!(rt;
            reads_twice(&rt, pages, at, want)?,
            (first, Ok(true)),
            "{pages} {at}"
        );
    }
    Ok(())
}

#[test]
fn an_object_hands_out_what_it_is_made_of(rt: HostRuntime) -> Result<(), AllocError> {
    let (_port, held) = written(&rt, "object_state_pages.img")?;
    let body = loaded(rt.alloc(), held)?;
    assert!(rt; body.root() == Some(ROOT) && body.threshold() == 1);
    assert!(rt; body.held().holds(3, 2) && body.length() == Some(5));
    let held = body.unload();
    assert!(rt; held.holds(3, 2) && held.end() == 5);
    Ok(())
}

/// The space of the store: so many of its pages are free, and of the first eight those of these
/// bits.
fn space_of(
    alloc: Global,
    pages: FileSpan,
    free: u8,
    first: u8,
) -> Result<Solo<FileSpan>, AllocError>
    requires first { pages.first ≡ 3 }
    requires count { pages.count ≡ 16 }
    ensures { IfOk result (λ solo. IsReady
        (record { page = 256; order = 4; spaces = 1; catalog = 1; threshold = 2 }) (rest_of solo)) }
{
    let geometry = numbers()?;
    let mut page = [0; 256];
    page[..4].copy_from_slice(b"DIR1");
    page[11] = free;
    page[16] = first;
    page[17] = 255;
    let Ok(read) = Space::read_page(alloc, &geometry, 0, &page, pages) else {
        return Err(AllocError);
    };
    let spaces = Vec::from_array(alloc, [read.space])?;
    match Solo::new(alloc, spaces) {
        Ok(solo) => Ok(solo),
        Err(_) => Err(AllocError),
    }
}

/// What two creates of an absent object answer, its threshold then, and its length once their
/// transaction has ended.
fn made_twice(
    rt: &HostRuntime,
    commits: bool,
) -> Result<(Outcome, Outcome, u16, Option<u64>), AllocError> {
    let alloc = rt.alloc();
    let (_port, pages) = opened(rt, "object_state_made.img")?;
    let mut latches = space_of(alloc, pages, 16, 255)?;
    let geometry = numbers()?;
    let mut held = Some(Holdings::new(alloc));
    let made = TreeBody::<FilePort>::take_pages(alloc, &geometry, 1, None, &mut held);
    let Some(mut body) = made else {
        return Err(AllocError);
    };
    let first = body.create(None);
    let second = body.create(Some(1));
    let threshold = body.threshold();
    if commits {
        body.settle(&mut latches, &mut ());
    } else {
        body.undo(&mut latches, &mut ());
    }
    Ok((first, second, threshold, body.length()))
}

#[test]
fn an_object_that_is_made_is_there_after_a_commit_alone(rt: HostRuntime) -> Result<(), AllocError> {
    for (commits, length) in [(true, Some(0)), (false, None)] {
        let want = (Outcome::Done, Outcome::Exists, 2, length);
        assert_eq!(rt; made_twice(&rt, commits)?, want, "{commits}");
    }
    Ok(())
}

/// How many pages of the space are free, and how many locked.
fn counts(latches: &mut Solo<FileSpan>) -> (u32, u32)
    requires ready { IsReady (record {
      page = 256;
      order = 4;
      spaces = 1;
      catalog = 1;
      threshold =
          2;
    }) (rest_of latches.old) }
    ensures ready { IsReady (record {
      page = 256;
      order = 4;
      spaces = 1;
      catalog = 1;
      threshold =
          2;
    }) (rest_of latches.new) }
{
    let space = latches.enter(&mut (), 0);
    let Counts { free, locked } = space.counts();
    latches.leave(0, space);
    (free, locked)
}

/// What a destroy of the object answers, the free and the locked pages then and after the end, and
/// its length after the end.
fn destroyed(
    rt: &HostRuntime,
    commits: bool,
) -> Result<
    (
        Result<Outcome, EditFail>,
        (u32, u32),
        (u32, u32),
        Option<u64>,
    ),
    AllocError,
> {
    const PATH: &str = "object_state_destroyed.img";
    let alloc = rt.alloc();
    let (_port, held) = written(rt, PATH)?;
    let (_port, pages) = opened(rt, PATH)?;
    let mut latches = space_of(alloc, pages, 14, 0x3f)?;
    let mut body = loaded(alloc, held)?;
    let answer = body.destroy(alloc, &mut latches, &mut ());
    let between = counts(&mut latches);
    if commits {
        body.settle(&mut latches, &mut ());
    } else {
        body.undo(&mut latches, &mut ());
    }
    let after = counts(&mut latches);
    Ok((answer, between, after, body.length()))
}

#[test]
fn the_pages_of_a_destroyed_object_are_locked_until_its_end(
    rt: HostRuntime,
) -> Result<(), AllocError> {
    for (commits, free, length) in [(true, 16, None), (false, 14, Some(5))] {
        let want = (Ok(Outcome::Done), (14, 2), (free, 0), length);
        assert_eq!(rt; destroyed(&rt, commits)?, want, "{commits}");
    }
    Ok(())
}

#[test]
fn of_two_neighbours_one_has_the_threshold(rt: HostRuntime) -> Result<(), AllocError> {
    let cases = [
        (1024, 1, true),
        (768, 769, true),
        (768, 768, false),
        (1, 1, false),
    ];
    let geometry = numbers()?;
    for (before, bytes, want) in cases {
        let before = Pair {
            bytes: before,
            page: 3,
        };
        let pair = Pair { bytes, page: 9 };
        assert!(rt; fits(&geometry, 4, None, &pair));
        assert_eq!(rt; fits(&geometry, 4, Some(&before), &pair), want, "{bytes}");
    }
    Ok(())
}
