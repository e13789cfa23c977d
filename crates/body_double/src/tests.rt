//! The body whose versions own a page each, over a space of 16 pages, and over spaces that grant a
//! page which it owns already; and the one that is made of a page of a file.
ghost use Rattle.std.specs.Prelude.{◌≡◌, ℕ, IfSome, IfOk, IsTrue};
ghost use Rattle.span_store.specs.Held.{has};
ghost use Rattle.object_body.specs.Form.{NamesThreshold};
ghost use Rattle.object_body.specs.Places.{IsReady};
ghost use Rattle.superdirectory.specs.Solo.{rest_of};

use crate::{KeptBody, PageBody};
use eos_ops::{Bytes, Edit, Outcome};
use file_port::{FileBay, FilePort, FileSpan};
use object_body::{Body, EditFail, load_and_unload};
use page_port::{Bay, Geometry, MemBay, MemPort, MemSpan, Span};
use space_directory::{Counts, Space};
use span_store::Holdings;
use std::alloc::{AllocError, Global};
use superdirectory::{Latches, Solo};
use tree_model::Root;

/// A store of 256 bytes a page and one space, pages 3 to 18, all of them free.
fn free_space(alloc: Global) -> Option<Solo<MemSpan>>
    ensures ready { IfSome result (λ solo. IsReady
        (record { page = 256; order = 4; spaces = 1; catalog = 1; threshold = 2 }) (rest_of solo)) }
{
    let mut bay = MemBay::new(alloc, Vec::new(alloc), Vec::new(alloc));
    let Ok(()) = bay.prepare(4864) else {
        return None;
    };
    let Ok(mut span) = bay.mount(256, 19) else {
        return None;
    };
    let _head = span.cut(3);
    let mut page = [0; 256];
    page[0] = b'D';
    page[1] = b'I';
    page[2] = b'R';
    page[3] = b'1';
    page[11] = 16;
    page[16] = 255;
    page[17] = 255;
    let geometry = Geometry::new(256, 4, 1, 1, 2)?;
    let space = match Space::read_page(alloc, &geometry, 0, &page, span) {
        Ok(read) => read.space,
        Err(_) => return None,
    };
    let Ok(spaces) = Vec::from_array(alloc, [space]) else {
        return None;
    };
    match Solo::new(alloc, spaces) {
        Ok(solo) => Some(solo),
        Err(_) => None,
    }
}

/// An edit of the body over these spaces.
fn edited(
    alloc: Global,
    body: &mut PageBody<MemPort>,
    latches: &mut Solo<MemSpan>,
    edit: &Edit,
) -> Result<Outcome, EditFail>
    requires numbers { body.old.numbers
        ≡ record { page = 256; order = 4; spaces = 1; catalog = 1; threshold = 2 } }
    requires ready { IsReady body.old.numbers (rest_of latches.old) }
    requires threshold { NamesThreshold edit.now }
    ensures numbers { body.new.numbers ≡ body.old.numbers }
    ensures ready { IsReady body.new.numbers (rest_of latches.new) }
{
    let mut port = MemPort::new(256, Vec::new(alloc), Vec::new(alloc));
    body.edit(alloc, &mut port, latches, &mut (), 0, edit)
}

/// The end of a transaction.
fn ended(body: &mut PageBody<MemPort>, latches: &mut Solo<MemSpan>, commits: bool)
    requires ready { IsReady body.old.numbers (rest_of latches.old) }
    ensures numbers { body.new.numbers ≡ body.old.numbers }
    ensures ready { IsReady body.new.numbers (rest_of latches.new) }
{
    if commits {
        body.settle(latches, &mut ());
        return;
    }
    body.undo(latches, &mut ());
}

/// How many pages of the space are free, and how many locked.
fn counts(latches: &mut Solo<MemSpan>) -> (u32, u32)
    requires ready { IsReady (record {
      page = 256;
      order = 4;
      spaces = 1;
      catalog = 1;
      threshold =
          2;
    }) (rest_of latches.old) }
    ensures ready { IsReady (record {
      page = 256;
      order = 4;
      spaces = 1;
      catalog = 1;
      threshold =
          2;
    }) (rest_of latches.new) }
{
    let space = latches.enter(&mut (), 0);
    let Counts { free, locked } = space.counts();
    latches.leave(0, space);
    (free, locked)
}

#[test]
fn a_page_that_is_left_is_locked_until_the_end(rt: HostRuntime) {
    let alloc = rt.alloc();
    let Some(geometry) = Geometry::new(256, 4, 1, 1, 2) else {
        return assert!(rt; false);
    };
    let Some(mut latches) = free_space(alloc) else {
        return assert!(rt; false);
    };
    let mut body = PageBody::new(&geometry);
    let create = Edit::Create { threshold: None };
    let append = Edit::Append(Bytes::new(alloc));
    assert!(rt; edited(alloc, &mut body, &mut latches, &create) == Ok(Outcome::Done));
    ended(&mut body, &mut latches, true);
    assert_eq!(rt; counts(&mut latches), (15, 0));
    assert!(rt; edited(alloc, &mut body, &mut latches, &append) == Ok(Outcome::Done));
    assert_eq!(rt; counts(&mut latches), (14, 1));
    assert!(rt; edited(alloc, &mut body, &mut latches, &append) == Ok(Outcome::Done));
    assert_eq!(rt; counts(&mut latches), (14, 1));
    ended(&mut body, &mut latches, false);
    assert_eq!(rt; counts(&mut latches), (15, 0));
    assert!(rt; edited(alloc, &mut body, &mut latches, &append) == Ok(Outcome::Done));
    ended(&mut body, &mut latches, true);
    assert_eq!(rt; counts(&mut latches), (15, 0));
    assert!(rt; edited(alloc, &mut body, &mut latches, &Edit::Destroy) == Ok(Outcome::Done));
    assert_eq!(rt; counts(&mut latches), (15, 1));
    ended(&mut body, &mut latches, true);
    assert_eq!(rt; counts(&mut latches), (16, 0));
}

#[test]
fn what_is_created_again_has_its_page_back(rt: HostRuntime) {
    let alloc = rt.alloc();
    let Some(geometry) = Geometry::new(256, 4, 1, 1, 2) else {
        return assert!(rt; false);
    };
    let Some(mut latches) = free_space(alloc) else {
        return assert!(rt; false);
    };
    let mut body = PageBody::new(&geometry);
    let create = Edit::Create { threshold: None };
    assert!(rt; edited(alloc, &mut body, &mut latches, &create) == Ok(Outcome::Done));
    ended(&mut body, &mut latches, true);
    assert!(rt; edited(alloc, &mut body, &mut latches, &Edit::Destroy) == Ok(Outcome::Done));
    assert_eq!(rt; counts(&mut latches), (15, 1));
    assert!(rt; edited(alloc, &mut body, &mut latches, &create) == Ok(Outcome::Done));
    assert_eq!(rt; counts(&mut latches), (15, 0));
    ended(&mut body, &mut latches, true);
    assert_eq!(rt; body.length(), Some(0));
    assert_eq!(rt; counts(&mut latches), (15, 0));
}

/// The other spaces have never granted page 3, and the body owns it.
#[test]
fn a_page_that_is_owned_is_not_taken_again(rt: HostRuntime) {
    let alloc = rt.alloc();
    let Some(geometry) = Geometry::new(256, 4, 1, 1, 2) else {
        return assert!(rt; false);
    };
    let (Some(mut latches), Some(mut others)) = (free_space(alloc), free_space(alloc)) else {
        return assert!(rt; false);
    };
    let mut body = PageBody::new(&geometry);
    let create = Edit::Create { threshold: None };
    let append = Edit::Append(Bytes::new(alloc));
    assert!(rt; edited(alloc, &mut body, &mut latches, &create) == Ok(Outcome::Done));
    ended(&mut body, &mut latches, true);
    assert!(rt; edited(alloc, &mut body, &mut others, &append) == Err(EditFail::Memory));
    assert_eq!(rt; counts(&mut others), (16, 0));
    assert!(rt; edited(alloc, &mut body, &mut latches, &append) == Ok(Outcome::Done));
}

/// Page 3 of a file, of 256 bytes.
fn page_three(rt: &HostRuntime) -> Result<Holdings<FileSpan>, AllocError>
    ensures { IfOk result (λ held. (page : ℕ) → IsTrue (has held page) → page ≡ 3) }
{
    let mut bay = FileBay::new(rt.clone()?, rt.alloc(), "body_double.img")?;
    let Ok(()) = bay.prepare(1024) else {
        return Err(AllocError);
    };
    let Ok(mut page) = bay.mount(256, 4) else {
        return Err(AllocError);
    };
    let _head = page.cut(3);
    let mut held = Holdings::new(rt.alloc());
    held.reserve(1)?;
    held.add(page);
    Ok(held)
}

#[test]
fn an_object_is_made_of_a_page_and_gives_it_back(rt: HostRuntime) -> Result<(), AllocError> {
    let alloc = rt.alloc();
    let Some(geometry) = Geometry::new(256, 4, 1, 1, 2) else {
        return Err(AllocError);
    };
    let root = Root {
        height: 1,
        page: 3,
        length: 5,
    };
    let held = page_three(&rt)?;
    let given = load_and_unload::<KeptBody<FilePort>>(alloc, &geometry, 1, Some(root), held);
    let Ok(given) = given else {
        return Err(AllocError);
    };
    assert!(rt; given.0 == Some(5) && given.1.holds(3, 1));
    Ok(())
}
