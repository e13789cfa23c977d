//! Two objects of a store of one space, over memory, which tells its bytes.

ghost use Rattle.std.specs.Prelude.{◌≡◌, ℕ, length, IfOk};
ghost use Rattle.geometry_model.specs.Numbers.{space_pages};
ghost use Rattle.page_port.specs.Pages.{AreOf, IsSized};
ghost use Rattle.space_directory.specs.SpaceView.{IsSpace};
ghost use Rattle.superdirectory.specs.Solo.{rest_of};
ghost use Rattle.object_body.specs.Form.{NamesThreshold};
ghost use Rattle.object_body.specs.Places.{IsReady};
ghost use Rattle.object_rows.specs.Store.{numbers_of};

use eos_ops::{Bytes, Edit, Outcome};
use node_codec::{Node, decode};
use object_body::{EditFail, LookFail, Stored};
use page_port::{Bay, Geometry, MemBay, MemPort, MemSpan, Port, Span};
use space_directory::{Counts, Space};
use span_store::Holdings;
use std::alloc::{AllocError, Global};
use std::marker::Model;
use std::process::Abort;
use std::test::Fail;
use superdirectory::{Latches, Solo};
use tree_model::Root;

/// What a page of the space is.
#[derive(Clone, Copy, PartialEq, Eq, Debug)]
pub enum Role {
    Free,
    Locked,
    Held,
}

/// Two objects, the space that they have their pages from, and a port. One of the objects is in
/// hand: each call that names none is one on it.
#[derive(Drop)]
pub struct Store<B: Stored<P = MemPort>> {
    hand: B,
    other: B,
    spaces: Solo<MemSpan>,
    port: MemPort,
}

impl<B: Stored<P = MemPort>> Model for Store<B> {
    ghost use Rattle.superdirectory.specs.Solo.{rest_of};
    ghost use Rattle.object_rows.specs.Store.{IsAtWork};

    ghost Value = { B };

    ghost view = { λ s. s.hand };

    ghost invariant = { λ s. IsAtWork (B.form s.hand).numbers (B.form s.other).numbers
        (rest_of s.spaces) s.port.meter.page };
}

/// The numbers of a store of `2^order` data pages.
pub fn numbers(order: u32) -> Result<Geometry, AllocError>
    ensures { IfOk result (λ n. n ≡ numbers_of order) }
{
    match Geometry::new(256, order, 1, 1, 2) {
        Some(geometry) => Ok(geometry),
        None => Err(AllocError),
    }
}

/// The data pages of the store, over memory.
fn pages_of(alloc: Global, geometry: &Geometry) -> Result<MemSpan, AllocError>
    requires { (order : ℕ) × (geometry.now ≡ numbers_of order) }
    ensures first { IfOk result (λ pages. pages.first ≡ 3) }
    ensures count { IfOk result (λ pages. length pages.pages ≡ space_pages geometry.now) }
    ensures sized { IfOk result (λ pages. AreOf 256 pages.pages) }
{
    let count = geometry.pages();
    let mut bay = MemBay::new(alloc, Vec::new(alloc), Vec::new(alloc));
    let Ok(()) = bay.prepare(u64::from(count) * 256) else {
        return Err(AllocError);
    };
    let Ok(mut pages) = bay.mount(256, count) else {
        return Err(AllocError);
    };
    let _head = pages.cut(3);
    Ok(pages)
}

/// The directory page of a space of so many pages, all of which but the first `used` are free.
fn directory(count: u32, used: u32) -> [u8; 256] {
    let mut page = [0; 256];
    page[..4].copy_from_slice(b"DIR1");
    page[8..12].copy_from_slice(&(count.saturating_sub(used)).to_be_bytes());
    for at in used..count.min(1024) {
        page[16 + at as usize / 8] |= 0x80 >> (at % 8);
    }
    page
}

/// The space of the store on these pages, all of which but the first `used` are free.
pub fn space_of<S: Span>(
    alloc: Global,
    geometry: &Geometry,
    pages: S,
    used: u32,
) -> Result<Solo<S>, AllocError>
    requires numbers { (order : ℕ) × (geometry.now ≡ numbers_of order) }
    requires first { S.start pages ≡ 3 }
    requires count { length (S.contents pages) ≡ space_pages geometry.now }
    requires sized { IsSized S.tells geometry.now.page (S.contents pages) }
    ensures { IfOk result (λ solo. IsReady geometry.now (rest_of solo)) }
{
    let page = directory(geometry.space_pages(), used);
    let Ok(read) = Space::read_page(alloc, geometry, 0, &page, pages) else {
        return Err(AllocError);
    };
    let spaces = Vec::from_array(alloc, [read.space])?;
    match Solo::new(alloc, spaces) {
        Ok(solo) => Ok(solo),
        Err(_) => Err(AllocError),
    }
}

/// An absent object.
fn absent<B: Stored<P = MemPort>>(alloc: Global, geometry: &Geometry) -> Result<B, AllocError>
    ensures { IfOk result (λ body. (B.form body).numbers ≡ geometry.now) }
{
    match B::load(alloc, geometry, 0, None, Holdings::new(alloc)) {
        Ok(body) => Ok(body),
        Err(_) => Err(AllocError),
    }
}

/// A port none of whose calls fails.
fn sound_port(alloc: Global) -> MemPort
    ensures { result.meter.page ≡ 256 }
{
    MemPort::new(256, Vec::new(alloc), Vec::new(alloc))
}

impl<B: Stored<P = MemPort>> Store<B> {
    /// Two absent objects and a space of `2^order` pages, all of which but the first `used` are
    /// free.
    pub fn new(alloc: Global, order: u32, used: u32) -> Result<Store<B>, AllocError> {
        let geometry = numbers(order)?;
        let pages = pages_of(alloc, &geometry)?;
        let spaces = space_of(alloc, &geometry, pages, used)?;
        let hand = absent(alloc, &geometry)?;
        let other = absent(alloc, &geometry)?;
        let port = sound_port(alloc);
        Ok(Store {
            hand,
            other,
            spaces,
            port,
        })
    }

    /// Takes the other object in hand.
    pub fn turn(&mut self) {
        std::mem::swap(&mut self.hand, &mut self.other);
    }

    /// From now on the `call`th read of the device fails, or the `call`th write. No other fails.
    pub fn fail(&mut self, alloc: Global, write: bool, call: u64) -> Result<(), AllocError> {
        let none = Vec::new(alloc);
        let calls = Vec::from_array(alloc, [call])?;
        self.port = if write {
            MemPort::new(256, none, calls)
        } else {
            MemPort::new(256, calls, none)
        };
        Ok(())
    }

    /// From now on no call of the device fails.
    pub fn mend(&mut self, alloc: Global) {
        self.port = sound_port(alloc);
    }

    /// Edits the object.
    pub fn edit(&mut self, alloc: Global, edit: &Edit) -> Result<Outcome, EditFail>
        requires { NamesThreshold edit.now }
    {
        self.hand
            .edit(alloc, &mut self.port, &mut self.spaces, &mut (), 0, edit)
    }

    /// Its length.
    pub fn length(&self) -> Option<u64> {
        self.hand.length()
    }

    /// Its `len` bytes from `at` on.
    pub fn read(
        &mut self,
        rt: &impl Abort,
        alloc: Global,
        at: u64,
        len: u64,
    ) -> Result<Bytes, LookFail> {
        let Some(length) = self.hand.length() else {
            panic!(rt; "an absent object")
        };
        assert!(rt; at <= length);
        assert!(rt; len <= length - at);
        self.hand.read(alloc, &mut self.port, at, len)
    }

    /// Ends its transaction by a commit.
    pub fn commit(&mut self) {
        self.hand.settle(&mut self.spaces, &mut ());
    }

    /// Ends its transaction by an abort.
    pub fn abort(&mut self) {
        self.hand.undo(&mut self.spaces, &mut ());
    }

    /// Its root.
    pub fn root(&self) -> Option<Root> {
        self.hand.root()
    }

    /// Its threshold, 0 where it is absent.
    pub fn threshold(&self) -> u16 {
        self.hand.threshold()
    }

    /// The node on a page that it holds.
    pub fn node(&mut self, rt: &impl Abort, alloc: Global, page: u32) -> Result<Node, Fail> {
        let held = self.hand.held();
        assert!(rt; held.holds(page, 1), "page {page} is held");
        let mut bytes = [0; 256];
        if held.read_run(&mut self.port, page, &mut bytes).is_err() {
            return Err(Fail::from("a read of a node"));
        }
        let mut node = Node::prepared(alloc, 256)?;
        assert!(rt; decode(&bytes, &mut node).is_ok(), "page {page} is a node");
        Ok(node)
    }

    /// How many pages are free, and how many locked.
    pub fn counts(&mut self) -> (u32, u32) {
        let space = self.spaces.enter(&mut (), 0);
        let Counts { free, locked } = space.counts();
        self.spaces.leave(0, space);
        (free, locked)
    }

    /// What each page of the space is, in order.
    pub fn roles(&mut self, alloc: Global) -> Result<Vec<Role>, AllocError> {
        let space = self.spaces.enter(&mut (), 0);
        let roles = roles_of(alloc, &space);
        self.spaces.leave(0, space);
        roles
    }
}

/// What each page of a space is, in order.
fn roles_of(alloc: Global, space: &Space<MemSpan>) -> Result<Vec<Role>, AllocError> {
    let (first, pages) = (space.first(), space.pages());
    let mut roles = Vec::new(alloc);
    for at in 0..pages {
        let page = first + at;
        roles.push(if space.is_free(page) {
            Role::Free
        } else if space.is_locked(page) {
            Role::Locked
        } else {
            Role::Held
        })?;
    }
    Ok(roles)
}
