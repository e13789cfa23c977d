//! Bodies that are made of pages, and give them back: what a store is opened and closed with.

ghost use Rattle.std.specs.Prelude.{◌≡◌, ◌↔◌, ℕ, Bool, Option, Some, None, IsTrue, IsSome, IsNone};
ghost use Rattle.std.specs.Prelude.{IfSome, IfOk, IfErr, option_map, true};
ghost use Rattle.geometry_model.specs.Numbers.{Numbers};
ghost use Rattle.tree_model.specs.declared.entry.Pair.{Pair as PairView};
ghost use Rattle.span_store.specs.Held.{Held};
ghost use Rattle.span_store.specs.Calls.{KeepsPages};
ghost use Rattle.tree_pages.specs.Entry.{Entry};
ghost use Rattle.object_body.specs.Stored.{IsLoad, IsLoaded, IsKeeping, entry_of, root_in};
ghost use Rattle.object_body.specs.Stored.{threshold_in};

use crate::body::Body;
use page_port::{Geometry, Port};
use span_store::Holdings;
use std::alloc::Global;
use tree_model::{Pair, Root};

/// A body over pages: it is made of the pages of a tree, and hands them out again.
pub trait Stored: Body {
    /// The kind of object, as page 0 of a store names it.
    const KIND: u8;

    // May a segment of an object of this threshold, the one of this number, stand behind the one
    // before it?
    ghost may_stand: { Numbers → ℕ → ℕ → Option PairView → PairView → Bool };

    // The pages that it holds, and what is kept of the working version beside them.
    ghost pages: { Self → Held };

    ghost entry: { Self → Entry };

    /// May the segment `pair`, number `index` of an object, stand behind the one before it?
    fn fits(
        geometry: &Geometry,
        threshold: u16,
        index: u64,
        before: Option<&Pair>,
        pair: &Pair,
    ) -> bool
        requires first { (before ≡ None) ↔ (index ≡ 0) }
        ensures { result ≡ may_stand geometry.now threshold index
            (option_map (λ p. p.now) before.entry) pair.now };

    /// Makes a body of the pages in `held`, which are taken out of it. This is what `load` does; it
    /// is here for the types that implement it.
    ///
    /// None says that there was no memory: the pages stay.
    fn take_pages(
        alloc: Global,
        geometry: &Geometry,
        threshold: u16,
        root: Option<Root>,
        held: &mut Option<Holdings<<Self::P as Port>::S>>,
    ) -> Option<Self>
        requires some { IsSome held.old }
        requires load { IfSome held.old (IsLoad Self.P.S.tells (may_stand geometry.now)
            geometry.now (entry_of root threshold)) }
        ensures loaded { IfSome result (λ body. IfSome held.old
            (λ was. IsLoaded Self.P.S.tells geometry.now
            (entry_of root threshold) was (Self.form body) (Self.told body) (entry body)
            (pages body))) }
        ensures stays { IsNone result → IfSome held.old (λ was. IsSome held.new
            × IfSome held.new (KeepsPages was)) };

    /// Makes a body of the pages of a tree, at rest.
    ///
    /// # Errors
    /// There was no memory. The pages are handed back.
    final fn load(
        alloc: Global,
        geometry: &Geometry,
        threshold: u16,
        root: Option<Root>,
        held: Holdings<<Self::P as Port>::S>,
    ) -> Result<Self, Holdings<<Self::P as Port>::S>>
        requires load { IsLoad Self.P.S.tells (may_stand geometry.now) geometry.now
            (entry_of root threshold) held }
        ensures loaded { IfOk result (λ body. IsLoaded Self.P.S.tells geometry.now
            (entry_of root threshold) held
            (Self.form body) (Self.told body) (entry body) (pages body)) }
        ensures refused { IfErr result (KeepsPages held) }
    {
        let mut held = Some(held);
        match Self::take_pages(alloc, geometry, threshold, root, &mut held) {
            Some(body) => Ok(body),
            None => Err(held.unwrap()),
        }
    }

    /// The root of the working version, none where it is absent.
    fn root(&self) -> Option<Root>
        ensures { result ≡ root_in (entry self.now) };

    /// The threshold of the working version in pages, 0 where it is absent.
    fn threshold(&self) -> u16
        ensures { result ≡ threshold_in (entry self.now) };

    /// The pages that it holds.
    fn held(&self) -> &Holdings<<Self::P as Port>::S>
        ensures held { result.now ≡ pages self.now }
        ensures keeping { IsKeeping Self.P.S.tells (Self.form self.now) (Self.told self.now)
            (entry self.now) (pages self.now) };

    /// Hands out all pages of a body at rest. It takes no memory.
    fn unload(self) -> Holdings<<Self::P as Port>::S>
        requires rests { (Self.form self).is_resting ≡ true }
        ensures held { result ≡ pages self }
        ensures keeping { IsKeeping Self.P.S.tells (Self.form self) (Self.told self) (entry self)
            (pages self) };
}
