//! Laws on what stands on the pages of a closed store.

ghost use Rattle.std.specs.Prelude.{◌≡◌, ℕ, ◌+◌, ◌*◌, ◌/◌, ◌<◌, false, None, List, length};
ghost use Rattle.std.specs.Prelude.{map, take, drop};
ghost use Rattle.geometry_model.specs.Numbers.{Numbers, IsInRange, objects};
ghost use Rattle.moment_model.specs.Version.{IsGood};
ghost use Rattle.moment_model.specs.Moment.{IsSound, Moment};
ghost use Rattle.tree_pages.specs.Levels.{version_plain};
ghost use Rattle.image_model.specs.Super.{image_page, version_in};
ghost use Rattle.image_model.specs.Catalog.{entry_at};
ghost use Rattle.image_model.specs.Image.{Image, IsImage, image_pages, moment_in};
ghost use Rattle.image_model.specs.Checks.{first_refusal};
ghost use Rattle.closing_laws.specs.Closed.{IsClosedAt};

/// Where nothing is held, what closing writes is an image in version 2. It shows just the moment
/// that was closed, and the bytes of its committed versions, and no check of an opening fails.
pub fn what_closing_writes_is_an_image()
    ensures image { (bytes : List ℕ) (n : Numbers) (moment : Moment) →
        IsSound IsGood n (λ o. false) moment → length moment ≡ objects n →
        IsClosedAt n moment bytes →
        Image bytes n (map (λ slot. version_plain (image_pages n bytes) n.page slot.committed)
        moment) moment }
    ensures version { (bytes : List ℕ) (n : Numbers) (moment : Moment) →
        IsClosedAt n moment bytes → version_in bytes ≡ 2 }
    ensures opens { (bytes : List ℕ) (n : Numbers) (moment : Moment) →
        IsSound IsGood n (λ o. false) moment → length moment ≡ objects n →
        IsClosedAt n moment bytes → first_refusal bytes ≡ None }
{}

/// Each image in version 2 is what closing writes at the moment that it shows.
pub fn an_image_is_closed()
    ensures { (bytes : List ℕ) (n : Numbers) → IsImage bytes 2 n →
        IsClosedAt n (moment_in n 2 bytes) bytes }
{}

/// A page of the catalog has the entries of as many objects as fit, in the order of their numbers.
pub fn a_catalog_page_has_its_entries()
    ensures { (bytes : List ℕ) (n : Numbers) (page at : ℕ) → IsInRange n → at < n.page / 16 →
        entry_at n bytes (page * (n.page / 16) + at)
        ≡ take 16 (drop (16 * at) (image_page n.page bytes (1 + page))) }
{}
