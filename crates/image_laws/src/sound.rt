//! Laws on the moment and the database that an image shows.

ghost use Rattle.std.specs.Prelude.{◌≡◌, ℕ, ◌<◌, false, List, length, map};
ghost use Rattle.geometry_model.specs.Numbers.{Numbers, objects};
ghost use Rattle.moment_model.specs.Moment.{IsSound, free_in, is_locked};
ghost use Rattle.moment_model.specs.Version.{IsGood};
ghost use Rattle.change_laws.specs.Tail.{HaveTails};
ghost use Rattle.tree_pages.specs.Levels.{version_plain};
ghost use Rattle.image_model.specs.Image.{IsImage, image_pages, free_of_space, moment_in};
ghost use Rattle.image_model.specs.Image.{database_in};

/// The moment of an image is sound where nothing is held: it has a slot for each object, no spare,
/// the free pages of its directories, and no locked page.
pub fn an_image_is_sound()
    ensures sound { (bytes : List ℕ) (version : ℕ) (n : Numbers) → IsImage bytes version n →
        IsSound IsGood n (λ o. false) (moment_in n version bytes) }
    ensures slots { (bytes : List ℕ) (version : ℕ) (n : Numbers) →
        length (moment_in n version bytes) ≡ objects n }
    ensures tails { (bytes : List ℕ) (version : ℕ) (n : Numbers) →
        HaveTails n (moment_in n version bytes) }
    ensures free { (bytes : List ℕ) (version : ℕ) (n : Numbers) → IsImage bytes version n →
        (s : ℕ) → s < n.spaces →
        free_in n (moment_in n version bytes) s ≡ free_of_space n bytes s }
    ensures locked { (bytes : List ℕ) (version : ℕ) (n : Numbers) (page : ℕ) →
        is_locked n page (moment_in n version bytes) ≡ false }
{}

/// The database of an image has the bytes of its moment's versions on the image's pages.
pub fn an_image_has_its_database()
    ensures { (bytes : List ℕ) (version : ℕ) (n : Numbers) → database_in n version bytes
        ≡ map (λ slot. version_plain (image_pages n bytes) n.page slot.committed)
        (moment_in n version bytes) }
{}
