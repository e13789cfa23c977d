//! A law on pages that come back one after the other.

ghost use Rattle.std.specs.Prelude.{◌≡◌, ℕ, ◌<◌, Option, None, List, ◌++◌, length, slice_index_or};
ghost use Rattle.std.specs.List.{AllByRecursion, flat_map};
ghost use Rattle.image_model.specs.Super.{image_page};

/// Where the bytes that each page came back with are as many as a page has, they stand in the image
/// at its number.
pub fn pages_come_back()
    ensures { (page_bytes : Option (List ℕ) → List ℕ) (size : ℕ) (pages : List (Option (List ℕ)))
        (rest : List ℕ) →
        AllByRecursion (λ page. length (page_bytes page) ≡ size) pages → (q : ℕ) →
        q < length pages →
        image_page size (flat_map page_bytes pages ++ rest) q
        ≡ page_bytes (slice_index_or pages q None) }
{}
