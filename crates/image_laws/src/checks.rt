//! Laws on the checks of an opening.

ghost use Rattle.std.specs.Prelude.{◌≡◌, ℕ, ◌<◌, None, List};
ghost use Rattle.std.specs.List.{AllByRecursion};
ghost use Rattle.geometry_model.specs.Numbers.{Numbers};
ghost use Rattle.image_model.specs.Super.{version_in, numbers_in};
ghost use Rattle.image_model.specs.Image.{IsImage};
ghost use Rattle.image_model.specs.Checks.{first_refusal};

/// An image passes all checks, and names its own version and numbers.
pub fn an_image_passes()
    ensures passes { (bytes : List ℕ) (version : ℕ) (n : Numbers) → IsImage bytes version n →
        first_refusal bytes ≡ None }
    ensures version { (bytes : List ℕ) (version : ℕ) (n : Numbers) → IsImage bytes version n →
        version_in bytes ≡ version }
    ensures numbers { (bytes : List ℕ) (version : ℕ) (n : Numbers) → IsImage bytes version n →
        numbers_in bytes ≡ n }
{}

/// Bytes on which no check fails are an image of the numbers that they name.
pub fn what_passes_is_an_image()
    ensures { (bytes : List ℕ) → AllByRecursion (λ byte. byte < 256) bytes →
        first_refusal bytes ≡ None →
        IsImage bytes (version_in bytes) (numbers_in bytes) }
{}
