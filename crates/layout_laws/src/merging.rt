//! Laws on the merging of small neighbours.

ghost use Rattle.std.specs.Prelude.{◌≡◌, ℕ, List};
ghost use Rattle.layout_model.specs.declared.part.Part.{Part};
ghost use Rattle.layout_model.specs.Pack.{pack};
ghost use Rattle.layout_laws.specs.Merging.{parts_bytes, AreApart};

/// Merging keeps the bytes.
pub fn merging_keeps_bytes()
    ensures { (size least : ℕ) (parts : List Part) →
        parts_bytes (pack size least parts) ≡ parts_bytes parts }
{}

/// Merging leaves no two small neighbours.
pub fn merging_ends()
    ensures { (size least : ℕ) (parts : List Part) → AreApart size least (pack size least parts) }
{}
