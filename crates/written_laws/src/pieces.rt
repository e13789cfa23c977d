//! Laws on the old bytes of new parts: they are there, and stay until they are gathered.

ghost use Rattle.std.specs.Prelude.{◌≡◌, ℕ, ◌<◌, Bool, IsTrue, false, List, length};
ghost use Rattle.std.specs.List.{AllByRecursion};
ghost use Rattle.geometry_model.specs.Numbers.{Numbers, IsInRange};
ghost use Rattle.tree_model.specs.declared.entry.Pair.{Pair};
ghost use Rattle.layout_model.specs.declared.extent.Extent.{Extent};
ghost use Rattle.moment_model.specs.Version.{uses};
ghost use Rattle.edit_parts.specs.declared.piece.Piece.{Piece};
ghost use Rattle.edit_parts.specs.Pieces.{IsFrom};
ghost use Rattle.edit_plan.specs.Planned.{IsEntry};
ghost use Rattle.span_store.specs.Held.{AllSized, Held, bytes_on, has};
ghost use Rattle.seg_bytes.specs.Segments.{HoldsBytes};
ghost use Rattle.part_bytes.specs.Gathering.{CanGather};
ghost use Rattle.part_bytes.specs.Parts.{IsApart};
ghost use Rattle.written_laws.specs.Edits.{HasItsBytes};

/// Pieces of entries of a store can be gathered where the pages of these entries are held.
pub fn pieces_of_held_entries_can_be_gathered()
    ensures { (n : Numbers) (given : ℕ) (entries : List Pair) (pieces : List Piece) (now : Held) →
        IsInRange n → AllByRecursion (IsEntry n) entries →
        AllByRecursion (λ p. HoldsBytes now n.page p.page p.bytes) entries →
        AllByRecursion (IsFrom n.page entries given) pieces →
        AllByRecursion (CanGather now n.page given) pieces }
{}

/// Runs of pages that weren't held before have no page of a piece that could be gathered then; and
/// it still can where the pages of before are held.
pub fn new_runs_are_apart()
    ensures { (size given : ℕ) (pieces : List Piece) (runs : List Extent) (old now : Held) →
        AllByRecursion (CanGather old size given) pieces →
        ((q : ℕ) → 0 < uses q runs → has old q ≡ false) →
        ((q : ℕ) → IsTrue (has old q) → IsTrue (has now q)) →
        AllByRecursion (IsApart size runs) pieces
        × AllByRecursion (CanGather now size given) pieces }
{}

/// Pieces that can be gathered have as many bytes as they say, where the device tells.
pub fn held_pieces_have_their_bytes()
    ensures { (told : Bool) (size : ℕ) (payload : List ℕ) (pieces : List Piece) (now : Held) →
        IsTrue told → 0 < size → AllSized told size now →
        AllByRecursion (CanGather now size (length payload)) pieces →
        AllByRecursion (HasItsBytes (bytes_on now) size payload) pieces }
{}
