//! What the laws know of a kind of body.

ghost use Rattle.std.specs.Prelude.{ℕ};
ghost use Rattle.geometry_model.specs.Numbers.{Numbers};
ghost use Rattle.layout_model.specs.Layout.{Tree};
ghost use Rattle.moment_model.specs.Run.{Lays};

/// A kind of body: how it lays out an edit of its object, and which trees are good ones of it. A
/// law that holds for each kind is generic in it.
pub trait Kind {
    /// The slot after an edit, and the pages that are free then; or the pages that no space had a
    /// place for.
    ghost laid: { Lays };

    /// The rule by which a tree is a good one.
    ghost good: { Numbers → Tree → Type 0 };
}
