//! A tree with the spare pages behind it.

ghost use Rattle.std.specs.Prelude.{◌≡◌};

use crate::tree::Tree;
use layout_model::Extent;
use std::marker::Model;

/// A tree and the spare pages behind its last segment.
#[derive(Drop)]
pub struct Laid {
    tree: Tree,
    spare: Option<Extent>,
}

impl Model for Laid {
    ghost use Rattle.layout_model.specs.Layout.{Laid};

    ghost Value = { Laid };

    ghost view = { λ l. record { tree = l.tree; spare = l.spare } };
}

impl Laid {
    /// A tree and a spare.
    pub fn new(tree: Tree, spare: Option<Extent>) -> Laid
        ensures { result ≡ record { tree = tree; spare = spare } }
    {
        Laid { tree, spare }
    }

    /// The spare pages.
    pub fn spare(&self) -> Option<Extent>
        ensures { result ≡ self.now.spare }
    {
        self.spare
    }

    /// The tree, which is moved.
    pub fn into_tree(self) -> Tree
        ensures { result ≡ self.tree }
    {
        let Laid { tree, .. } = self;
        tree
    }
}
