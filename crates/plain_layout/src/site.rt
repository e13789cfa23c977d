//! A run of a level's nodes.

use std::marker::Model;

/// A run of a level's nodes: so many stand before it, and so many are in it.
#[derive(Drop)]
pub struct Site {
    pub before: u64,
    pub nodes: u64,
}

impl Model for Site {
    ghost use Rattle.layout_model.specs.Levels.{Site};

    ghost Value = { Site };

    ghost view = { λ s. record { before = s.before; nodes = s.nodes } };
}
