//! What a level becomes.

ghost use Rattle.std.specs.Prelude.{◌≡◌};

use crate::node::Node;
use std::marker::Model;

/// A level with some of its nodes made anew, and which ones of the old level these replace.
#[derive(Drop)]
pub struct NewLevel {
    nodes: Vec<Node>,
    from: u64,
    count: u64,
    made: Vec<Node>,
}

impl Model for NewLevel {
    ghost use Rattle.layout_model.specs.Levels.{NewLevel};

    ghost Value = { NewLevel };

    ghost view = { λ l. record {
      nodes = l.nodes.items;
      from = l.from;
      count = l.count;
      made =
          l.made.items;
    } };
}

impl NewLevel {
    /// A level of these nodes, of which the made ones replace `count` from number `from` on.
    pub fn new(nodes: Vec<Node>, from: u64, count: u64, made: Vec<Node>) -> NewLevel
        ensures { result ≡ record {
          nodes = nodes.items;
          from = from;
          count = count;
          made =
              made.items;
        } }
    {
        NewLevel {
            nodes,
            from,
            count,
            made,
        }
    }

    /// All nodes of the level.
    pub fn nodes(&self) -> &[Node]
        ensures { result.now ≡ self.now.nodes }
    {
        &self.nodes
    }

    /// The nodes that are made.
    pub fn made(&self) -> &[Node]
        ensures { result.now ≡ self.now.made }
    {
        &self.made
    }

    /// The first node of the old level that is replaced.
    pub fn from(&self) -> u64
        ensures { result ≡ self.now.from }
    {
        self.from
    }

    /// How many of its nodes are replaced.
    pub fn count(&self) -> u64
        ensures { result ≡ self.now.count }
    {
        self.count
    }
}
