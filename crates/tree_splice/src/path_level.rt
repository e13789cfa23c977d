//! What is known of a level on the way to an exchange.

ghost use Rattle.std.specs.Prelude.{◌≡◌, ◌^◌, ◌<◌, ◌&&◌, not};

use crate::node_run::NodeRun;
use std::marker::Model;

/// A run of a level's nodes, the number of the pair that names the first of them among the pairs of
/// the run above (0 on the highest level), and whether the level has other nodes before the run,
/// and behind it.
#[derive(Drop)]
pub struct PathLevel {
    nodes: NodeRun,
    first: u32,
    before: bool,
    behind: bool,
}

impl Model for PathLevel {
    ghost use Rattle.local_laws.specs.Path.{PathLevel};

    ghost Value = { PathLevel };

    ghost view = { λ l. record {
      nodes = l.nodes;
      first = l.first;
      before = l.before;
      behind = l.behind;
    } };
}

impl PathLevel {
    /// A level of which this is known.
    pub fn new(nodes: NodeRun, first: u32, before: bool, behind: bool) -> PathLevel
        ensures { result
            ≡ record { nodes = nodes; first = first; before = before; behind = behind } }
    {
        PathLevel {
            nodes,
            first,
            before,
            behind,
        }
    }

    /// The nodes of the run.
    pub fn nodes(&self) -> &NodeRun
        ensures { result.now ≡ self.now.nodes }
    {
        &self.nodes
    }

    /// The number of the pair that names the first node of the run, among those of the run above.
    pub fn first(&self) -> usize
        ensures first { result ≡ self.now.first }
        ensures small { result < 2 ^ 32 }
    {
        self.first as usize
    }

    /// Is the run all of its level?
    pub fn is_whole(&self) -> bool
        ensures { result ≡ (not self.now.before && not self.now.behind) }
    {
        !self.before && !self.behind
    }
}
