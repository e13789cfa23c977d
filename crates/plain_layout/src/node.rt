//! A node of a tree with its page.

ghost use Rattle.std.specs.Prelude.{◌≡◌, IfOk, ◌++◌, map};
ghost use Rattle.tree_model.specs.Tree.{bytes_of};
ghost use Rattle.layout_model.specs.Levels.{pair_of, pairs_of_level};

use plain_plan::{Fail, add, cons, join};
use std::alloc::Global;
use std::marker::Model;
use tree_model::Pair;

/// A node and the page that it stands on.
#[derive(Drop)]
pub struct Node {
    page: u32,
    pairs: Vec<Pair>,
}

impl Model for Node {
    ghost use Rattle.layout_model.specs.Levels.{PageNode};

    ghost Value = { PageNode };

    ghost view = { λ n. record { page = n.page; pairs = n.pairs.items } };
}

impl Node {
    /// A node of these pairs on a page.
    pub fn new(page: u32, pairs: Vec<Pair>) -> Node
        ensures { result ≡ record { page = page; pairs = pairs.items } }
    {
        Node { page, pairs }
    }

    /// The page.
    pub fn page(&self) -> u32
        ensures { result ≡ self.now.page }
    {
        self.page
    }

    /// The pairs.
    pub fn pairs(&self) -> &[Pair]
        ensures { result.now ≡ self.now.pairs }
    {
        &self.pairs
    }

    /// The same node once more.
    pub fn copy(&self, alloc: Global) -> Result<Node, Fail>
        ensures { IfOk result (λ copy. copy ≡ self.now) }
    {
        Ok(Node {
            page: self.page,
            pairs: Vec::from_slice(alloc, &self.pairs)?,
        })
    }
}

/// The bytes under these pairs.
pub fn entry_bytes(pairs: &[Pair]) -> Result<u64, Fail>
    ensures { IfOk result (λ bytes. bytes ≡ bytes_of pairs.now) }
{
    match pairs {
        [] => Ok(0),
        [pair, others @ ..] => add(pair.bytes, entry_bytes(others)?),
    }
}

/// The pair that names a node.
pub fn pair_of(node: &Node) -> Result<Pair, Fail>
    ensures { IfOk result (λ pair. pair ≡ pair_of node.now) }
{
    Ok(Pair {
        bytes: entry_bytes(node.pairs())?,
        page: node.page(),
    })
}

/// The pairs that name these nodes.
pub fn names_of(alloc: Global, nodes: &[Node]) -> Result<Vec<Pair>, Fail>
    ensures { IfOk result (λ pairs. pairs.items ≡ map pair_of nodes.now) }
{
    match nodes {
        [] => Ok(Vec::new(alloc)),
        [node, others @ ..] => cons(pair_of(node)?, names_of(alloc, others)?),
    }
}

/// All pairs of these nodes in order.
pub fn pairs_of_level(alloc: Global, nodes: &[Node]) -> Result<Vec<Pair>, Fail>
    ensures { IfOk result (λ pairs. pairs.items ≡ pairs_of_level nodes.now) }
{
    match nodes {
        [] => Ok(Vec::new(alloc)),
        [node, others @ ..] => join(
            Vec::from_slice(alloc, node.pairs())?,
            &pairs_of_level(alloc, others)?,
        ),
    }
}

/// The same nodes once more.
pub fn copy_nodes(alloc: Global, nodes: &[Node]) -> Result<Vec<Node>, Fail>
    ensures { IfOk result (λ copy. copy.items ≡ nodes.now) }
{
    match nodes {
        [] => Ok(Vec::new(alloc)),
        [node, others @ ..] => cons(node.copy(alloc)?, copy_nodes(alloc, others)?),
    }
}

/// Nodes before other ones.
pub fn copy_before(alloc: Global, nodes: &[Node], behind: Vec<Node>) -> Result<Vec<Node>, Fail>
    ensures { IfOk result (λ all. all.items ≡ nodes.now ++ behind.items) }
{
    match nodes {
        [] => Ok(behind),
        [node, others @ ..] => cons(node.copy(alloc)?, copy_before(alloc, others, behind)?),
    }
}
