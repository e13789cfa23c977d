//! Nodes in a row, in three lists: their pages, how many pairs each has, and all pairs in order.

ghost use Rattle.std.specs.Prelude.{◌≡◌, ◌+◌, ◌-◌, ◌/◌, ◌%◌, ◌^◌, ◌<◌, [], ◌∷◌, ◌++◌, length};
ghost use Rattle.std.specs.Prelude.{take, replicate, sum_by, IfOk, OnOk, OnErr};
ghost use Rattle.layout_model.specs.Levels.{pairs_of_level, sizes_of, cut_into, on_pages};
ghost use Rattle.tree_splice.specs.Remade.{counts_of, row_pages};

use node_codec::Pair;
use std::alloc::{AllocError, Global};
use std::marker::Model;

/// Nodes in a row, each on its page. Contracts see the list of them.
#[derive(Drop)]
pub struct NodeRun {
    pages: Vec<u32>,
    counts: Vec<usize>,
    pairs: Vec<Pair>,
}

impl Model for NodeRun {
    ghost use Rattle.std.specs.Prelude.{◌≡◌, List, length, sum_by};
    ghost use Rattle.layout_model.specs.Levels.{PageNode, cut_into, on_pages};

    ghost Value = { List PageNode };

    ghost view = { λ r. on_pages r.pages.items (cut_into r.counts.items r.pairs.items) };

    ghost invariant = { λ r. (length r.pages.items ≡ length r.counts.items)
        × (sum_by (λ n. n) r.counts.items ≡ length r.pairs.items) };
}

impl NodeRun {
    /// No node. It takes no memory.
    pub fn new(alloc: Global) -> NodeRun
        ensures { result ≡ [] }
    {
        NodeRun {
            pages: Vec::new(alloc),
            counts: Vec::new(alloc),
            pairs: Vec::new(alloc),
        }
    }

    /// The nodes that these pairs are cut into, at most `f` a node: as few nodes as hold them, as
    /// even as possible, the larger ones first. They stand on the first of these pages, and on page
    /// 0 where none is left.
    pub fn cut(
        alloc: Global,
        f: usize,
        pairs: Vec<Pair>,
        pages: &[u32],
    ) -> Result<NodeRun, AllocError>
        requires some { 0 < f }
        requires fits { length pairs.items + f < 2 ^ 64 }
        ensures { IfOk result (λ nodes. nodes
            ≡ on_pages pages.now (cut_into (sizes_of f (length pairs.items)) pairs.items)) }
    {
        let counts = counts_for(alloc, f, pairs.len())?;
        let pages = padded(alloc, pages, counts.len())?;
        Ok(NodeRun {
            pages,
            counts,
            pairs,
        })
    }

    /// Appends a node. After a refusal the nodes are as before.
    pub fn push(&mut self, page: u32, pairs: &[Pair]) -> Result<(), AllocError>
        ensures ok { OnOk result (self.new
            ≡ self.old ++ record { page = page; pairs = pairs.now } ∷ []) }
        ensures err { OnErr result (self.new ≡ self.old) }
    {
        self.pages.reserve(1)?;
        self.counts.reserve(1)?;
        self.pairs.extend_from_slice(pairs)?;
        self.counts.push_reserved(pairs.len());
        self.pages.push_reserved(page);
        Ok(())
    }

    /// How many nodes there are.
    pub fn len(&self) -> usize
        ensures count { result ≡ length self.now }
        ensures small { result < 2 ^ 63 }
    {
        self.pages.len()
    }

    /// The pages of the nodes.
    pub fn pages(&self) -> &[u32]
        ensures { result.now ≡ row_pages self.now }
    {
        self.pages.as_slice()
    }

    /// How many pairs each node has.
    pub fn counts(&self) -> &[usize]
        ensures counts { result.now ≡ counts_of self.now }
        ensures small { sum_by (λ n. n) result.now < 2 ^ 63 }
    {
        self.counts.as_slice()
    }

    /// The pairs of all nodes in order.
    pub fn pairs(&self) -> &[Pair]
        ensures { result.now ≡ pairs_of_level self.now }
    {
        self.pairs.as_slice()
    }
}

/// The numbers of pairs of the nodes that `n` pairs are cut into.
fn counts_for(alloc: Global, f: usize, n: usize) -> Result<Vec<usize>, AllocError>
    requires some { 0 < f }
    requires fits { n + f < 2 ^ 64 }
    ensures { IfOk result (λ counts. counts.items ≡ sizes_of f n) }
{
    if n == 0 {
        return Ok(Vec::new(alloc));
    }
    even_counts(alloc, (n + (f - 1)) / f, n)
}

/// `n` pairs in so many nodes, as even as possible, the larger ones first.
fn even_counts(alloc: Global, nodes: usize, n: usize) -> Result<Vec<usize>, AllocError>
    requires some { 0 < nodes }
    requires fits { n < 2 ^ 64 - 1 }
    ensures { IfOk result (λ counts. counts.items
        ≡ replicate (n % nodes) (n / nodes + 1) ++ replicate (nodes - n % nodes) (n / nodes)) }
{
    let larger = n % nodes;
    let mut counts = vec![in alloc; n / nodes + 1; larger]?;
    counts.resize(nodes, n / nodes)?;
    Ok(counts)
}

/// The first `n` of these pages, with 0 in the place of each that isn't there.
fn padded(alloc: Global, pages: &[u32], n: usize) -> Result<Vec<u32>, AllocError>
    ensures { IfOk result (λ all. all.items
        ≡ take n pages.now ++ replicate (n - length pages.now) 0) }
{
    let given = n.min(pages.len());
    let mut all = Vec::from_slice(alloc, &pages[..given])?;
    all.resize(n, 0)?;
    Ok(all)
}
