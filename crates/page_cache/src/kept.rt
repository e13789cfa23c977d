//! The cache: a map of bounded size from pages to nodes, over `lru`.

ghost use Rattle.std.specs.Prelude.{◌≡◌, ◌≢◌, ℕ, ◌+◌, ◌<◌, ◌≤◌, ◌↔◌, ◌⊎◌, List, [], ◌∷◌, ◌++◌};
ghost use Rattle.std.specs.Prelude.{length, not, IsTrue, IsSome, IfOk, IfSome, Some, None};
ghost use Rattle.std.specs.Prelude.{nat_eq, option_copied, if◌then◌else◌};
ghost use Rattle.std.specs.List.{filter};
ghost use Rattle.std.specs.Map.{lookup, remove_entry};
ghost use Rattle.lru.specs.LruCache.{promoted, put_entries};
ghost use Rattle.node_codec.specs.declared.parsed.Node.{Node};
ghost use Rattle.page_cache.specs.Kept.{kept, IsNodeOf, KeepsSame, IsPutIn, is_on_run};

use lru::LruCache;
use node_codec::Node;
use std::alloc::{AllocError, Global};
use std::marker::Model;
use std::num::NonZeroUsize;

/// Nodes by their pages, those that were used last.
#[derive(Drop)]
pub struct Cache {
    alloc: Global,
    capacity: usize,
    nodes: LruCache<u32, Node>,
}

impl Model for Cache {
    ghost use Rattle.std.specs.Prelude.{◌≡◌, ◌≤◌, max, length};
    ghost use Rattle.page_cache.specs.Kept.{KeptNodes};

    ghost Value = { KeptNodes };

    ghost view = { λ c. record { entries = c.nodes.entries; capacity = c.capacity } };

    ghost invariant = { λ c. (length c.nodes.entries ≤ c.capacity)
        × (c.nodes.cap ≡ max c.capacity 1) };
}

impl Cache {
    /// A cache of `capacity` nodes at most. It keeps nothing yet.
    pub fn new(alloc: Global, capacity: usize) -> Result<Cache, AllocError>
        ensures empty { IfOk result (λ cache. cache.entries ≡ []) }
        ensures capacity { IfOk result (λ cache. cache.capacity ≡ capacity) }
    {
        let size = NonZeroUsize::new(capacity.max(1)).unwrap();
        let nodes = LruCache::new(alloc, size)?;
        Ok(Cache {
            alloc,
            capacity,
            nodes,
        })
    }

    /// Lends the node that is kept for a page, if there is one. Nothing is copied, and the order of
    /// use stays.
    pub fn peek(&self, page: u32) -> Option<&Node>
        ensures node { option_copied result ≡ kept self.now page }
    {
        self.nodes.peek(&page)
    }

    /// Makes the node that is kept for a page the one used last, and says whether there is one. What
    /// is kept is as before. It takes no memory.
    pub fn promote(&mut self, page: u32) -> bool
        ensures found { IsTrue result ↔ IsSome (kept self.old page) }
        ensures same { KeepsSame self.old self.new }
        ensures used { self.new.entries ≡ promoted (nat_eq page) self.old.entries }
    {
        move_first(&mut self.nodes, page)
    }

    /// Keeps a copy of a page's node, the one used last. Where there would be too many, the one
    /// used longest ago is dropped. Where there is no memory for the copy, none is kept for the
    /// page: an older node of the page never stays.
    pub fn keep(&mut self, page: u32, node: &Node)
        ensures others { (q : ℕ) → q ≢ page
            → IfSome (kept self.new q) (λ other. kept self.old q ≡ Some other) }
        ensures node { IfSome (kept self.new page) (IsNodeOf node.now) }
        ensures put { (self.new.entries ≡ remove_entry (nat_eq page) self.old.entries)
            ⊎ IsPutIn self.old self.new page node.now }
        ensures few { length self.new.entries ≤ self.new.capacity }
        ensures capacity { self.new.capacity ≡ self.old.capacity }
    {
        if self.capacity > 0 {
            if let Ok(copy) = node.copy(self.alloc) {
                return store(&mut self.nodes, page, copy);
            }
        }
        take_out(&mut self.nodes, page);
    }

    /// Drops the node that is kept for a page, if there is one. It takes no memory.
    pub fn forget(&mut self, page: u32)
        ensures gone { kept self.new page ≡ None }
        ensures others { (q : ℕ) → q ≢ page → kept self.new q ≡ kept self.old q }
        ensures order { self.new.entries ≡ remove_entry (nat_eq page) self.old.entries }
        ensures capacity { self.new.capacity ≡ self.old.capacity }
    {
        take_out(&mut self.nodes, page);
    }

    /// Drops the nodes that are kept for the `pages` pages from `first` on. It looks at each node
    /// that is kept once, however long the run is. It takes no memory.
    pub fn forget_run(&mut self, first: u32, pages: u32)
        ensures gone { (q : ℕ) → first ≤ q → q < first + pages → kept self.new q ≡ None }
        ensures others { (q : ℕ) → (q < first) ⊎ (first + pages ≤ q) →
            kept self.new q ≡ kept self.old q }
        ensures order { self.new.entries
            ≡ filter (λ e. not (is_on_run first pages e.0)) self.old.entries }
        ensures capacity { self.new.capacity ≡ self.old.capacity }
    {
        take_run_out(&mut self.nodes, first, pages);
    }
}

/// Makes the node that is stored for a page the one used last, and says whether there is one.
fn move_first(nodes: &mut LruCache<u32, Node>, page: u32) -> bool
    ensures found { IsTrue result ↔ IsSome (lookup (nat_eq page) nodes.old.entries) }
    ensures same { (q : ℕ) → lookup (nat_eq q) nodes.new.entries
        ≡ lookup (nat_eq q) nodes.old.entries }
    ensures used { nodes.new.entries ≡ promoted (nat_eq page) nodes.old.entries }
    ensures count { length nodes.new.entries ≡ length nodes.old.entries }
    ensures capacity { nodes.new.cap ≡ nodes.old.cap }
{
    nodes.promote(&page)
}

/// Stores a page's node, and drops the one used longest ago where there would be too many. Where
/// there is no memory, no node is stored for the page.
fn store(nodes: &mut LruCache<u32, Node>, page: u32, node: Node)
    requires some { 1 ≤ nodes.old.cap }
    requires few { length nodes.old.entries ≤ nodes.old.cap }
    ensures others { (q : ℕ) → q ≢ page → IfSome (lookup (nat_eq q) nodes.new.entries)
        (λ other. lookup (nat_eq q) nodes.old.entries ≡ Some other) }
    ensures node { IfSome (lookup (nat_eq page) nodes.new.entries) (λ stored. stored ≡ node) }
    ensures put { (nodes.new.entries ≡ remove_entry (nat_eq page) nodes.old.entries)
        ⊎ (nodes.new.entries ≡ put_entries nat_eq nodes.old page node) }
    ensures few { length nodes.new.entries ≤ nodes.new.cap }
    ensures capacity { nodes.new.cap ≡ nodes.old.cap }
{
    match nodes.put(page, node) {
        Ok(_) => (),
        Err(_) => take_out(nodes, page),
    }
}

/// Takes out the node that is stored for a page.
fn take_out(nodes: &mut LruCache<u32, Node>, page: u32)
    ensures gone { lookup (nat_eq page) nodes.new.entries ≡ None }
    ensures others { (q : ℕ) → q ≢ page →
        lookup (nat_eq q) nodes.new.entries ≡ lookup (nat_eq q) nodes.old.entries }
    ensures order { nodes.new.entries ≡ remove_entry (nat_eq page) nodes.old.entries }
    ensures fewer { length nodes.new.entries ≤ length nodes.old.entries }
    ensures capacity { nodes.new.cap ≡ nodes.old.cap }
{
    if nodes.len() > 0 {
        let _ = nodes.pop(&page);
    }
}

/// Takes out the nodes that are stored for the pages of a run: each node is looked at once, from
/// the one used longest ago on, and those that stay are made the one used last, in turn.
fn take_run_out(nodes: &mut LruCache<u32, Node>, first: u32, pages: u32)
    ensures order { nodes.new.entries
        ≡ filter (λ e. not (is_on_run first pages e.0)) nodes.old.entries }
    ensures fewer { length nodes.new.entries ≤ length nodes.old.entries }
    ensures capacity { nodes.new.cap ≡ nodes.old.cap }
{
    for _turn in 0..nodes.len() {
        turn(nodes, first, pages);
    }
}

/// Takes out the node that was used longest ago where its page lies in the run, and else makes it
/// the one used last.
fn turn(nodes: &mut LruCache<u32, Node>, first: u32, pages: u32)
    ensures turned { (before : List (ℕ × Node)) (last : ℕ × Node) →
        nodes.old.entries ≡ before ++ last ∷ []
        → nodes.new.entries ≡ (if is_on_run first pages last.0 then before else last ∷ before) }
    ensures capacity { nodes.new.cap ≡ nodes.old.cap }
{
    // No two nodes are stored for one page.
    let _count = nodes.len();
    let last = match nodes.peek_lru() {
        Some((page, _)) => *page,
        None => return,
    };
    if lies_on(first, pages, last) {
        let _ = nodes.pop_lru();
    } else {
        nodes.promote(&last);
    }
}

/// Is a page one of the `pages` pages from `first` on?
fn lies_on(first: u32, pages: u32, page: u32) -> bool
    ensures { result ≡ is_on_run first pages page }
{
    first <= page && page - first < pages
}
