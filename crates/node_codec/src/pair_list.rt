//! A list of pairs with the room that was made for it.

ghost use Rattle.std.specs.Prelude.{◌≡◌, ◌+◌, ◌<◌, ◌≤◌, [], ◌∷◌, ◌++◌, length, IfOk, OnOk, OnErr};
ghost use Rattle.std.specs.Vec.{vec_capacity};

use std::alloc::{AllocError, Global};
use std::marker::Model;
use tree_model::Pair;

/// Pairs in order. Contracts see the items, and beside them how many the list has room for.
#[derive(Drop)]
pub struct Pairs {
    list: Vec<Pair>,
}

impl Model for Pairs {
    ghost use Rattle.std.specs.Prelude.{ℕ};
    ghost use Rattle.std.specs.Vec.{vec_capacity};
    ghost use Rattle.node_codec.specs.PairList.{PairList};

    ghost Value = { PairList };

    ghost view = { λ p. record { items = p.list.items; room = vec_capacity p.list } };
}

impl Pairs {
    /// An empty list with no room. It takes no memory.
    pub fn new(alloc: Global) -> Pairs
        ensures { result.items ≡ [] }
    {
        Pairs {
            list: Vec::new(alloc),
        }
    }

    /// An empty list with room for `room` pairs.
    pub fn with_room(alloc: Global, room: usize) -> Result<Pairs, AllocError>
        ensures empty { IfOk result (λ pairs. pairs.items ≡ []) }
        ensures room { IfOk result (λ pairs. pairs.room ≡ room) }
    {
        let list = Vec::with_capacity(alloc, room)?;
        Ok(Pairs { list })
    }

    /// The list of a vector's items. It takes no memory.
    pub fn from_vec(list: Vec<Pair>) -> Pairs
        ensures items { result.items ≡ list.items }
        ensures room { result.room ≡ vec_capacity list }
    {
        Pairs { list }
    }

    /// The items as a vector. It takes no memory.
    pub fn into_vec(self) -> Vec<Pair>
        ensures items { result.items ≡ self.items }
        ensures room { vec_capacity result ≡ self.room }
    {
        let Pairs { list } = self;
        list
    }

    /// The pairs.
    pub fn as_slice(&self) -> &[Pair]
        ensures { result.now ≡ self.now.items }
    {
        self.list.as_slice()
    }

    /// How many pairs there are.
    pub fn len(&self) -> usize
        ensures { result ≡ length self.now.items }
    {
        self.list.len()
    }

    /// Takes all pairs out. The room stays.
    pub fn clear(&mut self)
        ensures items { self.new.items ≡ [] }
        ensures room { self.new.room ≡ self.old.room }
    {
        self.list.clear();
    }

    /// Puts a pair at the end. It takes no memory: there is room for it.
    pub fn put(&mut self, pair: Pair)
        requires { length self.old.items < self.old.room }
        ensures items { self.new.items ≡ self.old.items ++ pair ∷ [] }
        ensures room { self.new.room ≡ self.old.room }
    {
        self.list.push_reserved(pair);
    }

    /// Takes on the pairs of a slice in place of its own. It takes no memory: there is room for
    /// them.
    pub fn copy_from(&mut self, pairs: &[Pair])
        requires { length pairs.now ≤ self.old.room }
        ensures items { self.new.items ≡ pairs.now }
        ensures room { self.new.room ≡ self.old.room }
    {
        self.clear();
        for pair in pairs {
            self.put(*pair);
        }
    }

    /// Puts a pair at the end. After a refusal the list is as before.
    pub fn push(&mut self, pair: Pair) -> Result<(), AllocError>
        ensures ok { OnOk result (self.new.items ≡ self.old.items ++ pair ∷ []) }
        ensures err { OnErr result (self.new.items ≡ self.old.items) }
    {
        self.list.push(pair)?;
        Ok(())
    }
}
