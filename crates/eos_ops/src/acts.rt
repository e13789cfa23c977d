//! The acts of a transaction, which contracts see as a list.

ghost use Rattle.std.specs.Prelude.{◌≡◌, [], ◌∷◌, ◌++◌, length, OnOk, OnErr};

use crate::Act;
use std::alloc::{AllocError, Global};
use std::marker::Model;

/// The acts of a transaction, in order. In contracts it is the list of them.
#[derive(Debug, Drop)]
pub struct Acts {
    items: Vec<Act>,
}

impl Model for Acts {
    ghost use Rattle.std.specs.Prelude.{List};
    ghost use Rattle.eos_ops.specs.declared.act.Act.{Act};

    ghost Value = { List Act };

    ghost view = { λ a. a.items.items };
}

impl Acts {
    /// No acts. It takes no memory.
    pub fn new(alloc: Global) -> Self
        ensures { result ≡ [] }
    {
        Acts {
            items: Vec::new(alloc),
        }
    }

    /// The acts of a vector, which is moved.
    pub fn from_vec(items: Vec<Act>) -> Self
        ensures { result ≡ items.items }
    {
        Acts { items }
    }

    /// The vector, which is moved.
    pub fn into_vec(self) -> Vec<Act>
        ensures { result.items ≡ self }
    {
        let Acts { items } = self;
        items
    }

    /// Adds an act.
    ///
    /// `AllocError` says that there was no memory for it. The act is then lost, and the others stay.
    pub fn push(&mut self, act: Act) -> Result<(), AllocError>
        ensures ok { OnOk result (self.new ≡ self.old ++ act ∷ []) }
        ensures err { OnErr result (self.new ≡ self.old) }
    {
        match self.items.push(act) {
            Ok(()) => Ok(()),
            Err(_) => Err(AllocError),
        }
    }

    /// All acts, where they lie.
    pub fn as_slice(&self) -> &[Act]
        ensures { result.now ≡ self.now }
    {
        &self.items
    }
}
