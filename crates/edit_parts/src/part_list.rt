//! The parts of an object that is edited.

ghost use Rattle.std.specs.Prelude.{◌≡◌, [], ◌∷◌, ◌++◌, IfOk, IfNone, IfSome, OnOk, OnErr};

use crate::part::Part;
use std::alloc::{AllocError, Global};
use std::marker::Model;

/// Parts in the order of their bytes. Contracts see them as a list.
#[derive(Drop)]
pub struct Parts {
    list: Vec<Part>,
}

impl Model for Parts {
    ghost use Rattle.std.specs.Prelude.{List};
    ghost use Rattle.edit_parts.specs.declared.part.Part.{Part};

    ghost Value = { List Part };

    ghost view = { λ p. p.list.items };
}

impl Parts {
    /// No parts, with room for `room`.
    pub fn with_room(alloc: Global, room: usize) -> Result<Parts, AllocError>
        ensures { IfOk result (λ parts. parts ≡ []) }
    {
        let list = Vec::with_capacity(alloc, room)?;
        Ok(Parts { list })
    }

    /// Puts a part behind the others. After a refusal they are as before.
    pub fn push(&mut self, part: Part) -> Result<(), AllocError>
        ensures ok { OnOk result (self.new ≡ self.old ++ part ∷ []) }
        ensures err { OnErr result (self.new ≡ self.old) }
    {
        self.list.push(part)?;
        Ok(())
    }

    /// Takes the last part out. It takes no memory.
    pub fn pop(&mut self) -> Option<Part>
        ensures some { IfSome result (λ part. self.old ≡ self.new ++ part ∷ []) }
        ensures none { IfNone result ((self.old ≡ []) × (self.new ≡ [])) }
    {
        self.list.pop()
    }

    /// The parts.
    pub fn as_slice(&self) -> &[Part]
        ensures { result.now ≡ self.now }
    {
        self.list.as_slice()
    }

    /// The parts as a vector. It takes no memory.
    pub fn into_vec(self) -> Vec<Part>
        ensures { result.items ≡ self }
    {
        let Parts { list } = self;
        list
    }
}
