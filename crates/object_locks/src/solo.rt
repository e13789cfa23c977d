//! Object locks for one thread.

ghost use Rattle.std.specs.Prelude.{◌≡◌, ◌<◌, ◌^◌, Some, vec_len, map, All, IsSome, IfOk, IfErr};
ghost use Rattle.object_locks.specs.Solo.{solo_shelving, AreSuited};

use crate::{Aged, Busy, Shelf};
use std::alloc::Global;
use std::marker::Model;

/// The objects of a store, each home or out. In contracts it is the list of its slots.
#[derive(Drop)]
pub struct SoloShelf<T: Aged> {
    slots: Vec<Option<T>>,
    // The vector that the objects came in, empty, with room for all of them.
    room: Vec<T>,
}

impl<T: Aged> Model for SoloShelf<T> {
    ghost use Rattle.std.specs.Prelude.{List, Option, vec_capacity};
    ghost use Rattle.object_locks.specs.Solo.{IsSolo};

    ghost Value = { List (Option T) };

    ghost view = { λ s. s.slots.items };

    ghost invariant = { λ s. IsSolo T.rests s.slots.items s.room.items (vec_capacity s.room) };
}

impl<T: Aged> Shelf<T> for SoloShelf<T> {
    ghost shelving = { solo_shelving };

    ghost under = { AreSuited T.frame T.legal };

    fn objects(&self) -> u32 {
        self.slots.len() as u32
    }

    fn take(&mut self, o: u32) -> Result<T, Busy> {
        self.slots[o as usize].take().ok_or(Busy)
    }

    fn put(&mut self, o: u32, value: T) {
        self.slots[o as usize] = Some(value);
    }
}

impl<T: Aged> SoloShelf<T> {
    /// A shelf of these objects, that at index `o` as object `o`. Where memory is refused, they
    /// come back.
    pub fn new(alloc: Global, objects: Vec<T>) -> Result<SoloShelf<T>, Vec<T>>
        requires fits { vec_len objects < 2 ^ 32 }
        requires rests { All T.rests objects.items }
        ensures ok { IfOk result (λ shelf. shelf ≡ map Some objects.items) }
        ensures err { IfErr result (λ back. back.items ≡ objects.items) }
    {
        let Ok(mut slots) = Vec::with_capacity(alloc, objects.len()) else {
            return Err(objects);
        };
        let mut room = objects;
        room.reverse();
        'moves: while let Some(value) = room.pop() {
            slots.push_reserved(Some(value));
        }
        Ok(SoloShelf { slots, room })
    }

    /// All objects, in order, when all are home. It takes no memory.
    pub fn finish(self) -> Vec<T>
        requires { All IsSome self }
        ensures { map Some result.items ≡ self }
    {
        let SoloShelf { slots, mut room } = self;
        'moves: for slot in slots {
            if let Some(value) = slot {
                room.push_reserved(value);
            }
        }
        room
    }
}
