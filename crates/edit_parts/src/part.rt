//! A part of an object that is edited.

ghost use Rattle.std.specs.Prelude.{◌≡◌, ◌-◌, ◌^◌, ◌++◌, min, IfOk, OnOk, OnErr};
ghost use Rattle.layout_model.specs.Parts.{part_bytes};
ghost use Rattle.edit_parts.specs.Parts.{layout_part, pieces_in};

use crate::piece::Piece;
use crate::piece_list::{Pieces, ROOM};
use std::alloc::{AllocError, Global};
use tree_model::Pair;

/// A segment, or what is left of one, that stays on its pages; or bytes that get new pages.
#[derive(Drop)]
pub enum Part {
    /// Bytes that stay where they are.
    Keep(Pair),
    /// Bytes that are gathered from their pieces and written anew.
    Make(Pieces),
}

impl Part {
    /// Its bytes, or the greatest number of 64 bits where they are more.
    pub fn bytes(&self) -> u64
        ensures { result ≡ min (part_bytes (layout_part self.now)) (2 ^ 64 - 1) }
    {
        match self {
            Part::Keep(pair) => Piece::whole(*pair).bytes(),
            Part::Make(pieces) => pieces.bytes(),
        }
    }

    /// The pieces of its bytes. It takes memory for a part that was kept.
    pub fn into_pieces(self, alloc: Global) -> Result<Pieces, AllocError>
        ensures { IfOk result (λ pieces. pieces ≡ pieces_in self) }
    {
        match self {
            Part::Make(pieces) => Ok(pieces),
            Part::Keep(pair) => {
                let mut pieces = Pieces::with_room(alloc, ROOM)?;
                pieces.push(Piece::whole(pair))?;
                Ok(pieces)
            }
        }
    }

    /// Puts the pieces of its bytes behind others, which are as before after a refusal.
    pub fn append_to(&self, pieces: &mut Pieces) -> Result<(), AllocError>
        ensures ok { OnOk result (pieces.new ≡ pieces.old ++ pieces_in self.now) }
        ensures err { OnErr result (pieces.new ≡ pieces.old) }
    {
        match self {
            Part::Keep(pair) => pieces.push(Piece::whole(*pair)),
            Part::Make(others) => pieces.extend(others.as_slice()),
        }
    }
}
