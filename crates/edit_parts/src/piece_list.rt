//! The pieces of a new part.

ghost use Rattle.std.specs.Prelude.{◌≡◌, ◌+◌, ◌-◌, ◌^◌, [], ◌∷◌, ◌++◌, min, IfOk, OnOk, OnErr};
ghost use Rattle.edit_parts.specs.Pieces.{pieces_bytes};

use crate::piece::Piece;
use std::alloc::{AllocError, Global};
use std::marker::Model;

/// The pieces of all parts that an edit leaves, if they are merged into one: one for each segment
/// that is kept or cut, one for the new bytes, and one for the bytes up to a border of a page.
pub const ROOM: usize = 6;

/// Pieces in the order of their bytes. Contracts see them as a list.
#[derive(Drop)]
pub struct Pieces {
    list: Vec<Piece>,
    bytes: u64,
}

impl Model for Pieces {
    ghost use Rattle.std.specs.Prelude.{◌≡◌, ◌-◌, ◌^◌, List, min};
    ghost use Rattle.edit_parts.specs.declared.piece.Piece.{Piece};
    ghost use Rattle.edit_parts.specs.Pieces.{pieces_bytes};

    ghost Value = { List Piece };

    ghost view = { λ p. p.list.items };

    ghost invariant = { λ p. p.bytes ≡ min (pieces_bytes p.list.items) (2 ^ 64 - 1) };
}

impl Pieces {
    /// No pieces, with room for `room`.
    pub fn with_room(alloc: Global, room: usize) -> Result<Pieces, AllocError>
        ensures { IfOk result (λ pieces. pieces ≡ []) }
    {
        let list = Vec::with_capacity(alloc, room)?;
        Ok(Pieces { list, bytes: 0 })
    }

    /// Puts a piece behind the others. After a refusal they are as before.
    pub fn push(&mut self, piece: Piece) -> Result<(), AllocError>
        ensures ok { OnOk result (self.new ≡ self.old ++ piece ∷ []) }
        ensures err { OnErr result (self.new ≡ self.old) }
    {
        self.list.push(piece)?;
        self.bytes = self.bytes.saturating_add(piece.bytes());
        Ok(())
    }

    /// Puts pieces behind these. After a refusal these are as before.
    pub fn extend(&mut self, pieces: &[Piece]) -> Result<(), AllocError>
        ensures ok { OnOk result (self.new ≡ self.old ++ pieces.now) }
        ensures err { OnErr result (self.new ≡ self.old) }
    {
        self.list.extend_from_slice(pieces)?;
        self.bytes = add_bytes(self.bytes, pieces);
        Ok(())
    }

    /// The pieces.
    pub fn as_slice(&self) -> &[Piece]
        ensures { result.now ≡ self.now }
    {
        self.list.as_slice()
    }

    /// The bytes of all pieces together, or the greatest number of 64 bits where they are more.
    pub fn bytes(&self) -> u64
        ensures { result ≡ min (pieces_bytes self.now) (2 ^ 64 - 1) }
    {
        self.bytes
    }
}

/// A number of bytes and those of pieces, or the greatest number of 64 bits where they are more.
fn add_bytes(mut bytes: u64, pieces: &[Piece]) -> u64
    ensures { result ≡ min (bytes + pieces_bytes pieces.now) (2 ^ 64 - 1) }
{
    for piece in pieces {
        bytes = bytes.saturating_add(piece.bytes());
    }
    bytes
}
