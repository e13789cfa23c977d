//! A piece of the bytes of a new part.

ghost use Rattle.std.specs.Prelude.{◌≡◌};
ghost use Rattle.edit_parts.specs.Pieces.{piece_bytes, whole_piece};

use tree_model::Pair;

/// A run of bytes that a new part has: bytes of the object that stand on its pages, or new ones.
#[derive(Clone, Copy, PartialEq, Eq, Debug)]
pub enum Piece {
    /// Bytes of the object.
    Old {
        /// The page that they begin on, or one before it.
        page: u32,
        /// The bytes from the start of that page to the first of them.
        skip: u32,
        /// How many.
        bytes: u64,
    },
    /// Bytes of the payload.
    Given {
        /// The bytes of the payload before the first of them.
        from: u64,
        /// How many.
        bytes: u64,
    },
}

impl Piece {
    /// The bytes of a segment as one piece.
    pub fn whole(pair: Pair) -> Piece
        ensures { result ≡ whole_piece pair }
    {
        Piece::Old {
            page: pair.page,
            skip: 0,
            bytes: pair.bytes,
        }
    }

    /// How many bytes it has.
    pub fn bytes(&self) -> u64
        ensures { result ≡ piece_bytes self.now }
    {
        match self {
            Piece::Old { bytes, .. } => *bytes,
            Piece::Given { bytes, .. } => *bytes,
        }
    }
}
