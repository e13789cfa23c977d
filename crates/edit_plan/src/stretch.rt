//! Stretches of the bytes of pieces.

ghost use Rattle.std.specs.Prelude.{◌≡◌, ◌<◌, ◌≤◌, ◌++◌, IfOk, OnOk};
ghost use Rattle.std.specs.List.{AllByRecursion};
ghost use Rattle.edit_parts.specs.Pieces.{piece_bytes};
ghost use Rattle.edit_plan.specs.Cuts.{IsNumbered, part_between, piece_part, stretch_of};

use edit_parts::{Piece, Pieces, ROOM};
use std::alloc::{AllocError, Global};

/// The bytes of pieces from one place on and before another, as pieces.
pub fn stretch(
    alloc: Global,
    pieces: &[Piece],
    page: u32,
    mut from: u64,
    mut to: u64,
) -> Result<Pieces, AllocError>
    requires some { 0 < page }
    requires numbered { AllByRecursion (IsNumbered page) pieces.now }
    ensures { IfOk result (λ cut. cut ≡ stretch_of page from to pieces.now) }
{
    let mut cut = Pieces::with_room(alloc, ROOM)?;
    for piece in pieces {
        push_between(&mut cut, *piece, page, from, to)?;
        from = from.saturating_sub(piece.bytes());
        to = to.saturating_sub(piece.bytes());
    }
    Ok(cut)
}

/// Puts the bytes of a piece from one place on and before another behind others, where there are
/// any.
fn push_between(
    cut: &mut Pieces,
    piece: Piece,
    page: u32,
    from: u64,
    to: u64,
) -> Result<(), AllocError>
    requires some { 0 < page }
    requires numbered { IsNumbered page piece }
    ensures { OnOk result (cut.new ≡ cut.old ++ part_between page from to piece) }
{
    let end = to.min(piece.bytes());
    if from < end {
        cut.push(piece_part(piece, page, from, end - from))?;
    }
    Ok(())
}

/// So many bytes of a piece, behind its first ones.
fn piece_part(piece: Piece, page: u32, skip: u64, count: u64) -> Piece
    requires some { 0 < page }
    requires numbered { IsNumbered page piece }
    requires within { skip < piece_bytes piece }
    ensures { result ≡ piece_part page skip count piece }
{
    match piece {
        Piece::Old {
            page: first,
            skip: before,
            ..
        } => {
            let place = before as u64 + skip;
            Piece::Old {
                page: first + (place / page as u64) as u32,
                skip: (place % page as u64) as u32,
                bytes: count,
            }
        }
        Piece::Given { from, .. } => Piece::Given {
            from: from + skip,
            bytes: count,
        },
    }
}
