//! A row of pieces, and beside it the spare ones: how a piece is split, and how memory is taken
//! beforehand.

ghost use Rattle.std.specs.Prelude.{◌≡◌, ℕ, ◌+◌, ◌<◌, ◌≤◌, length, vec_capacity, OnOk};
ghost use Rattle.span_store.specs.Pieces.{AreEnough, IsPieceOf, IsStocked, load, piece_at};
ghost use Rattle.span_store.specs.Pieces.{spans_in, with_split};

use crate::piece::{LIMIT, Piece};
use crate::place::piece_of;
use crate::spans::put;
use page_port::Span;
use std::alloc::{AllocError, Global};

/// Splits a full piece by a spare one. It takes no memory.
fn split<S: Span>(pieces: &mut Vec<Piece<S>>, spare: &mut Vec<Piece<S>>, index: usize)
    requires row { IsStocked pieces.old.items spare.old.items
        (vec_capacity pieces.old) (vec_capacity spare.old) }
    requires within { index < length pieces.old.items }
    requires full { length (piece_at pieces.old.items index) ≡ 128 }
    requires some { 1 ≤ length spare.old.items }
    ensures row { IsStocked pieces.new.items spare.new.items
        (vec_capacity pieces.new) (vec_capacity spare.new) }
    ensures pieces { pieces.new.items ≡ with_split pieces.old.items index }
    ensures spare { length spare.new.items + 1 ≡ length spare.old.items }
{
    let Some(mut back) = spare.pop() else {
        unreachable!()
    };
    pieces[index].halve(&mut back);
    put(pieces, index + 1, back);
}

/// The piece that a page belongs to, with room for one span more: a full one is split. It takes no
/// memory.
pub fn piece_with_room<S: Span>(
    pieces: &mut Vec<Piece<S>>,
    spare: &mut Vec<Piece<S>>,
    page: u64,
) -> usize
    requires row { IsStocked pieces.old.items spare.old.items
        (vec_capacity pieces.old) (vec_capacity spare.old) }
    requires pieces { 1 ≤ length pieces.old.items }
    requires spare { 1 ≤ length spare.old.items }
    ensures row { IsStocked pieces.new.items spare.new.items
        (vec_capacity pieces.new) (vec_capacity spare.new) }
    ensures spans { spans_in pieces.new.items ≡ spans_in pieces.old.items }
    ensures piece { IsPieceOf pieces.new.items page result }
    ensures free { length (piece_at pieces.new.items result) < 128 }
    ensures room { (n : ℕ)
        → AreEnough (length spare.old.items) (load pieces.old.items) (n + 1)
        → AreEnough (length spare.new.items) (load pieces.new.items + 1) n }
{
    let index = piece_of(pieces.as_slice(), page);
    if pieces[index].len() < LIMIT {
        return index;
    }
    split(pieces, spare, index);
    let next = index + 1;
    if pieces[next].first() as u64 <= page {
        next
    } else {
        index
    }
}

/// Takes memory so that there are `count` spare pieces.
///
/// # Errors
/// There was no memory. There may be some more spare pieces than before.
pub fn prepare<S: Span>(
    pieces: &mut Vec<Piece<S>>,
    spare: &mut Vec<Piece<S>>,
    alloc: Global,
    count: usize,
) -> Result<(), AllocError>
    requires row { IsStocked pieces.old.items spare.old.items
        (vec_capacity pieces.old) (vec_capacity spare.old) }
    ensures row { IsStocked pieces.new.items spare.new.items
        (vec_capacity pieces.new) (vec_capacity spare.new) }
    ensures pieces { pieces.new.items ≡ pieces.old.items }
    ensures kept { length spare.old.items ≤ length spare.new.items }
    ensures spare { OnOk result (count ≤ length spare.new.items) }
{
    let all = spare.len().max(count);
    pieces.reserve(all)?;
    let more = pieces.len() + (all - spare.len());
    spare.reserve(more)?;
    while spare.len() < count {
        let piece = Piece::new(alloc)?;
        spare.push_reserved(piece);
    }
    Ok(())
}
