//! Each call of the lists once, with ample memory.

use crate::{Part, Parts, Piece, Pieces, ROOM};
use std::test::Fail;
use tree_model::Pair;

#[test]
fn parts_keep_their_order_and_their_bytes(rt: HostRuntime) -> Result<(), Fail> {
    let alloc = rt.alloc();
    let pair = Pair {
        bytes: 300,
        page: 7,
    };
    let given = Piece::Given { from: 4, bytes: 20 };
    let mut pieces = Pieces::with_room(alloc, ROOM)?;
    pieces.push(given)?;
    Part::Keep(pair).append_to(&mut pieces)?;
    assert_eq!(rt; pieces.bytes(), 320);
    let mut parts = Parts::with_room(alloc, 1)?;
    parts.push(Part::Keep(pair))?;
    parts.push(Part::Make(pieces))?;
    assert_eq!(rt; parts.as_slice().len(), 2);
    let Some(last) = parts.pop() else {
        return Err(Fail::from("there is a last part"));
    };
    assert_eq!(rt; last.bytes(), 320);
    let want = [given, Piece::whole(pair)];
    assert_eq!(rt; last.into_pieces(alloc)?.as_slice(), want.as_slice());
    for part in parts.into_vec() {
        let whole = part.into_pieces(alloc)?;
        assert_eq!(rt; whole.as_slice(), [Piece::whole(pair)].as_slice());
    }
    Ok(())
}
