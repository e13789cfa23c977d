//! Edits worked by hand on a space of pages 3 to 18: which pages they take and leave.

use crate::rows::Row::{Abort, Bytes, Commit, Counts, Length, Make, NoSpace, Node, Turn};
use crate::rows::Step::{Append, Create, Dash, Delete, Replace};
use crate::rows::play_all;
use std::test::Fail;

/// A byte before, at and behind the border of the two pages of a segment. The first two are merged
/// with what stands before them, and the pages that aren't used any more are locked until the end.
#[test]
fn an_insert_rewrites_a_page_and_a_node(rt: HostRuntime) -> Result<(), Fail> {
    let two: [(u64, u32); 2] = [(257, 7), (256, 4)];
    let one: [(u64, u32); 2] = [(257, 3), (256, 6)];
    let cases: [(u64, u32, &[(u64, u32)], &[u8], (u32, u32)); 3] = [
        (255, 6, &two, b"\xf3\x2d\xfa\x01\x08", (10, 2)),
        (256, 6, &two, b"\xf3\xfa\x2d\x01\x08", (10, 2)),
        (257, 7, &one, b"\xf3\xfa\x01\x2d\x08", (11, 1)),
    ];
    for (at, node, entries, bytes, (free, locked)) in cases {
        let rows = [
            Make(Create(None)),
            Make(Append(512, 0)),
            Node(5, &[(512, 3)]),
            Commit,
            Counts(13, 0),
            Make(Dash(at)),
            Counts(free, locked),
            Node(node, entries),
            Bytes(254, bytes),
            Commit,
            Counts(12, 0),
            Bytes(254, bytes),
        ];
        play_all(&rt, rt.alloc(), 0, &rows)?;
    }
    Ok(())
}

/// With a threshold of eight pages the whole object is one segment again.
#[test]
fn a_higher_threshold_merges_more(rt: HostRuntime) -> Result<(), Fail> {
    let rows = [
        Make(Create(Some(8))),
        Make(Append(512, 0)),
        Commit,
        Make(Dash(256)),
        Counts(9, 3),
        Node(6, &[(513, 7)]),
        Commit,
        Counts(12, 0),
    ];
    play_all(&rt, rt.alloc(), 0, &rows)
}

/// The third append gets three pages more than it needs, the fourth is written on the first of
/// them, and what is left goes at the end.
#[test]
fn a_tail_grows_and_is_cut_at_the_end(rt: HostRuntime) -> Result<(), Fail> {
    let rows = [
        Make(Create(None)),
        Make(Append(256, 0)),
        Node(4, &[(256, 3)]),
        Make(Append(256, 0)),
        Counts(13, 0),
        Node(7, &[(512, 5)]),
        Make(Append(256, 0)),
        Counts(9, 0),
        Node(8, &[(512, 5), (256, 11)]),
        Make(Append(256, 0)),
        Counts(9, 0),
        Node(7, &[(512, 5), (512, 11)]),
        Bytes(767, b"\xfa\x00\x07"),
        Commit,
        Counts(11, 0),
        Length(Some(1024)),
    ];
    play_all(&rt, rt.alloc(), 0, &rows)
}

/// Of pages 12 to 18 no block has five, so the segment is two: of three pages and of two. Then one
/// page is left, and a part of less than four pages isn't cut.
#[test]
fn a_segment_is_cut_into_halves(rt: HostRuntime) -> Result<(), Fail> {
    let rows = [
        Make(Create(None)),
        Make(Append(1280, 5)),
        Counts(1, 0),
        Node(12, &[(768, 15), (512, 13)]),
        Bytes(767, b"\x01\x08\x0f"),
        Turn,
        Make(Create(None)),
        NoSpace(Append(768, 0), 3),
        NoSpace(Append(1024, 0), 2),
        Length(Some(0)),
        Commit,
        Counts(1, 0),
        Turn,
        Bytes(767, b"\x01\x08\x0f"),
    ];
    play_all(&rt, rt.alloc(), 9, &rows)
}

/// The pages of deleted bytes are locked until the end, so another object isn't granted them. After
/// a commit it is, and after an abort not.
#[test]
fn deleted_bytes_stay_until_the_end(rt: HostRuntime) -> Result<(), Fail> {
    let cases = [
        (Commit, Make(Append(2048, 2)), 0),
        (Abort, NoSpace(Append(2048, 2), 1), 1792),
    ];
    for (end, after, length) in cases {
        let rows = [
            Make(Create(None)),
            Make(Append(1792, 1)),
            Commit,
            Make(Delete(0, 1792)),
            Counts(8, 8),
            Length(Some(0)),
            Turn,
            Make(Create(None)),
            NoSpace(Append(2048, 2), 1),
            Turn,
            end,
            Length(Some(length)),
            Turn,
            after,
        ];
        play_all(&rt, rt.alloc(), 0, &rows)?;
    }
    Ok(())
}

/// Edits are aborted, another object takes the pages that they had, and both have their bytes.
#[test]
fn pages_of_an_aborted_edit_are_taken_by_another(rt: HostRuntime) -> Result<(), Fail> {
    let rows = [
        Make(Create(None)),
        Make(Append(512, 0)),
        Commit,
        Make(Dash(255)),
        Make(Replace(0, b"AB")),
        Make(Delete(100, 50)),
        Make(Append(300, 9)),
        Bytes(0, b"AB\x0e"),
        Length(Some(763)),
        Abort,
        Counts(13, 0),
        Turn,
        Make(Create(None)),
        Make(Append(2048, 77)),
        Make(Append(768, 5)),
        Counts(1, 0),
        Node(10, &[(2048, 11), (768, 7)]),
        Turn,
        Length(Some(512)),
        Node(5, &[(512, 3)]),
        Bytes(0, b"\x00\x07\x0e"),
        Bytes(254, b"\xf3\xfa\x01\x08\x0f"),
        Turn,
        Length(Some(2816)),
        Bytes(0, b"\x4d\x54\x5b"),
        Bytes(2047, b"\x4e\x05\x0c"),
        Abort,
        Counts(13, 0),
        Turn,
        Bytes(509, b"\xed\xf4\xfb"),
    ];
    play_all(&rt, rt.alloc(), 0, &rows)
}
