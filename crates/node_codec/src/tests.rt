//! Worked pages, byte for byte, and what `decode` refuses.

use crate::{Node, Pair, decode, encode};

/// A page of 256 bytes that holds the node of level 1 with the one pair (3 bytes, page 3).
fn one_pair() -> [u8; 256] {
    let mut page = [0; 256];
    page[0] = 0x4e;
    page[1] = 1;
    page[3] = 1;
    page[15] = 3;
    page[19] = 3;
    page
}

#[test]
fn a_node_has_its_bytes(rt: HostRuntime) {
    let mut node = Node::prepared(rt.alloc(), 256).expect(&rt, "room for a page");
    node.level = 1;
    node.pairs
        .push(Pair { bytes: 3, page: 3 })
        .expect(&rt, "room for a pair");
    let mut page = [0xff; 256];
    encode(&node, &mut page);
    assert_eq!(rt; page, one_pair());
}

#[test]
fn a_page_is_read_back(rt: HostRuntime) {
    let mut node = Node::prepared(rt.alloc(), 256).expect(&rt, "room for a page");
    assert!(rt; decode(&one_pair(), &mut node).is_ok());
    assert_eq!(rt; node.level, 1);
    assert_eq!(rt;
        node.pairs.as_slice(),
        [Pair { bytes: 3, page: 3 }].as_slice()
    );
}

#[test]
fn one_byte_off_is_refused(rt: HostRuntime) {
    // The mark, no level, no pair, more pairs than fit, the four zeros, no byte under the pair, and
    // a byte behind the pairs.
    let cases = [
        (0, 0x4f),
        (1, 0),
        (3, 0),
        (3, 21),
        (2, 1),
        (4, 1),
        (7, 1),
        (15, 0),
        (20, 1),
        (255, 1),
    ];
    for (place, byte) in cases {
        let mut node = Node::prepared(rt.alloc(), 256).expect(&rt, "room for a page");
        let mut page = one_pair();
        if place < page.len() {
            page[place] = byte;
        }
        assert!(rt; decode(&page, &mut node).is_err(), "place {place}");
    }
}
