//! Tails that double, and where new bytes meet them, worked by hand.

use crate::{Fit, Tail, ask, fit};
use tree_model::Pair;

#[test]
fn a_tail_doubles_up_to_the_limit(rt: HostRuntime) {
    let cases = [
        (1, 0, 16, 1),
        (1, 3, 16, 6),
        (1, 12, 16, 16),
        (20, 12, 16, 20),
    ];
    for (needed, last, limit, want) in cases {
        assert_eq!(rt; ask(needed, last, limit), want, "last {last}");
    }
}

#[test]
fn new_bytes_meet_the_tail_by_need_and_by_the_last_page(rt: HostRuntime) {
    let tail = Tail { first: 9, spare: 2 };
    let cases = [
        (512, 1, Fit::Extend),
        (512, 2, Fit::Extend),
        (512, 3, Fit::Fresh),
        (511, 2, Fit::Follow),
        (513, 3, Fit::Fresh),
    ];
    for (bytes, needed, want) in cases {
        let last = Pair { bytes, page: 7 };
        assert_eq!(rt; fit(&tail, &last, 256, needed), want, "{bytes} bytes");
    }
}
