//! Plans of small changes, worked by hand.

use crate::{Store, planned};
use layout_model::{Change, Fit, Part};
use tree_model::Pair;

#[test]
fn plans_are_those_worked_by_hand(rt: HostRuntime) {
    let store = Store {
        page: 256,
        order: 4,
        spaces: 1,
        catalog: 1,
        threshold: 2,
    };
    let two_pages = Pair {
        bytes: 512,
        page: 3,
    };
    let one_page = Pair {
        bytes: 256,
        page: 3,
    };
    let right = Part::Keep(Pair {
        bytes: 256,
        page: 4,
    });
    let cases = [
        (two_pages, 255, 1, false, 0, Part::Make(257), Fit::Fresh, 2),
        (two_pages, 512, 600, true, 0, Part::Make(600), Fit::Fresh, 1),
        (
            one_page,
            256,
            256,
            true,
            1,
            Part::Keep(two_pages),
            Fit::Extend,
            1,
        ),
        (two_pages, 0, 0, false, 0, right, Fit::Fresh, 0),
    ];
    for (entry, at, added, appends, spare, first, fit, count) in cases {
        let change = Change {
            at,
            removed: 0,
            added,
            appends,
        };
        match planned(rt.alloc(), &store, 2, &[entry], spare, change) {
            Err(_) => assert!(rt; false, "no plan at {at}"),
            Ok(plan) => {
                assert_eq!(rt; plan.parts().len(), count, "at {at}");
                assert_eq!(rt; plan.fit(), fit, "at {at}");
                if count > 0 {
                    assert_eq!(rt; plan.parts().first().copied(), Some(first), "at {at}");
                }
            }
        }
    }
}
