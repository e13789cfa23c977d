//! Thrown edits, planned beside the plain program.

ghost use Rattle.std.specs.Prelude.{◌+◌, ◌^◌, ◌<◌, ◌≤◌};

use crate::edit::{fit_of, laid, merged, planned, segment};
use append_grow::Fit;
use layout_model::{Change, Part as Laid};
use plain_plan::{Store, last_entry, pack, parts_of};
use std::alloc::Global;
use std::process::Abort;
use std::test::Fail;
use tree_model::{Pair, Placed};

/// A number that looks thrown, and in half of the cases is a multiple of 64.
fn thrown(seed: &mut u64, below: u64) -> u64
    requires { 0 < below }
    ensures { result < below }
{
    *seed = seed
        .wrapping_mul(6_364_136_223_846_793_005)
        .wrapping_add(1_442_695_040_888_963_407);
    let number = (*seed >> 33) % below;
    if *seed < 1 << 63 {
        number
    } else {
        number / 64 * 64
    }
}

/// An edit of an object, of which all segments are known.
#[derive(Drop)]
struct Edit<'a> {
    window: &'a [Placed],
    entries: &'a [Pair],
    threshold: u32,
    spare: u32,
    change: Change,
}

/// The parts, merged, and where the new bytes go, are those of the plain program.
fn compare(rt: &impl Abort, alloc: Global, edit: &Edit) -> Result<(), Fail> {
    let Change {
        at,
        removed,
        added,
        appends,
    } = edit.change;
    let parts = planned(alloc, edit.window, at, removed, added)?;
    let Ok(want) = parts_of(alloc, 256, 4096, edit.entries, at, removed, added) else {
        return Err(Fail::from("the plain parts"));
    };
    assert_eq!(rt;
        parts.as_slice().len(),
        want.len(),
        "{added} for {removed} at {at}"
    );
    for (part, want) in parts.as_slice().iter().zip(&want) {
        assert_eq!(rt; laid(part), *want, "{added} for {removed} at {at}");
    }
    let parts = merged(alloc, edit.threshold, edit.window, at, removed, added)?;
    let Ok(want) = pack(alloc, 256, edit.threshold as u64, &want) else {
        return Err(Fail::from("the plain merged parts"));
    };
    assert_eq!(rt;
        parts.as_slice().len(),
        want.len(),
        "{added} for {removed} at {at}, merged"
    );
    for (part, want) in parts.as_slice().iter().zip(&want) {
        assert_eq!(rt; laid(part), *want, "{added} for {removed} at {at}, merged");
    }
    let store = Store {
        page: 256,
        order: 4,
        spaces: 1,
        catalog: 1,
        threshold: 2,
    };
    let threshold = edit.threshold as u64;
    let Ok(plan) = plain_plan::planned(
        alloc,
        &store,
        threshold,
        edit.entries,
        edit.spare as u64,
        edit.change,
    ) else {
        return Err(Fail::from("the plain plan"));
    };
    let fit = if appends {
        fit_of(
            last_entry(edit.entries),
            edit.spare,
            added,
            parts.as_slice(),
        )?
    } else {
        Fit::Fresh
    };
    assert!(rt; fit == plan.fit(), "{added} for {removed} at {at}");
    Ok(())
}

/// How many segments an object has, for a number below 16: mostly three.
fn count_of(number: u64) -> usize
    ensures { result ≤ 3 }
{
    match number {
        0 => 0,
        1 => 1,
        2 | 3 => 2,
        _ => 3,
    }
}

/// The bytes of so many segments of these bytes.
fn end_of(count: usize, a: u64, b: u64, c: u64) -> u64
    requires { a + b + c < 2 ^ 32 }
    ensures { result < 2 ^ 32 }
{
    match count {
        0 => 0,
        1 => a,
        2 => a + b,
        _ => a + b + c,
    }
}

/// A place and the bytes that are cut out there, in an object of so many bytes.
fn cut_of(seed: &mut u64, end: u64, appends: bool) -> (u64, u64)
    requires { end < 2 ^ 32 }
{
    if appends {
        return (end, 0);
    }
    let at = thrown(seed, end + 1);
    (at, thrown(seed, end - at + 1))
}

#[test]
fn plans_are_those_of_the_plain_program(rt: HostRuntime) -> Result<(), Fail> {
    let mut seed = 1;
    for _ in 0..10_000 {
        let a = thrown(&mut seed, 1280) + 1;
        let b = thrown(&mut seed, 1217) + 64;
        let c = thrown(&mut seed, 1217) + 64;
        let window = [segment(0, a, 3), segment(a, b, 8), segment(a + b, c, 13)];
        let entries = [window[0].pair, window[1].pair, window[2].pair];
        let count = count_of(thrown(&mut seed, 16));
        let appends = thrown(&mut seed, 4) == 0;
        let (at, removed) = cut_of(&mut seed, end_of(count, a, b, c), appends);
        let edit = Edit {
            window: &window[..count],
            entries: &entries[..count],
            threshold: thrown(&mut seed, 8) as u32 + 1,
            spare: thrown(&mut seed, 6) as u32,
            change: Change {
                at,
                removed,
                added: thrown(&mut seed, 9000),
                appends,
            },
        };
        compare(&rt, rt.alloc(), &edit)?;
    }
    Ok(())
}
