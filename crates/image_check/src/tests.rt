//! Damaged images, each with the refusal that is named first; what a check reads; and spans that go
//! to their owners.

ghost use Rattle.std.specs.Prelude.{◌≡◌, ◌+◌, ◌≤◌, true, length, All, OnOk};
ghost use Rattle.geometry_model.specs.Numbers.{pages};
ghost use Rattle.page_port.specs.Pages.{AreOf};
ghost use Rattle.span_store.specs.Held.{AllSized, IsEmpty};
ghost use Rattle.image_check.specs.Owners.{HasNoneLost, IsMarked};
ghost use Rattle.image_check.specs.Shares.{AreOwnersBelow, HoldsData};

use crate::{
    CatalogEntry, CheckFail, Geometry, Path, Walk, add_used, check_lost, check_object, share_out,
    take_all,
};
use image_format::read_entry;
use page_port::{Bay, FailAt, MemBay, MemPort, MemSpan, Span};
use span_store::Holdings;
use std::alloc::Global;
use std::process::Abort;

/// Sets a byte of an image.
fn put(bytes: &mut Vec<u8>, at: usize, byte: u8) {
    if let Some(place) = bytes.get_mut(at) {
        *place = byte;
    }
}

/// Writes a node of `count` pairs of `bytes` bytes each on a page. Its first pair names page
/// `first`, and each other one the page behind that of the pair before it.
fn put_node(image: &mut Vec<u8>, page: usize, level: u8, count: u8, bytes: u16, first: u8) {
    let at = page.min(63) * 256;
    let [high, low] = bytes.to_be_bytes();
    put(image, at, 0x4e);
    put(image, at + 1, level);
    put(image, at + 3, count);
    for i in 0..count.min(20) {
        let pair = at + 8 + 12 * i as usize;
        put(image, pair + 6, high);
        put(image, pair + 7, low);
        put(image, pair + 11, first.wrapping_add(i));
    }
}

/// Writes the catalog entry of a present object.
fn put_object(
    image: &mut Vec<u8>,
    object: usize,
    height: u8,
    root: u8,
    length: u16,
    threshold: u8,
) {
    let at = 256 + 16 * object.min(15);
    let [high, low] = length.to_be_bytes();
    put(image, at, 1);
    put(image, at + 1, height);
    put(image, at + 3, threshold);
    put(image, at + 7, root);
    put(image, at + 14, high);
    put(image, at + 15, low);
}

/// Pages of 256 bytes: those of a store of one space, one catalog page and one page more. The first
/// `used` data pages are used.
fn image(rt: &impl Abort, alloc: Global, order: u8, used: u8) -> Vec<u8> {
    let space = 1usize << order.min(5);
    let mut bytes = vec![in alloc; 0; (space + 4) * 256].expect(rt, "room for an image");
    for at in 0..space {
        if at >= used as usize {
            let place = 528 + at / 8;
            let byte = bytes.get(place).copied().unwrap_or(0) | (128 >> (at % 8) as u8);
            put(&mut bytes, place, byte);
        }
    }
    bytes
}

/// One object of three bytes: they stand on page 3, and its node on page 4.
fn small(rt: &impl Abort, alloc: Global) -> Vec<u8> {
    let mut bytes = image(rt, alloc, 4, 2);
    put_object(&mut bytes, 0, 1, 4, 3, 2);
    put_node(&mut bytes, 4, 1, 1, 3, 3);
    bytes
}

/// One object of twenty segments of 200 bytes on the pages 3 to 22, with ten of them under each of
/// the nodes on the pages 23 and 24, below the root on page 25.
fn large(rt: &impl Abort, alloc: Global) -> Vec<u8> {
    let mut bytes = image(rt, alloc, 5, 23);
    put_object(&mut bytes, 0, 2, 25, 4000, 1);
    put_node(&mut bytes, 23, 1, 10, 200, 3);
    put_node(&mut bytes, 24, 1, 10, 200, 13);
    put_node(&mut bytes, 25, 2, 2, 2000, 23);
    bytes
}

/// Two objects of three bytes: the bytes of each stand on the page before that of its node, which is
/// page 4 for the first and page 6 for the second.
fn pair(rt: &impl Abort, alloc: Global) -> Vec<u8> {
    let mut bytes = image(rt, alloc, 4, 4);
    put_object(&mut bytes, 0, 1, 4, 3, 2);
    put_node(&mut bytes, 4, 1, 1, 3, 3);
    put_object(&mut bytes, 1, 1, 6, 3, 2);
    put_node(&mut bytes, 6, 1, 1, 3, 5);
    bytes
}

/// Is a page of an image used by its directory?
fn is_used(bytes: &[u8], page: u32) -> bool {
    if page < 3 {
        return false;
    }
    let at = (page - 3) as usize;
    let byte = bytes.get(528 + at / 8).copied().unwrap_or(0);
    byte & (128 >> (at % 8) as u8) == 0
}

/// The pages of an image as one span, and a port whose calls of these numbers fail.
fn device(rt: &impl Abort, alloc: Global, bytes: Vec<u8>, fail: Vec<FailAt>) -> (MemPort, MemSpan)
    ensures page { result.0.meter.page ≡ 256 }
    ensures sized { AreOf 256 result.1.pages }
{
    let count = bytes.len() / 256;
    assert!(rt; count >= 1);
    assert!(rt; count < 100);
    let pages = count as u32;
    assert!(rt; bytes.len() == 256 * count);
    let mut bay = MemBay::new(alloc, bytes, fail);
    let span = bay.mount(256, pages).expect(rt, "the pages of an image");
    let port = bay.port().expect(rt, "a port");
    (port, span)
}

/// Cuts the first page off a span.
fn cut_one(rt: &impl Abort, span: &mut MemSpan) -> MemSpan
    requires { AreOf 256 span.old.pages }
    ensures front { AreOf 256 result.pages }
    ensures rest { AreOf 256 span.new.pages }
{
    assert!(rt; span.pages() > 1);
    span.cut(1)
}

/// Holds a used page, and marks it.
fn mark(
    rt: &impl Abort,
    geometry: &Geometry,
    held: &mut Holdings<MemSpan>,
    walk: &mut Walk,
    span: MemSpan,
)
    requires sized { AreOf 256 span.pages }
    requires all { AllSized true 256 held.old }
    requires marked { IsMarked geometry.now held.old walk.old }
    requires below { AreOwnersBelow 0 walk.old }
    requires data { HoldsData geometry.now held.old }
    ensures all { AllSized true 256 held.new }
    ensures marked { IsMarked geometry.now held.new walk.new }
    ensures below { AreOwnersBelow 0 walk.new }
    ensures data { HoldsData geometry.now held.new }
    ensures count { length held.new.spans ≡ length held.old.spans + 1 }
{
    assert!(rt; held.lacks(span.first(), span.pages()));
    assert!(rt; span.first() + span.pages() <= geometry.pages());
    assert!(rt; span.pages() == 1);
    assert!(rt; geometry.place(span.first()).is_some());
    held.reserve(1).expect(rt, "room for a span");
    add_used(held, walk, span);
}

/// The used pages of an image, a span each, and a walk that has met none of them.
fn opened(
    rt: &impl Abort,
    alloc: Global,
    geometry: &Geometry,
    bytes: &[u8],
    span: MemSpan,
) -> (Holdings<MemSpan>, Walk)
    requires { AreOf 256 span.pages }
    ensures sized { AllSized true 256 result.0 }
    ensures marked { IsMarked geometry.now result.0 result.1 }
    ensures below { AreOwnersBelow 0 result.1 }
    ensures data { HoldsData geometry.now result.0 }
    ensures count { length result.0.spans ≤ pages geometry.now }
{
    let mut rest = span;
    let mut held = Holdings::new(alloc);
    let mut walk = Walk::new(alloc, geometry).expect(rt, "room for a walk");
    for page in 0..geometry.pages() {
        let front = cut_one(rt, &mut rest);
        if is_used(bytes, page) {
            mark(rt, geometry, &mut held, &mut walk, front);
        }
    }
    (held, walk)
}

/// The catalog entry of an object.
fn entry_of(rt: &impl Abort, geometry: &Geometry, bytes: &[u8], object: u16) -> CatalogEntry {
    let mut entry = [0; 16];
    for (i, byte) in entry.iter_mut().enumerate() {
        let at = 256 + 16 * object.min(15) as usize + i.min(15);
        *byte = bytes.get(at).copied().unwrap_or(0);
    }
    read_entry(&entry, 2, geometry).expect(rt, "an entry")
}

/// A store of this order, with pages of 256 bytes, one space and one catalog page.
fn numbers(rt: &impl Abort, order: u32) -> Geometry
    ensures { result.page ≡ 256 }
{
    Geometry::new(256, order, 1, 1, 4).expect(rt, "numbers in their ranges")
}

/// Checks all objects, and that no page is lost.
fn check_all(
    rt: &impl Abort,
    alloc: Global,
    geometry: &Geometry,
    bytes: &[u8],
    held: &Holdings<MemSpan>,
    walk: &mut Walk,
    port: &mut MemPort,
) -> Result<(), CheckFail>
    requires size { geometry.now.page ≡ 256 }
    requires page { port.old.meter.page ≡ 256 }
    requires sized { AllSized true 256 held.now }
    requires marked { IsMarked geometry.now held.now walk.old }
    requires below { AreOwnersBelow 0 walk.old }
    ensures marked { IsMarked geometry.now held.now walk.new }
    ensures below { AreOwnersBelow 16 walk.new }
    ensures none { OnOk result (HasNoneLost geometry.now walk.new) }
{
    let mut path = Path::new(alloc, geometry)?;
    for object in 0..16 {
        let entry = entry_of(rt, geometry, bytes, object);
        check_object(alloc, geometry, object, entry, held, port, walk, &mut path)?;
    }
    check_lost(geometry, walk)
}

/// Gives all pages that are held to the objects that own them.
fn given(
    rt: &impl Abort,
    alloc: Global,
    geometry: &Geometry,
    held: &mut Holdings<MemSpan>,
    walk: &Walk,
) -> Vec<Holdings<MemSpan>>
    requires marked { IsMarked geometry.now held.old walk.now }
    requires none { HasNoneLost geometry.now walk.now }
    requires below { AreOwnersBelow 16 walk.now }
    requires data { HoldsData geometry.now held.old }
    requires count { length held.old.spans ≤ pages geometry.now }
{
    let mut stack = Vec::with_capacity(alloc, geometry.pages() as usize).expect(
        rt,
        "room for the spans",
    );
    take_all(held, &mut stack);
    let mut objects = no_holdings(rt, alloc);
    let shared = share_out(&mut stack, walk, objects.as_mut_slice());
    assert!(rt; shared.is_ok());
    objects
}

/// Sixteen objects that hold nothing.
fn no_holdings(rt: &impl Abort, alloc: Global) -> Vec<Holdings<MemSpan>>
    ensures count { length result.items ≡ 16 }
    ensures empty { All (λ held. IsEmpty held) result.items }
{
    let mut objects = Vec::new(alloc);
    for _object in 0..16u16 {
        objects
            .push(Holdings::new(alloc))
            .expect(rt, "room for an object");
    }
    objects
}

/// What the checks say of an image, over a port whose calls of these numbers fail.
fn judged(
    rt: &impl Abort,
    alloc: Global,
    order: u32,
    bytes: Vec<u8>,
    fail: Vec<FailAt>,
) -> Result<(), CheckFail> {
    let geometry = numbers(rt, order);
    let copy = Vec::from_slice(alloc, bytes.as_slice())?;
    let (mut port, span) = device(rt, alloc, copy, fail);
    let (held, mut walk) = opened(rt, alloc, &geometry, bytes.as_slice(), span);
    check_all(
        rt,
        alloc,
        &geometry,
        bytes.as_slice(),
        &held,
        &mut walk,
        &mut port,
    )
}

#[test]
fn a_small_image_is_refused_for_each_damage(rt: HostRuntime) {
    let cases = [
        // the height, the length
        (257, 2, CheckFail::BadTree { object: 0 }),
        (271, 4, CheckFail::BadTree { object: 0 }),
        // the root: a directory, a page without a node, a free page
        (263, 2, CheckFail::BadTree { object: 0 }),
        (263, 3, CheckFail::BadNode { page: 3 }),
        (263, 5, CheckFail::PageFree { page: 5 }),
        // the segment: its node's page, no data page, too many pages
        (1043, 4, CheckFail::PageTwice { page: 4 }),
        (1043, 2, CheckFail::BadTree { object: 0 }),
        (1037, 1, CheckFail::BadTree { object: 0 }),
        // the number of pairs
        (1027, 21, CheckFail::BadNode { page: 4 }),
        // the directory: a used page is free, a free one used
        (528, 0xbf, CheckFail::PageFree { page: 3 }),
        (528, 0x3b, CheckFail::PageLost { page: 8 }),
    ];
    for (at, byte, want) in cases {
        let mut bytes = small(&rt, rt.alloc());
        put(&mut bytes, at, byte);
        let answer = judged(&rt, rt.alloc(), 4, bytes, Vec::new(rt.alloc()));
        assert_eq!(rt; answer, Err(want), "byte {at}");
    }
    let bytes = small(&rt, rt.alloc());
    let answer = judged(&rt, rt.alloc(), 4, bytes, Vec::new(rt.alloc()));
    assert_eq!(rt; answer, Ok(()));
}

#[test]
fn each_used_page_goes_to_the_object_whose_tree_has_it(rt: HostRuntime) {
    let geometry = numbers(&rt, 4);
    let bytes = pair(&rt, rt.alloc());
    let copy = Vec::from_slice(rt.alloc(), bytes.as_slice()).expect(&rt, "room for an image");
    let (mut port, span) = device(&rt, rt.alloc(), copy, Vec::new(rt.alloc()));
    let (mut held, mut walk) = opened(&rt, rt.alloc(), &geometry, bytes.as_slice(), span);
    let checked = check_all(
        &rt,
        rt.alloc(),
        &geometry,
        bytes.as_slice(),
        &held,
        &mut walk,
        &mut port,
    );
    assert!(rt; checked.is_ok());
    let objects = given(&rt, rt.alloc(), &geometry, &mut held, &walk);
    let cases = [
        (2, [false, false]),
        (3, [true, false]),
        (4, [true, false]),
        (5, [false, true]),
        (6, [false, true]),
        (7, [false, false]),
    ];
    for (page, [first, second]) in cases {
        for (object, want) in [(0, first), (1, second), (2, false)] {
            let has = objects
                .get(object)
                .is_some_and(|holdings| holdings.holds(page, 1));
            assert_eq!(rt; has, want, "page {page} of object {object}");
        }
    }
}

#[test]
fn a_second_object_over_the_same_pages_is_refused(rt: HostRuntime) {
    let mut bytes = small(&rt, rt.alloc());
    put_object(&mut bytes, 1, 1, 4, 3, 2);
    let answer = judged(&rt, rt.alloc(), 4, bytes, Vec::new(rt.alloc()));
    assert_eq!(rt; answer, Err(CheckFail::PageTwice { page: 4 }));
}

#[test]
fn the_first_broken_rule_of_a_tree_of_two_levels_is_named(rt: HostRuntime) {
    // The nodes stand at 5888, 6144 and 6400. Two changes each, the second one maybe none.
    let none = (0, 0);
    let cases = [
        // the level of a child; the threshold; the sum of a child; the length
        ((5889, 2), none, CheckFail::BadTree { object: 0 }),
        ((259, 2), none, CheckFail::BadTree { object: 0 }),
        ((6415, 0xd1), none, CheckFail::BadTree { object: 0 }),
        ((271, 0xa1), none, CheckFail::BadTree { object: 0 }),
        // a page in two segments; a node twice; a free page; a segment past the space
        ((5931, 4), none, CheckFail::PageTwice { page: 4 }),
        ((6431, 23), none, CheckFail::PageTwice { page: 23 }),
        ((5907, 30), none, CheckFail::PageFree { page: 30 }),
        ((5907, 2), none, CheckFail::BadTree { object: 0 }),
        // no node; a level that no root has
        ((6144, 0), none, CheckFail::BadNode { page: 24 }),
        ((257, 3), none, CheckFail::BadTree { object: 0 }),
        // the first child's sum comes before the second child, and that before its own sum
        ((6415, 0xd1), (6144, 0), CheckFail::BadTree { object: 0 }),
        ((6427, 0xd1), (6144, 0), CheckFail::BadNode { page: 24 }),
    ];
    for ((at, byte), (then_at, then_byte), want) in cases {
        let mut bytes = large(&rt, rt.alloc());
        put(&mut bytes, at, byte);
        put(&mut bytes, then_at, then_byte);
        let answer = judged(&rt, rt.alloc(), 5, bytes, Vec::new(rt.alloc()));
        assert_eq!(rt; answer, Err(want), "byte {at}");
    }
}

#[test]
fn each_node_is_read_once(rt: HostRuntime) {
    for (call, want) in [
        (1, Err(CheckFail::Fault)),
        (2, Err(CheckFail::Fault)),
        (3, Err(CheckFail::Fault)),
        (4, Ok(())),
    ] {
        let mut fail = Vec::new(rt.alloc());
        let at = FailAt {
            port: 1,
            write: false,
            call,
        };
        fail.push(at).expect(&rt, "room for a call");
        let bytes = large(&rt, rt.alloc());
        let answer = judged(&rt, rt.alloc(), 5, bytes, fail);
        assert_eq!(rt; answer, want, "call {call}");
    }
}
