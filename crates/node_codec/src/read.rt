//! A node read from the bytes of a page.

ghost use Rattle.std.specs.Prelude.{◌≡◌, ℕ, ◌+◌, ◌-◌, ◌*◌, ◌<◌, ◌≤◌, ◌↔◌, List, length, drop};
ghost use Rattle.std.specs.Prelude.{replicate, IsTrue, IsOk, IfSome, IfNone, OnOk, OnErr};
ghost use Rattle.std.specs.Int.{w16, w32, w64, from_be_bytes};
ghost use Rattle.tree_model.specs.declared.entry.Pair.{Pair as TreePair};
ghost use Rattle.tree_model.specs.Node.{NodeBytes, pair_in, pairs_in, room_of};
ghost use Rattle.node_codec.specs.Head.{IsHead};

use crate::{BadNode, Node, Pair, Pairs};
use byteorder::{BigEndian, ByteOrder};

/// The first byte of a node's page.
const MARK: u8 = 0x4e;

/// Reads the node that a page holds. It takes no memory: `into` was prepared for the page's size.
///
/// A page that holds no node is refused, and `into` is then as before.
pub fn decode(page: &[u8], into: &mut Node) -> Result<(), BadNode>
    requires { room_of (length page.now) ≤ into.old.pairs.room }
    ensures found { OnOk result (NodeBytes page.now into.new.level into.new.pairs.items) }
    ensures only { (level : ℕ) (pairs : List TreePair) → NodeBytes page.now level pairs
        → IsOk result × (into.new.level ≡ level) × (into.new.pairs.items ≡ pairs) }
    ensures err { OnErr result (into.new ≡ into.old) }
    ensures room { into.new.pairs.room ≡ into.old.pairs.room }
{
    let Some(count) = count_of(page) else {
        return Err(BadNode);
    };
    if !has_bytes_under_each(page, count) || !is_blank_from(page, 8 + 12 * count) {
        return Err(BadNode);
    }
    into.level = page[1];
    read_pairs(page, count, &mut into.pairs);
    Ok(())
}

/// The number of pairs that the first 8 bytes announce; `None` where no node begins so.
fn count_of(page: &[u8]) -> Option<usize>
    ensures some { IfSome result (λ count. IsHead page.now count) }
    ensures none { IfNone result ((count : ℕ) → ¬ IsHead page.now count) }
{
    if page.len() < 8 {
        return None;
    }
    let count = BigEndian::read_u16(&page[2..]) as usize;
    let rest = BigEndian::read_u32(&page[4..]);
    if page[0] == MARK && page[1] > 0 && count > 0 && rest == 0 && 8 + 12 * count <= page.len() {
        Some(count)
    } else {
        None
    }
}

/// Does each of the first `count` pairs have a byte under it?
fn has_bytes_under_each(page: &[u8], count: usize) -> bool
    requires { 8 + 12 * count ≤ length page.now }
    ensures { IsTrue result ↔ ((k : ℕ) → k < count →
        1 ≤ from_be_bytes w64 (drop (8 + 12 * k) page.now)) }
{
    for i in 0..count {
        if BigEndian::read_u64(&page[8 + 12 * i..]) == 0 {
            return false;
        }
    }
    true
}

/// Are all bytes from place `at` on zeros?
fn is_blank_from(page: &[u8], at: usize) -> bool
    requires { at ≤ length page.now }
    ensures { IsTrue result ↔ (drop at page.now ≡ replicate (length page.now - at) 0) }
{
    page[at..].iter().all(|byte| *byte == 0)
}

/// Reads the first `count` pairs.
fn read_pairs(page: &[u8], count: usize, into: &mut Pairs)
    requires page { 8 + 12 * count ≤ length page.now }
    requires room { count ≤ into.old.room }
    ensures items { into.new.items ≡ pairs_in count (drop 8 page.now) }
    ensures room { into.new.room ≡ into.old.room }
{
    into.clear();
    for i in 0..count {
        into.put(pair_at(page, 8 + 12 * i));
    }
}

/// The pair in the 12 bytes from place `at` on.
fn pair_at(page: &[u8], at: usize) -> Pair
    requires { at + 12 ≤ length page.now }
    ensures { result ≡ pair_in (drop at page.now) }
{
    Pair {
        bytes: BigEndian::read_u64(&page[at..]),
        page: BigEndian::read_u32(&page[at + 8..]),
    }
}
