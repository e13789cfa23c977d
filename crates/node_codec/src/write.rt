//! The bytes of a node, written to a page.

ghost use Rattle.std.specs.Prelude.{◌≡◌, ◌+◌, ◌-◌, ◌^◌, ◌<◌, ◌≤◌, ◌++◌, length, take, replicate};
ghost use Rattle.std.specs.Prelude.{All, IsTrue};
ghost use Rattle.geometry_model.specs.Numbers.{is_page_size};
ghost use Rattle.tree_model.specs.Node.{NodeBytes, head_bytes, pair_bytes, room_of};

use crate::{Node, Pair};

/// The first byte of a node's page.
const MARK: u8 = 0x4e;

/// Writes the bytes of a node to a page. It takes no memory.
pub fn encode(node: &Node, page: &mut [u8])
    requires page_size { IsTrue (is_page_size (length page.old)) }
    requires level { 1 ≤ node.now.level }
    requires some { 1 ≤ length node.now.pairs.items }
    requires room { length node.now.pairs.items ≤ room_of (length page.old) }
    requires bytes { All (λ p. 1 ≤ p.bytes) node.now.pairs.items }
    ensures { NodeBytes page.new node.now.level node.now.pairs.items }
{
    let pairs = node.pairs.as_slice();
    put_head(page, node.level, pairs.len() as u16);
    let mut at = 8;
    for pair in pairs {
        put_pair(page, at, *pair);
        at += 12;
    }
    clear_from(page, at);
}

/// Writes zeros from place `at` on.
fn clear_from(page: &mut [u8], at: usize)
    requires { at ≤ length page.old }
    ensures { page.new ≡ take at page.old ++ replicate (length page.old - at) 0 }
{
    page[at..].fill(0);
}

/// Writes the first 8 bytes.
fn put_head(page: &mut [u8], level: u8, count: u16)
    requires { 8 ≤ length page.old }
    ensures { take 8 page.new ≡ head_bytes level count }
{
    let [high, low] = count.to_be_bytes();
    put(page, 0, &[MARK, level, high, low, 0, 0, 0, 0]);
}

/// Writes the 12 bytes of a pair from place `at` on.
fn put_pair(page: &mut [u8], at: usize, pair: Pair)
    requires { at + 12 ≤ length page.old }
    ensures written { take (at + 12) page.new ≡ take at page.old ++ pair_bytes pair }
    ensures fits { (pair.bytes < 2 ^ 64) × (pair.page < 2 ^ 32) }
{
    put(page, at, &pair.bytes.to_be_bytes());
    put(page, at + 8, &pair.page.to_be_bytes());
}

/// Writes bytes from place `at` on.
fn put(page: &mut [u8], at: usize, bytes: &[u8])
    requires { at + length bytes.now ≤ length page.old }
    ensures { take (at + length bytes.now) page.new ≡ take at page.old ++ bytes.now }
{
    page[at..at + bytes.len()].copy_from_slice(bytes);
}
