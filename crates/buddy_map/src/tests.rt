//! Rows worked by hand, and the masks beside a plain walk.

ghost use Rattle.std.specs.Prelude.{◌<◌};

use crate::BuddyMap;
use block_model::{insert_run, remove_run};
use std::test::Fail;

#[test]
fn a_grant_takes_the_lowest_best_block_and_a_give_merges(rt: HostRuntime) -> Result<(), Fail> {
    let mut map = BuddyMap::new(rt.alloc(), 4)?;
    assert_eq!(rt; map.grant(3), Some(0));
    assert_eq!(rt; map.grant(1), Some(3));
    assert_eq!(rt; map.grant(5), Some(8));
    assert_eq!(rt; map.grant(3), Some(4));
    assert_eq!(rt; map.grant(4), None);
    assert_eq!(rt; map.largest(), Some(1));
    map.give(0, 3);
    assert_eq!(rt; map.largest(), Some(1));
    map.give(3, 1);
    assert_eq!(rt; map.largest(), Some(2));
    assert_eq!(rt; map.count(), 8);
    Ok(())
}

#[test]
fn a_bitmap_comes_back_as_it_was(rt: HostRuntime) -> Result<(), Fail> {
    let map = BuddyMap::from_bits(rt.alloc(), 4, &[0x1f, 0x81])?;
    let mut bits = [0; 2];
    map.to_bits(&mut bits);
    assert_eq!(rt; bits, [0x1f, 0x81]);
    assert!(rt; map.is_free(3) && !map.is_free(2) && map.is_free(15));
    assert_eq!(rt; map.count(), 7);
    assert_eq!(rt; map.largest(), Some(2));
    Ok(())
}

/// How many of the `n` pages from `first` on are free.
fn free_on(pages: &[bool], first: usize, n: usize) -> usize {
    pages
        .iter()
        .skip(first)
        .take(n)
        .filter(|is_free| **is_free)
        .count()
}

/// Whether the `2^order` pages of a block are all free.
fn is_block(pages: &[bool], order: u8, number: usize) -> bool
    requires { order < 64 }
{
    free_on(pages, number << order, 1 << order) == 1 << order
}

/// The first page of the lowest block of an order that lies in no block of the next.
fn plain_block(pages: &[bool], order: u8) -> Option<usize>
    requires { order < 63 }
{
    for number in 0..pages.len() >> order {
        if is_block(pages, order, number) && !is_block(pages, order + 1, number / 2) {
            return Some(number << order);
        }
    }
    None
}

/// The place for `n` pages, by a look at each block of each order.
fn plain_place(pages: &[bool], n: usize) -> Option<usize> {
    for order in 0..7 {
        if 1 << order >= n {
            let block = plain_block(pages, order);
            if block.is_some() {
                return block;
            }
        }
    }
    None
}

/// The greatest order that has a block.
fn plain_largest(pages: &[bool]) -> Option<u8> {
    for order in (0..7).rev() {
        if plain_block(pages, order).is_some() {
            return Some(order);
        }
    }
    None
}

/// The next of a row of numbers that looks random.
fn next(seed: u64) -> u64 {
    seed.wrapping_mul(6364136223846793005)
        .wrapping_add(1442695040888963407)
}

#[test]
fn the_masks_answer_as_a_plain_walk(rt: HostRuntime) -> Result<(), Fail> {
    let mut map = BuddyMap::new(rt.alloc(), 6)?;
    let mut pages = vec![in rt.alloc(); true; 64]?;
    let mut held: Vec<(u32, u32)> = Vec::new(rt.alloc());
    let mut seed = 7;
    for turn in 0..10_000 {
        seed = next(seed);
        let n = 1 + (seed >> 40) as u32 % 12;
        if (seed >> 33) % 16 < 9 {
            let granted = map.grant(n);
            assert_eq!(rt;
                granted.map(|first| first as usize),
                plain_place(&pages, n as usize)
            );
            if let Some(first) = granted {
                assert!(rt; first <= 64 - n);
                remove_run(&mut pages, first, n);
                held.push((first, n))?;
            }
        } else if held.len() > 0 {
            let (first, n) = held.swap_remove((seed >> 45) as usize % held.len());
            assert!(rt; 1 <= n && n <= 64 && first <= 64 - n);
            map.give(first, n);
            insert_run(&mut pages, first, n);
        }
        if turn % 8 == 0 {
            assert_eq!(rt; map.largest(), plain_largest(&pages));
            assert_eq!(rt; map.count() as usize, free_on(&pages, 0, 64));
        }
    }
    Ok(())
}
