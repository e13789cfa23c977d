//! A word as a payload.
ghost use Rattle.std.specs.Prelude.{◌≡◌, IfOk, OnErr, IsSomeAnd, position};
ghost use Rattle.std.specs.Option.{option_map};
ghost use Rattle.eos_ops.specs.declared.payload.Payload.TheVariants as Payload;
ghost use Rattle.std.specs.List.{list_all};
ghost use Rattle.script_text.specs.Failing.{IsGiven};
ghost use Rattle.script_text.specs.Reading.{given_of, is_dot, is_lower_digit, made_of, one_payload};
ghost use Rattle.script_text.specs.Reading.{payload_of};

use crate::number::read_number;
use crate::words::Words;
use eos_ops::{Bytes, Payload};
use hex::FromHexError;
use std::alloc::{AllocError, Global};

/// The payload that the one word left is. Memory is asked for only where the word is one.
pub fn read_payload(alloc: Global, words: &mut Words<'_>) -> Result<Option<Payload>, AllocError>
    ensures ok { IfOk result (λ payload. payload ≡ one_payload words.old) }
    ensures memory { OnErr result (IsSomeAnd (one_payload words.old) IsGiven) }
{
    let Some(word) = words.next() else {
        return Ok(None);
    };
    if !words.is_empty() {
        return Ok(None);
    }
    payload_in(alloc, word)
}

// The payload that a word is.
fn payload_in(alloc: Global, word: &[u8]) -> Result<Option<Payload>, AllocError>
    ensures ok { IfOk result (λ payload. payload ≡ payload_of word.now) }
    ensures memory { OnErr result (IsSomeAnd (payload_of word.now) IsGiven) }
{
    if word.is_empty() {
        return Ok(None);
    }
    let (mark, rest) = word.split_at(1);
    if mark[0] == b'x' {
        return given_in(alloc, rest);
    }
    if mark[0] == b'r' {
        return Ok(made_in(rest));
    }
    Ok(None)
}

// The bytes that lower-case hexadecimal digits spell.
fn given_in(alloc: Global, digits: &[u8]) -> Result<Option<Payload>, AllocError>
    ensures ok { IfOk result (λ payload. payload ≡ option_map Payload.Given (given_of digits.now)) }
    ensures memory { OnErr result (IsSomeAnd (option_map Payload.Given (given_of digits.now))
        IsGiven) }
{
    if digits.len() % 2 != 0 {
        return Ok(None);
    }
    if !are_lower(digits) {
        return Ok(None);
    }
    match hex::decode(alloc, digits) {
        Ok(bytes) => Ok(Some(Payload::Given(Bytes::from_vec(bytes)))),
        Err(FromHexError::OutOfMemory) => Err(AllocError),
        Err(_) => Ok(None),
    }
}

// Whether each byte is a digit of lower-case hexadecimal text.
fn are_lower(digits: &[u8]) -> bool
    ensures { result ≡ list_all is_lower_digit digits.now }
{
    digits.iter().all(|digit| is_lower(*digit))
}

// Whether a byte is a digit of lower-case hexadecimal text.
fn is_lower(digit: u8) -> bool
    ensures { result ≡ is_lower_digit digit }
{
    matches!(digit, b'0'..=b'9' | b'a'..=b'f')
}

// A number of bytes, a dot, and a start below 2^32.
fn made_in(text: &[u8]) -> Option<Payload>
    ensures { result ≡ made_of text.now }
{
    let at = dot_in(text)?;
    let (before, after) = text.split_at(at);
    let (_, rest) = after.split_at(1);
    let len = read_number(before)?;
    let start = read_number(rest)?;
    if start > u64::from(u32::MAX) {
        return None;
    }
    Some(Payload::Made {
        len,
        start: start as u32,
    })
}

// Where the first dot of a text is.
fn dot_in(text: &[u8]) -> Option<usize>
    ensures { result ≡ position is_dot text.now }
{
    text.iter().position(|byte| *byte == b'.')
}
