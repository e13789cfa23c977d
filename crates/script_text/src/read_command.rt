//! The words after the session as a command.
ghost use Rattle.std.specs.Prelude.{◌≡◌, IfOk, OnErr, IsSomeAnd};
ghost use Rattle.script_text.specs.Failing.{BringsBytes, IsGiven};
ghost use Rattle.script_text.specs.Reading.{command_in, command_of, placed_payload};
ghost use Rattle.script_text.specs.Words.{if_last};

use crate::arguments::{read_one, read_three};
use crate::read_payload::read_payload;
use crate::verb::Verb;
use crate::words::Words;
use eos_ops::{Command, Payload};
use script_model::MAX_THRESHOLD;
use std::alloc::{AllocError, Global};

/// The command that the words are, or none. Memory is asked for only where they are one.
#[tactic(auto, unfolding(crate::specs::Reading::command_of))]
pub fn read_command(alloc: Global, words: &mut Words<'_>) -> Result<Option<Command>, AllocError>
    ensures ok { IfOk result (λ command. command ≡ command_of words.old) }
    ensures memory { OnErr result (IsSomeAnd (command_of words.old) BringsBytes) }
{
    let Some(word) = words.next() else {
        return Ok(None);
    };
    let Some(verb) = Verb::from_word(word) else {
        return Ok(None);
    };
    arguments_of(alloc, verb, words)
}

// The command of a verb and the words after it.
#[tactic(auto, unfolding(crate::specs::Reading::command_in))]
fn arguments_of(
    alloc: Global,
    verb: Verb,
    words: &mut Words<'_>,
) -> Result<Option<Command>, AllocError>
    ensures ok { IfOk result (λ command. command ≡ command_in verb words.old) }
    ensures memory { OnErr result (IsSomeAnd (command_in verb words.old) BringsBytes) }
{
    match verb {
        Verb::Begin => Ok(read_bare(words, Command::Begin)),
        Verb::Create => Ok(read_create(words)),
        Verb::Destroy => Ok(read_destroy(words)),
        Verb::Length => Ok(read_length(words)),
        Verb::Read => Ok(read_read(words)),
        Verb::Append => read_append(alloc, words),
        Verb::Insert => read_insert(alloc, words),
        Verb::Delete => Ok(read_delete(words)),
        Verb::Replace => read_replace(alloc, words),
        Verb::Commit => Ok(read_bare(words, Command::Commit)),
        Verb::Abort => Ok(read_bare(words, Command::Abort)),
        Verb::Status => Ok(read_bare(words, Command::Status)),
    }
}

fn read_bare(words: &Words<'_>, command: Command) -> Option<Command>
    ensures { result ≡ if_last words.now command }
{
    if !words.is_empty() {
        return None;
    }
    Some(command)
}

#[tactic(auto, unfolding(crate::specs::Reading::command_in))]
fn read_create(words: &mut Words<'_>) -> Option<Command>
    ensures { result ≡ command_in Verb.Create words.old }
{
    let object = words.next_number()?;
    if words.is_empty() {
        return Some(Command::Create {
            object,
            threshold: None,
        });
    }
    let threshold = read_one(words)?;
    if threshold < 1 || threshold > u64::from(MAX_THRESHOLD) {
        return None;
    }
    Some(Command::Create {
        object,
        threshold: Some(threshold as u32),
    })
}

#[tactic(auto, unfolding(crate::specs::Reading::command_in))]
fn read_destroy(words: &mut Words<'_>) -> Option<Command>
    ensures { result ≡ command_in Verb.Destroy words.old }
{
    let object = read_one(words)?;
    Some(Command::Destroy { object })
}

#[tactic(auto, unfolding(crate::specs::Reading::command_in))]
fn read_length(words: &mut Words<'_>) -> Option<Command>
    ensures { result ≡ command_in Verb.Length words.old }
{
    let object = read_one(words)?;
    Some(Command::Length { object })
}

#[tactic(auto, unfolding(crate::specs::Reading::command_in))]
fn read_read(words: &mut Words<'_>) -> Option<Command>
    ensures { result ≡ command_in Verb.Read words.old }
{
    let (object, at, len) = read_three(words)?;
    Some(Command::Read { object, at, len })
}

#[tactic(auto, unfolding(crate::specs::Reading::command_in))]
fn read_delete(words: &mut Words<'_>) -> Option<Command>
    ensures { result ≡ command_in Verb.Delete words.old }
{
    let (object, at, len) = read_three(words)?;
    Some(Command::Delete { object, at, len })
}

#[tactic(auto, unfolding(crate::specs::Reading::command_in))]
fn read_append(alloc: Global, words: &mut Words<'_>) -> Result<Option<Command>, AllocError>
    ensures ok { IfOk result (λ command. command ≡ command_in Verb.Append words.old) }
    ensures memory { OnErr result (IsSomeAnd (command_in Verb.Append words.old) BringsBytes) }
{
    let Some(object) = words.next_number() else {
        return Ok(None);
    };
    let Some(payload) = read_payload(alloc, words)? else {
        return Ok(None);
    };
    Ok(Some(Command::Append { object, payload }))
}

#[tactic(auto, unfolding(crate::specs::Reading::command_in))]
fn read_insert(alloc: Global, words: &mut Words<'_>) -> Result<Option<Command>, AllocError>
    ensures ok { IfOk result (λ command. command ≡ command_in Verb.Insert words.old) }
    ensures memory { OnErr result (IsSomeAnd (command_in Verb.Insert words.old) BringsBytes) }
{
    let Some((object, at, payload)) = read_placed(alloc, words)? else {
        return Ok(None);
    };
    Ok(Some(Command::Insert {
        object,
        at,
        payload,
    }))
}

#[tactic(auto, unfolding(crate::specs::Reading::command_in))]
fn read_replace(alloc: Global, words: &mut Words<'_>) -> Result<Option<Command>, AllocError>
    ensures ok { IfOk result (λ command. command ≡ command_in Verb.Replace words.old) }
    ensures memory { OnErr result (IsSomeAnd (command_in Verb.Replace words.old) BringsBytes) }
{
    let Some((object, at, payload)) = read_placed(alloc, words)? else {
        return Ok(None);
    };
    Ok(Some(Command::Replace {
        object,
        at,
        payload,
    }))
}

// An object, a place in it, and a payload.
fn read_placed(
    alloc: Global,
    words: &mut Words<'_>,
) -> Result<Option<(u64, u64, Payload)>, AllocError>
    ensures ok { IfOk result (λ found. found ≡ placed_payload words.old) }
    ensures memory { OnErr result (IsSomeAnd (placed_payload words.old) (λ p. IsGiven p.2)) }
{
    let Some(object) = words.next_number() else {
        return Ok(None);
    };
    let Some(at) = words.next_number() else {
        return Ok(None);
    };
    let Some(payload) = read_payload(alloc, words)? else {
        return Ok(None);
    };
    Ok(Some((object, at, payload)))
}
