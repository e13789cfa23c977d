//! What a body answers, as the answer of a transaction.

ghost use Rattle.std.specs.Prelude.{◌≡◌};
ghost use Rattle.shadow_txn.specs.Replies.{edit_reply, bytes_reply, length_reply};
ghost use Rattle.body_txn.specs.Replies.{made_reply, look_reply, reply_by_length};

use eos_ops::{Bytes, Outcome, Reply};
use object_body::{EditFail, LookFail};
use shadow_txn::{TxnFail, reply_of_fail};

/// What became of an edit.
pub(crate) fn answer_to_edit(answer: Result<Outcome, EditFail>) -> Result<(), TxnFail>
    ensures { edit_reply result ≡ made_reply answer }
{
    match answer {
        Ok(Outcome::Done) => Ok(()),
        Ok(Outcome::Exists) => Err(TxnFail::Exists),
        Ok(Outcome::Missing) => Err(TxnFail::Missing),
        Ok(Outcome::Range(len)) => Err(TxnFail::Range(len)),
        Err(EditFail::NoSpace(pages)) => Err(TxnFail::NoSpace(pages)),
        Err(EditFail::Fault) => Err(TxnFail::Fault),
        Err(EditFail::Memory) => Err(TxnFail::Memory),
    }
}

/// The bytes that were read.
pub(crate) fn answer_to_look(answer: Result<Bytes, LookFail>) -> Result<Bytes, TxnFail>
    ensures { bytes_reply result ≡ look_reply answer }
{
    match answer {
        Ok(bytes) => Ok(bytes),
        Err(LookFail::Fault) => Err(TxnFail::Fault),
        Err(LookFail::Memory) => Err(TxnFail::Memory),
    }
}

/// The length of an object, or that there is none.
pub(crate) fn answer_by_length(length: Option<u64>) -> Result<u64, TxnFail>
    ensures { length_reply result ≡ reply_by_length length }
{
    match length {
        Some(length) => Ok(length),
        None => Err(TxnFail::Missing),
    }
}

/// The answer to an edit as a reply.
pub(crate) fn reply_of_edit(answer: &Result<(), TxnFail>) -> Reply
    ensures { result ≡ edit_reply answer.now }
{
    match answer {
        Ok(()) => Reply::Ok,
        Err(fail) => reply_of_fail(*fail),
    }
}
