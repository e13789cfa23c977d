//! Answers as the replies that an act has.

ghost use Rattle.std.specs.Prelude.{◌≡◌, IfOk};
ghost use Rattle.eos_ops.specs.Objects.{reply_of};
ghost use Rattle.shadow_txn.specs.Acts.{is_objects_own};
ghost use Rattle.shadow_txn.specs.Replies.{fail_reply, bytes_reply, length_reply};

use crate::TxnFail;
use eos_ops::{Bytes, Outcome, Reply};
use std::alloc::{AllocError, Global};

/// Whether the reply is one that the object itself gives.
pub fn is_own(reply: &Reply) -> bool
    ensures { result ≡ is_objects_own reply.now }
{
    matches!(
        reply,
        Reply::Ok
            | Reply::Length(_)
            | Reply::Bytes(_)
            | Reply::Range(_)
            | Reply::Exists
            | Reply::Missing
    )
}

pub fn reply_of_outcome(outcome: Outcome) -> Reply
    ensures { result ≡ reply_of outcome }
{
    match outcome {
        Outcome::Done => Reply::Ok,
        Outcome::Exists => Reply::Exists,
        Outcome::Missing => Reply::Missing,
        Outcome::Range(len) => Reply::Range(len),
    }
}

pub fn reply_of_length(answer: &Result<u64, TxnFail>) -> Reply
    ensures { result ≡ length_reply answer.now }
{
    match answer {
        Ok(len) => Reply::Length(*len),
        Err(fail) => reply_of_fail(*fail),
    }
}

/// The reply has a copy of the bytes.
pub fn reply_of_read(alloc: Global, answer: &Result<Bytes, TxnFail>) -> Result<Reply, AllocError>
    ensures { IfOk result (λ reply. reply ≡ bytes_reply answer.now) }
{
    match answer {
        Ok(bytes) => Ok(Reply::Bytes(bytes.read(alloc, 0, bytes.len())?)),
        Err(fail) => Ok(reply_of_fail(*fail)),
    }
}

pub fn reply_of_fail(fail: TxnFail) -> Reply
    ensures { result ≡ fail_reply fail }
{
    match fail {
        TxnFail::Exists => Reply::Exists,
        TxnFail::Missing => Reply::Missing,
        TxnFail::Range(len) => Reply::Range(len),
        TxnFail::Fault => Reply::Fault,
        TxnFail::NoSpace(pages) => Reply::NoSpace(pages),
        TxnFail::Memory => Reply::Memory,
    }
}
