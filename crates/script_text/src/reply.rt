//! The line of a reply.
ghost use Rattle.std.specs.Prelude.{◌≡◌, ◌+◌, ◌∷◌, [], ◌++◌, ◌≤◌, length, codes, decimal, OnOk};
ghost use Rattle.std.specs.Prelude.{OnErr};
ghost use Rattle.fault_count.specs.Counts.{HasCause};
ghost use Rattle.edge_io.specs.Moved.{Appends, AppendsPart};
ghost use Rattle.hex.specs.Hex.{encode_lower};
ghost use Rattle.script_model.specs.Replies.{no_line_reply, reply_line};
ghost use Rattle.script_text.specs.Parts.{reply_bytes, fixed_text, number_text};
ghost use Rattle.script_text.specs.Sent.{Sent};

use crate::draft::{CAPACITY, Draft};
use edge_io::{Sink, SinkFail, write_all};
use eos_ops::Reply;

/// Appends the line of a reply, in one call of the sink where it has at most 4096 bytes. It takes
/// no memory of its own. Whoever writes many replies keeps a draft for `write_reply_with`.
pub fn write_reply<O: Sink>(session: u32, reply: &Reply, sink: &mut O) -> Result<(), SinkFail>
    ensures all { OnOk result
        (Appends (reply_line session reply.now) (O.written sink.old) (O.written sink.new)) }
    ensures part { OnErr result
        (AppendsPart (reply_line session reply.now) (O.written sink.old) (O.written sink.new)) }
    ensures cause { HasCause (O.faults sink.old) (O.faults sink.new)
        (result ≡ Err SinkFail.Fault) }
{
    let mut draft = Draft::new();
    write_reply_with(&mut draft, session, reply, sink)
}

/// Appends the line of a reply as `write_reply` does, by a draft that is used again for each reply.
/// What was in the draft is forgotten, and a short reply costs its own length alone.
pub fn write_reply_with<O: Sink>(
    draft: &mut Draft,
    session: u32,
    reply: &Reply,
    sink: &mut O,
) -> Result<(), SinkFail>
    ensures all { OnOk result
        (Appends (reply_line session reply.now) (O.written sink.old) (O.written sink.new)) }
    ensures part { OnErr result
        (AppendsPart (reply_line session reply.now) (O.written sink.old) (O.written sink.new)) }
    ensures cause { HasCause (O.faults sink.old) (O.faults sink.new)
        (result ≡ Err SinkFail.Fault) }
{
    draft.clear();
    draft.push_number(u64::from(session));
    draft.push(b" ");
    draft.push(text_of(reply));
    push_numbers(draft, reply);
    write_hex_line(draft, bytes_of(reply), sink)
}

/// Appends the answer to a line that is in no form of the grammar.
pub fn write_no_line<O: Sink>(sink: &mut O) -> Result<(), SinkFail>
    ensures all { OnOk result (Appends no_line_reply (O.written sink.old) (O.written sink.new)) }
    ensures part { OnErr result
        (AppendsPart no_line_reply (O.written sink.old) (O.written sink.new)) }
    ensures cause { HasCause (O.faults sink.old) (O.faults sink.new)
        (result ≡ Err SinkFail.Fault) }
{
    write_all(sink, b"?\n")
}

// The fixed text of a reply's words.
fn text_of(reply: &Reply) -> &'static [u8]
    ensures text { result.now ≡ fixed_text reply.now }
    ensures len { length result.now ≤ 8 }
{
    match reply {
        Reply::Ok => b"ok",
        Reply::Length(_) => b"length ",
        Reply::Bytes(_) => b"bytes x",
        Reply::Range(_) => b"range ",
        Reply::Exists => b"exists",
        Reply::Missing => b"missing",
        Reply::Busy => b"busy",
        Reply::Full => b"full",
        Reply::NoObject => b"noobject",
        Reply::NoSpace(_) => b"nospace ",
        Reply::Fault => b"fault",
        Reply::Memory => b"memory",
        Reply::Idle => b"idle",
        Reply::Active => b"active",
        Reply::TooLong => b"toolong",
        Reply::Worn => b"worn",
        Reply::Status { .. } => b"status ",
        Reply::Again => b"again",
    }
}

// Puts the numbers of a reply's words into the draft.
fn push_numbers(draft: &mut Draft, reply: &Reply)
    requires { length draft.old + 62 ≤ CAPACITY }
    ensures { draft.new ≡ draft.old ++ number_text reply.now }
{
    match reply {
        Reply::Length(number) | Reply::Range(number) => draft.push_number(*number),
        Reply::NoSpace(pages) => draft.push_number(u64::from(*pages)),
        Reply::Status { free, locked, held } => push_counts(draft, *free, *locked, *held),
        _ => {}
    }
}

// Puts the counts of a status into the draft.
fn push_counts(draft: &mut Draft, free: u32, locked: u32, held: u32)
    requires { length draft.old + 62 ≤ CAPACITY }
    ensures { draft.new ≡ draft.old
        ++ (decimal free ++ (codes " " ++ (decimal locked ++ (codes " " ++ decimal held)))) }
{
    draft.push_number(u64::from(free));
    draft.push(b" ");
    draft.push_number(u64::from(locked));
    draft.push(b" ");
    draft.push_number(u64::from(held));
}

// The bytes of a reply.
fn bytes_of(reply: &Reply) -> &[u8]
    ensures { result.now ≡ reply_bytes reply.now }
{
    match reply {
        Reply::Bytes(bytes) => bytes.as_slice(),
        _ => &[],
    }
}

// Writes the draft, the bytes as hexadecimal digits, and a line feed.
fn write_hex_line<O: Sink>(draft: &mut Draft, bytes: &[u8], sink: &mut O) -> Result<(), SinkFail>
    ensures all { OnOk result (Appends (draft.old ++ (encode_lower bytes.now ++ 10 ∷ []))
        (O.written sink.old) (O.written sink.new)) }
    ensures part { OnErr result (AppendsPart (draft.old ++ (encode_lower bytes.now ++ 10 ∷ []))
        (O.written sink.old) (O.written sink.new)) }
    ensures cause { HasCause (O.faults sink.old) (O.faults sink.new)
        (result ≡ Err SinkFail.Fault) }
{
    let mut rest = bytes;
    while !rest.is_empty() {
        make_room(draft, 2, sink)?;
        let count = ((CAPACITY - draft.len()) / 2).min(rest.len());
        let (front, after) = rest.split_at(count);
        draft.push_hex(front);
        rest = after;
    }
    make_room(draft, 1, sink)?;
    draft.push(b"\n");
    write_all(sink, draft.as_slice())
}

// Writes the draft where it has no room for so many bytes more. Where it has room, draft and sink
// are left alone.
fn make_room<O: Sink>(draft: &mut Draft, count: usize, sink: &mut O) -> Result<(), SinkFail>
    requires { count ≤ CAPACITY }
    ensures alone { length draft.old + count ≤ CAPACITY →
        (result ≡ Ok tt) × (draft.new ≡ draft.old) × (sink.new ≡ sink.old) }
    ensures room { OnOk result (length draft.new + count ≤ CAPACITY) }
    ensures sent { OnOk result
        (Sent draft.old draft.new (O.written sink.old) (O.written sink.new)) }
    ensures part { OnErr result (AppendsPart draft.old (O.written sink.old) (O.written sink.new)) }
    ensures cause { HasCause (O.faults sink.old) (O.faults sink.new)
        (result ≡ Err SinkFail.Fault) }
{
    if count <= CAPACITY - draft.len() {
        return Ok(());
    }
    write_all(sink, draft.as_slice())?;
    draft.clear();
    Ok(())
}
