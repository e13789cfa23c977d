//! Writes all of some bytes to a sink.
ghost use Rattle.std.specs.Prelude.{◌≡◌, OnOk, OnErr};
ghost use Rattle.fault_count.specs.Counts.{HasCause};
ghost use Rattle.edge_io.specs.Moved.{Appends, AppendsPart};

use crate::sink::{Sink, SinkFail};

/// Appends all of `bytes`. It takes no memory of its own.
pub fn write_all<O: Sink>(sink: &mut O, bytes: &[u8]) -> Result<(), SinkFail>
    ensures all { OnOk result (Appends bytes.now (O.written sink.old) (O.written sink.new)) }
    ensures part { OnErr result (AppendsPart bytes.now (O.written sink.old) (O.written sink.new)) }
    ensures cause { HasCause (O.faults sink.old) (O.faults sink.new)
        (result ≡ Err SinkFail.Fault) }
{
    let mut rest = bytes;
    while !rest.is_empty() {
        let count = sink.write(rest)?;
        let (_, after) = rest.split_at(count);
        rest = after;
    }
    Ok(())
}
