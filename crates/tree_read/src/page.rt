//! One page of the holdings: whether it is held, and what stands on it.

ghost use Rattle.std.specs.Prelude.{◌≡◌, length, IsTrue, IsErr, OnOk};
ghost use Rattle.fault_count.specs.Counts.{HasCause, Reads};
ghost use Rattle.span_store.specs.Held.{bytes_on, has};
ghost use Rattle.tree_read.specs.Search.{ArePages};

use page_port::{DeviceFault, Port, Span};
use span_store::Holdings;

/// Is this page held?
pub fn has_page<S: Span>(held: &Holdings<S>, page: u32) -> bool
    ensures { result ≡ has held.now page }
{
    held.holds(page, 1)
}

/// Reads one page that is held. It takes no memory.
pub fn read_page<P: Port>(
    held: &Holdings<P::S>,
    port: &mut P,
    page: u32,
    out: &mut [u8],
) -> Result<(), DeviceFault>
    requires pages { ArePages P.S.tells (P.meter port.old).page held.now }
    requires whole { length out.old ≡ (P.meter port.old).page }
    requires held { IsTrue (has held.now page) }
    ensures bytes { OnOk result (IsTrue P.S.tells → out.new ≡ bytes_on held.now page) }
    ensures reads { Reads 1 (P.meter port.old) (P.meter port.new) }
    ensures cause { HasCause (P.meter port.old).faults (P.meter port.new).faults (IsErr result) }
{
    held.read_run(port, page, out)
}
