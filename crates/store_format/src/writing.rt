//! Pages of a store written on their span.

ghost use Rattle.std.specs.Prelude.{◌≡◌, ℕ, ◌+◌, ◌/◌, ◌<◌, length, IsTrue, IsErr, OnOk};
ghost use Rattle.fault_count.specs.Counts.{HasCause, IsUsed};
ghost use Rattle.image_model.specs.Super.{image_page};
ghost use Rattle.page_port.specs.Pages.{FitsPages, IsSized};
ghost use Rattle.store_format.specs.Rows.{row_page, KeepsShape, KeepsPagesBut};

use page_port::{DeviceFault, Port};

/// Writes whole pages by one call of the device, from page `from` of the span on. It takes no
/// memory.
///
/// # Errors
/// The device failed: the port's count of faults rose. The pages of the range may hold anything.
pub fn write_run<P: Port>(
    port: &mut P,
    span: &mut P::S,
    from: u32,
    bytes: &[u8],
) -> Result<(), DeviceFault>
    requires { FitsPages P.S.tells (P.meter port.old).page from (length bytes.now)
        (P.S.contents span.old) }
    ensures bytes { OnOk result (IsTrue P.S.tells → (page : ℕ) →
        page < length bytes.now / (P.meter port.old).page →
        row_page (P.S.contents span.new) (from + page)
        ≡ image_page (P.meter port.old).page bytes.now page) }
    ensures others { KeepsPagesBut from (length bytes.now / (P.meter port.old).page)
        (row_page (P.S.contents span.old)) (row_page (P.S.contents span.new)) }
    ensures place { P.S.start span.new ≡ P.S.start span.old }
    ensures shape { KeepsShape P.S.tells (P.meter port.old).page
        (P.S.contents span.old) (P.S.contents span.new) }
    ensures port { IsUsed (P.meter port.old) (P.meter port.new) }
    ensures cause { HasCause (P.meter port.old).faults (P.meter port.new).faults (IsErr result) }
{
    port.write(span, from, bytes)
}

/// Writes page `at` of the span. It takes no memory.
///
/// # Errors
/// The device failed: the port's count of faults rose. The page may hold anything.
pub fn write_page<P: Port>(
    port: &mut P,
    span: &mut P::S,
    at: u32,
    page: &[u8],
) -> Result<(), DeviceFault>
    requires some { 0 < (P.meter port.old).page }
    requires page { length page.now ≡ (P.meter port.old).page }
    requires range { at < length (P.S.contents span.old) }
    requires sized { IsSized P.S.tells (P.meter port.old).page (P.S.contents span.old) }
    ensures bytes { OnOk result (IsTrue P.S.tells →
        row_page (P.S.contents span.new) at ≡ page.now) }
    ensures others { KeepsPagesBut at 1
        (row_page (P.S.contents span.old)) (row_page (P.S.contents span.new)) }
    ensures place { P.S.start span.new ≡ P.S.start span.old }
    ensures shape { KeepsShape P.S.tells (P.meter port.old).page
        (P.S.contents span.old) (P.S.contents span.new) }
    ensures port { IsUsed (P.meter port.old) (P.meter port.new) }
    ensures cause { HasCause (P.meter port.old).faults (P.meter port.new).faults (IsErr result) }
{
    write_run(port, span, at, page)
}
