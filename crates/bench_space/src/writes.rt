//! Writes of pages to a file, one behind the other.

ghost use Rattle.std.specs.Prelude.{◌≡◌, ◌≤◌};

use crate::store::{Failure, PAGE, Store};
use page_port::{Port, Span};
use std::alloc::Global;

/// Writes `pages` pages in one call, so many times, each time the pages behind those of the call
/// before, and from the first on again where no more follow.
pub fn write_rounds(
    alloc: Global,
    store: &mut Store,
    pages: u32,
    rounds: u32,
) -> Result<(), Failure>
    requires some { 1 ≤ pages }
    requires few { pages ≤ 64 }
    requires page { store.old.port.page ≡ 4096 }
    requires count { store.old.data.count ≡ 16384 }
{
    let bytes = vec![in alloc; 7; pages as usize * PAGE]?;
    let last = store.data.pages() - pages;
    let mut at = 0;
    for _round in 0..rounds {
        let Ok(()) = store.port.write(&mut store.data, at, &bytes) else {
            return Err(Failure::Device);
        };
        at = if at + pages <= last { at + pages } else { 0 };
    }
    Ok(())
}
