//! A script read from a source.

ghost use Rattle.std.specs.Prelude.{◌≡◌, ◌⊎◌, IfOk, IfErr, IfSome};
ghost use Rattle.fault_count.specs.Counts.{HasCause};
ghost use Rattle.edge_io.specs.Moved.{GaveAll};
ghost use Rattle.script_run.specs.Long.{IsLong};

use crate::failure::Failure;
use crate::lines::has_long_line;
use edge_io::{ReadFail, Source, read_all};
use script_model::MAX_SCRIPT;
use std::alloc::Global;

/// The whole input, where it is no longer than a script may be and has no line that is too long.
pub fn read_script<I: Source>(alloc: Global, input: &mut I) -> Result<Vec<u8>, Failure>
    ensures all { IfOk result
        (λ script. GaveAll script.items (I.left input.old) (I.left input.new)) }
    ensures short { IfOk result (λ script. IsLong script.items → ⊥) }
    ensures long { result ≡ Err Failure.Long → IfSome (I.left input.old) IsLong }
    ensures cause { HasCause (I.faults input.old) (I.faults input.new)
        (result ≡ Err Failure.Input) }
    ensures others { IfErr result (λ failure.
        (failure ≡ Failure.Input) ⊎ ((failure ≡ Failure.Long) ⊎ (failure ≡ Failure.Memory))) }
{
    let script = match read_all(alloc, input, MAX_SCRIPT) {
        Ok(script) => script,
        Err(ReadFail::Fault) => return Err(Failure::Input),
        Err(ReadFail::TooLong) => return Err(Failure::Long),
        Err(ReadFail::Memory) => return Err(Failure::Memory),
    };
    if has_long_line(&script) {
        return Err(Failure::Long);
    }
    Ok(script)
}
