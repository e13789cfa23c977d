//! The words of a program's command line.

ghost use Rattle.std.specs.Prelude.{◌≡◌, ◌⊎◌, IfErr};

use crate::failure::Failure;
use std::alloc::{Alloc, Global};
use std::env::{self, Env};
use std::io;

/// The words after the program's name. One that isn't UTF-8 is a faulty command line.
pub fn read_words<R: Env + Alloc<A = Global>>(rt: &R) -> Result<Vec<String>, Failure>
    ensures others { IfErr result
        (λ failure. (failure ≡ Failure.Usage) ⊎ (failure ≡ Failure.Memory)) }
{
    let words = match env::args(rt) {
        Ok(words) => words,
        Err(error) if error.kind() == io::ErrorKind::OutOfMemory => return Err(Failure::Memory),
        Err(_) => return Err(Failure::Usage),
    };
    let mut rest = Vec::new(rt.alloc());
    for word in words.skip(1) {
        if rest.push(word).is_err() {
            return Err(Failure::Memory);
        }
    }
    Ok(rest)
}
