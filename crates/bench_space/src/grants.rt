//! Grants and gives on a space.

ghost use Rattle.std.specs.Prelude.{◌≤◌, length};
ghost use Rattle.space_directory.specs.SpaceView.{IsSpace};

use page_port::Span;
use space_directory::Space;

/// Grants `n` pages and gives them back, so many times.
pub fn grant_rounds<S: Span>(space: &mut Space<S>, n: u32, rounds: u32)
    requires some { 1 ≤ n }
    requires fits { n ≤ length space.old.free }
    requires space { IsSpace space.old }
{
    for _round in 0..rounds {
        let Some(segment) = space.grant(n) else {
            return;
        };
        space.give(segment);
    }
}
