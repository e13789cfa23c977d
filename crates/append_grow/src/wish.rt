//! How many pages an append asks for.

ghost use Rattle.std.specs.Prelude.{◌≡◌, ◌≤◌};
ghost use Rattle.layout_model.specs.Plan.{ask_of};

/// The pages that an append asks for: the `needed` ones, or twice the pages of the `last` segment
/// up to `limit`, whichever is more. So the segments of an object that grows double (Biliris 1992).
///
/// `last` is the pages of the last segment before the append, or 0, and `limit` the pages of a
/// space.
pub fn ask(needed: u32, last: u32, limit: u32) -> u32
    requires within { last ≤ limit }
    requires limit { limit ≤ 16384 }
    ensures { result ≡ ask_of needed last limit }
{
    needed.max((2 * last).min(limit))
}
