//! What the words ask for.

ghost use Rattle.std.specs.Prelude.{◌≤◌};

/// Which calls are timed.
#[derive(Clone, Copy, PartialEq, Eq, Debug)]
pub enum Kind {
    Grants,
    Writes,
}

/// So many rounds of calls of that kind, each of 1 to 64 pages.
#[derive(Clone, Copy)]
pub struct Work {
    pub kind: Kind,
    pub pages: u32,
    pub rounds: u32,
    ghost some: { 1 ≤ pages },
    ghost few: { pages ≤ 64 },
}

/// The work that three words ask for.
pub fn work_of(kind: &str, pages: &str, rounds: &str) -> Option<Work> {
    let kind = match kind {
        "grants" => Kind::Grants,
        "writes" => Kind::Writes,
        _ => return None,
    };
    let (Ok(pages), Ok(rounds)) = (pages.parse::<u32>(), rounds.parse::<u32>()) else {
        return None;
    };
    if pages < 1 || pages > 64 {
        return None;
    }
    Some(Work {
        kind,
        pages,
        rounds,
    })
}
