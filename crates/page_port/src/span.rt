//! Spans: pages in a row, with one owner.
ghost use Rattle.std.specs.Prelude.{◌≡◌, ℕ, ◌+◌, ◌-◌, ◌^◌, ◌<◌, ◌≤◌, Bool, List, ◌++◌, length};
ghost use Rattle.std.specs.Prelude.{take, drop};

/// Owned pages in a row (an extent). No two spans share a page, so who has one knows its bytes.
pub trait Span: Drop {
    // Do contracts know what the pages hold? It is so for all spans of a type, or for none.
    ghost tells: { Bool };

    // The number of the first page.
    ghost start: { Self → ℕ };

    // What each page holds. Where spans of this type don't tell, only the length of the list
    // counts.
    ghost contents: { Self → List (List ℕ) };

    /// The number of its first page.
    fn first(&self) -> u32
        ensures { result ≡ start self.now };

    /// How many pages it has: at least one.
    fn pages(&self) -> u32
        ensures count { result ≡ length (contents self.now) }
        ensures some { 1 ≤ length (contents self.now) }
        ensures fits { start self.now + length (contents self.now) < 2 ^ 32 };

    /// Takes off the first `n` pages. It takes no memory.
    fn cut(&mut self, n: u32) -> Self
        requires some { 1 ≤ n }
        requires fewer { n < length (contents self.old) }
        ensures front { start result ≡ start self.old }
        ensures front_pages { contents result ≡ take n (contents self.old) }
        ensures rest { start self.new ≡ start self.old + n }
        ensures rest_pages { contents self.new ≡ drop n (contents self.old) };

    /// Appends the span that begins where this one ends. It takes no memory.
    fn join(&mut self, next: Self)
        requires { start next ≡ start self.old + length (contents self.old) }
        ensures first { start self.new ≡ start self.old }
        ensures pages { contents self.new ≡ contents self.old ++ contents next };
}
