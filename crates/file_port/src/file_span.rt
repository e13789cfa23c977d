//! Spans of a file: the numbers of pages in a row.
ghost use Rattle.std.specs.Prelude.{◌≡◌, ◌+◌, ◌*◌, ◌^◌, ◌<◌, ◌≤◌, false};
ghost use Rattle.file_port.specs.Files.{untold};

use page_port::Span;
use std::marker::Model;

/// Pages of a file in a row. It owns them by being the only span that names them.
#[derive(Drop)]
pub struct FileSpan {
    first: u32,
    count: u32,
}

impl Model for FileSpan {
    ghost use Rattle.std.specs.Prelude.{◌+◌, ◌^◌, ◌<◌, ◌≤◌};
    ghost use Rattle.file_port.specs.Files.{Extent};

    ghost Value = { Extent };

    ghost view = { λ s. record { first = s.first; count = s.count } };

    ghost invariant = { λ s. (1 ≤ s.count) × (s.first + s.count < 2 ^ 32) };
}

impl FileSpan {
    /// The first `count` pages of a file.
    pub(crate) fn whole(count: u32) -> FileSpan
        requires { 1 ≤ count }
        ensures { result ≡ record { first = 0; count = count } }
    {
        FileSpan { first: 0, count }
    }

    /// The byte of the file at which page `from` of the span begins, for pages of `page` bytes.
    pub(crate) fn byte(&self, from: u32, page: u32) -> u64
        requires { from < self.now.count }
        ensures { result ≡ (self.now.first + from) * page }
    {
        let at = self.first + from;
        at as u64 * page as u64
    }
}

impl Span for FileSpan {
    ghost tells = { false };

    ghost start = { λ s. s.first };

    ghost contents = { λ s. untold s.count };

    fn first(&self) -> u32 {
        self.first
    }

    fn pages(&self) -> u32 {
        self.count
    }

    fn cut(&mut self, n: u32) -> FileSpan {
        let front = FileSpan {
            first: self.first,
            count: n,
        };
        self.first += n;
        self.count -= n;
        front
    }

    fn join(&mut self, next: FileSpan) {
        self.count += next.count;
    }
}
