//! Used pages: they are held, and marked as nobody's until a walk meets them.

ghost use Rattle.std.specs.Prelude.{◌≡◌, ℕ, ◌+◌, ◌<◌, ◌≤◌, length, IsTrue};
ghost use Rattle.geometry_model.specs.Numbers.{Numbers};
ghost use Rattle.geometry_model.specs.Pages.{is_data_page};
ghost use Rattle.page_port.specs.Pages.{IsSized};
ghost use Rattle.span_store.specs.Calls.{IsAdded};
ghost use Rattle.span_store.specs.Held.{AllSized, LacksRun, span_of};
ghost use Rattle.image_check.specs.Owners.{IsMarked, with_used};
ghost use Rattle.image_check.specs.Shares.{HoldsData};

use crate::walk::Walk;
use page_port::Span;
use span_store::Holdings;

/// Holds a used span, and marks its pages as used and nobody's. It takes no memory.
pub fn add_used<S: Span>(held: &mut Holdings<S>, walk: &mut Walk, span: S)
    requires room { length held.old.spans < held.old.room }
    requires apart { LacksRun held.old (S.start span) (length (S.contents span)) }
    requires inside { S.start span + length (S.contents span) ≤ length walk.old.owners }
    ensures marked { (n : Numbers) → IsMarked n held.old walk.old → IsMarked n held.new walk.new }
    ensures added { IsAdded (span_of S.start S.contents span) held.old held.new }
    ensures walk { walk.new ≡ with_used walk.old (S.start span) (length (S.contents span)) }
    ensures data { (n : Numbers) → HoldsData n held.old → ((q : ℕ) → S.start span ≤ q →
        q < S.start span + length (S.contents span) → IsTrue (is_data_page n q))
        → HoldsData n held.new }
    ensures sized { (size : ℕ) → IsSized S.tells size (S.contents span)
        → AllSized S.tells size held.old → AllSized S.tells size held.new }
{
    walk.mark_used(span.first(), span.pages());
    held.add(span);
}
