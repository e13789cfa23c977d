//! A law of the summary, as the contract of a function that does nothing.

ghost use Rattle.std.specs.Prelude.{◌≡◌, List, length, sum};
ghost use Rattle.std.specs.List.{AllByRecursion};
ghost use Rattle.eos_ops.specs.declared.plain.Plain.{Plain};
ghost use Rattle.eos_ops.specs.declared.reply.Reply.TheVariants.{Again};
ghost use Rattle.history.specs.Event.{Event};
ghost use Rattle.work_gen.specs.Summary.{summary_of};

/// The counts add up to the lines, where no reply is `again`.
pub fn each_line_is_counted_once()
    ensures { (past : List Event) (db : List Plain) →
        AllByRecursion (λ e. e.reply ≡ Again → ⊥) past →
        sum (summary_of past db).counts ≡ (summary_of past db).lines }
{}
