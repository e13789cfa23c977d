//! Counts that stay at their last value.
ghost use Rattle.std.specs.Prelude.{◌≡◌, ◌≤◌};
ghost use Rattle.fault_count.specs.Counts.{counted as sum_of};

/// A count after so many more. At the last value of its type it stays.
pub fn counted(count: u64, more: u64) -> u64
    ensures sum { result ≡ sum_of count more }
    ensures kept { count ≤ result }
{
    count.saturating_add(more)
}
