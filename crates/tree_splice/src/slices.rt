//! The two parts of a slice, and the sum of numbers.

ghost use Rattle.std.specs.Prelude.{◌≡◌, ◌^◌, ◌<◌, take, drop, sum_by};

/// The first `n` items, or all where there are fewer.
pub fn front<T>(items: &[T], n: usize) -> &[T]
    ensures { result.now ≡ take n items.now }
{
    if n < items.len() { &items[..n] } else { items }
}

/// The items behind the first `n`.
pub fn rest<T>(items: &[T], n: usize) -> &[T]
    ensures { result.now ≡ drop n items.now }
{
    if n < items.len() {
        &items[n..]
    } else {
        &items[items.len()..]
    }
}

/// The sum of these numbers.
pub fn total(numbers: &[usize]) -> usize
    requires { sum_by (λ n. n) numbers.now < 2 ^ 64 }
    ensures { result ≡ sum_by (λ n. n) numbers.now }
{
    let mut sum = 0;
    for number in numbers {
        sum += *number;
    }
    sum
}
