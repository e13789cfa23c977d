//! Orders out of a mask.

ghost use Rattle.std.specs.Prelude.{◌≡◌, ℕ, ◌<◌, ◌≤◌, IfSome, IfNone};
ghost use Rattle.std.specs.Int.{bit_at};

/// The least order of the mask, from `from` on.
pub fn least_from(mask: u16, from: u8) -> Option<u8>
    requires { from < 16 }
    ensures found { IfSome result (λ order. (from ≤ order) × (bit_at mask order ≡ 1)) }
    ensures least { IfSome result (λ order. (i : ℕ) → from ≤ i → bit_at mask i ≡ 1 → order ≤ i) }
    ensures none { IfNone result ((i : ℕ) → from ≤ i → bit_at mask i ≡ 0) }
{
    let fitting = mask >> from;
    if fitting == 0 {
        return None;
    }
    Some(from + fitting.trailing_zeros() as u8)
}

/// The greatest order of the mask.
pub fn greatest(mask: u16) -> Option<u8>
    ensures found { IfSome result (λ order. bit_at mask order ≡ 1) }
    ensures greatest { IfSome result (λ order. (i : ℕ) → bit_at mask i ≡ 1 → i ≤ order) }
    ensures none { IfNone result (mask ≡ 0) }
{
    if mask == 0 {
        return None;
    }
    Some((15 - mask.leading_zeros()) as u8)
}
