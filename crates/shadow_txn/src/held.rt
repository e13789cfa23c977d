//! An object in the hands of a transaction.

ghost use Rattle.std.specs.Prelude.{◌≡◌, ◌≤◌, None, IfSome, IfNone, is_some, length};
ghost use Rattle.shadow_txn.specs.Held.{held_object, IsFirstAt};

use eos_ops::Acts;

/// An object with its number, and what the transaction did to it where its annals keep that.
#[derive(Debug, Drop)]
pub struct Held<T> {
    /// Which object it is on its shelf, from 0 on.
    pub number: u32,
    /// The object, which the transaction owns meanwhile.
    pub object: T,
    /// What was done to it, in order. There are none where its annals keep none.
    pub acts: Acts,
}

/// Where an object stands among those that are held.
pub fn place_of<T>(held: &[Held<T>], o: u64) -> Option<usize>
    requires { length held.now ≤ 16 }
    ensures found { IfSome result (λ i. IsFirstAt held.now o i) }
    ensures none { IfNone result (held_object o held.now ≡ None) }
    ensures variant { is_some result ≡ is_some (held_object o held.now) }
{
    for (i, one) in held.iter().enumerate() {
        if u64::from(one.number) == o {
            return Some(i);
        }
    }
    None
}
