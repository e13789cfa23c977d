//! Room for one end more in the annals of an object.

ghost use Rattle.std.specs.Prelude.{◌≡◌, ◌<◌, ◌≤◌, ◌↔◌, ◌^◌, ◌⊎◌, Err, true, IfSome, OnOk, IfErr};
ghost use Rattle.eos_ops.specs.Ends.{last_stamp_of};

use crate::HoldFail;
use eos_ops::{Annals, LAST_STAMP};

/// Makes the room, where there is a stamp left for the end.
pub fn make_room<H: Annals>(annals: &mut H) -> Result<(), HoldFail>
    ensures worn { (result ≡ Err HoldFail.Worn) ↔ (H.last annals.old ≡ 2 ^ 62) }
    ensures within { H.last annals.old ≤ 2 ^ 62 }
    ensures ok { OnOk result ((1 ≤ H.spare annals.new) × (H.last annals.new < 2 ^ 62)) }
    ensures err { IfErr result (λ e. (e ≡ HoldFail.Worn) ⊎ (e ≡ HoldFail.Memory)) }
    ensures memory { result ≡ Err HoldFail.Memory → H.tells ≡ true }
    ensures told { H.told annals.new ≡ H.told annals.old }
    ensures last { H.last annals.new ≡ H.last annals.old }
    ensures ages { IfSome (H.told annals.new) (λ ends. H.last annals.new ≡ last_stamp_of ends) }
{
    if annals.last_stamp() == LAST_STAMP {
        return Err(HoldFail::Worn);
    }
    match annals.reserve(1) {
        Ok(()) => Ok(()),
        Err(_) => Err(HoldFail::Memory),
    }
}
