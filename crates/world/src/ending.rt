//! The end of a transaction, at the objects that it held. No other object is looked at.

ghost use Rattle.std.specs.Prelude.{◌≡◌, true};
ghost use Rattle.world.specs.Served.{IsEnded};
ghost use Rattle.world.specs.Session.{IsSoundSession};

use crate::serve::Objects;
use eos_ops::Blank;
use shadow_txn::Txn;

/// Ends the transaction by a commit or an abort. It takes no memory.
pub fn end(txn: &mut Txn<Blank>, objects: &mut Objects, committed: bool)
    requires open { txn.old.is_open ≡ true }
    requires sound { IsSoundSession objects.old txn.old }
    ensures { IsEnded committed objects.old txn.old objects.new txn.new }
{
    if committed {
        let _stamp = txn.commit(objects);
    } else {
        let _stamp = txn.abort(objects);
    }
}
