//! The end of a transaction, at the objects that it held. No other object is looked at.

ghost use Rattle.std.specs.Prelude.{◌≡◌, true, None};
ghost use Rattle.geometry_model.specs.Numbers.{Numbers};
ghost use Rattle.superdirectory.specs.Solo.{rest_of};
ghost use Rattle.body_txn.specs.Ending.{EndInTurn, IsEndStep};
ghost use Rattle.fault_count.specs.Counts.{Meter};
ghost use Rattle.body_world.specs.Served.{IsEnded, IsOfStore, works_of};
ghost use Rattle.body_world.specs.Session.{shown_by, stamp_of_object, IsSoundSession};

use body_txn::Txn;
use eos_ops::Blank;
use object_body::{Body, Object};
use object_locks::SoloShelf;
use page_port::Port;
use superdirectory::Solo;

/// Ends the transaction by a commit or an abort. It takes no memory.
pub fn end<P: Port, B: Body<P = P>>(
    txn: &mut Txn<B, Blank>,
    objects: &mut SoloShelf<Object<B, Blank>>,
    spaces: &mut Solo<P::S>,
    committed: bool,
)
    requires open { txn.old.is_open ≡ true }
    requires sound { IsSoundSession objects.old txn.old }
    requires store { (n : Numbers) × (meter : Meter)
        × IsOfStore (shown_by B.form B.told) n objects.old txn.old
        (works_of spaces.old meter) }
    ensures ended { IsEnded P.S.tells (shown_by B.form B.told) stamp_of_object
        committed objects.old txn.old objects.new txn.new }

    // The bodies are settled or undone, the last one first, and the spaces move with each.
    ensures turns { EndInTurn (λ x. IsEndStep P.S.tells B.suits committed (B.form x.body)
        (B.told x.body)) txn.old.held
        (record { rest = rest_of spaces.old; trace = None })
        (record { rest = rest_of spaces.new; trace = None }) }
{
    if committed {
        let _stamp = txn.commit(objects, spaces, &mut ());
    } else {
        let _stamp = txn.abort(objects, spaces, &mut ());
    }
}
