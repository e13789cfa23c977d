//! A world as a server.

ghost use Rattle.std.specs.Prelude.{◌≡◌, false, length, IfOk, OnOk, OnErr, IsTrue};
ghost use Rattle.eos_ops.specs.declared.command.Command.{Command};
ghost use Rattle.eos_ops.specs.declared.limits.TheConstants.{SESSIONS};
ghost use Rattle.script_model.specs.Grammar.{CommandFits};
ghost use Rattle.script_text.specs.Failing.{BringsBytes};
ghost use Rattle.body_world.specs.Ending.{HaveStopped};
ghost use Rattle.store_server.specs.Step.{IsServerStep};

use body_world::World;
use eos_ops::{Command, Reply};
use object_body::Body;
use page_port::Port;
use script_run::{GaveUp, Server};
use std::marker::Model;

/// Serves a script over a world.
///
/// In contracts it is what the world is: the store, with the counts of the port.
#[derive(Drop)]
pub struct StoreServer<P: Port, B: Body<P = P>> {
    world: World<P, B>,
}

impl<P: Port, B: Body<P = P>> Model for StoreServer<P, B> {
    ghost use Rattle.body_world.specs.Keeping.{WorldView};

    ghost Value = { WorldView };

    ghost view = { λ s. s.world };
}

impl<P: Port, B: Body<P = P>> StoreServer<P, B> {
    /// A server over this world.
    pub fn new(world: World<P, B>) -> StoreServer<P, B>
        ensures { result ≡ world }
    {
        StoreServer { world }
    }

    /// Hands the world out, whose parts `World::finish` gives back.
    pub fn into_world(self) -> World<P, B>
        ensures { result ≡ self }
    {
        self.world
    }
}

impl<P: Port, B: Body<P = P>> Server for StoreServer<P, B> {
    ghost step = { IsServerStep P.S.tells B.on_pages B.laid B.may_write B.may_read };

    ghost ready = { λ w. length w.store.machine.seats ≡ SESSIONS };

    // Where a command can't be read or answered for want of memory, that is its reply.
    ghost stops = { false };

    ghost ended = { λ w w'. HaveStopped P.S.tells SESSIONS w.store w'.store
        × (w'.meter ≡ w.meter) };

    fn serve(&mut self, session: u32, command: Command) -> Result<Reply, GaveUp> {
        Ok(self.world.step(session, command))
    }

    fn unread(&mut self, _session: u32) -> Result<Reply, GaveUp> {
        Ok(Reply::Memory)
    }

    fn finish(&mut self) {
        self.world.stop_all();
    }
}
