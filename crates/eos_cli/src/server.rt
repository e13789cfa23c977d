//! Plain objects in memory as what serves a script.

ghost use Rattle.std.specs.Prelude.{◌≡◌, ◌<◌, ◌≤◌, false, length, replicate, IfOk, OnOk, OnErr};
ghost use Rattle.std.specs.Prelude.{IsTrue};
ghost use Rattle.eos_ops.specs.declared.command.Command.{Command};
ghost use Rattle.eos_ops.specs.declared.limits.TheConstants.{SESSIONS};
ghost use Rattle.eos_ops.specs.declared.plain.Plain.TheVariants.{Absent};
ghost use Rattle.machine.specs.Machine.{AtRest, fresh};
ghost use Rattle.script_text.specs.Failing.{BringsBytes};
ghost use Rattle.world.specs.Ending.{machine_aborted};
ghost use Rattle.eos_cli.specs.Step.{IsPlainStep};

use eos_ops::{Command, Reply};
use script_run::{GaveUp, Server};
use std::alloc::{AllocError, Global};
use std::marker::Model;
use world::PlainWorld;

/// All sessions over plain objects in memory. In contracts it is the machine.
#[derive(Drop)]
pub struct PlainServer {
    world: PlainWorld,
}

impl Model for PlainServer {
    ghost use Rattle.machine.specs.Machine.{Machine};

    ghost Value = { Machine };

    ghost view = { λ s. s.world };
}

impl PlainServer {
    /// So many absent objects, and no transaction open. `AllocError` says that there was no memory
    /// for them.
    pub fn new(alloc: Global, objects: u32) -> Result<PlainServer, AllocError>
        ensures first { IfOk result (λ server. server ≡ fresh SESSIONS (replicate objects Absent)) }
        ensures sessions { IfOk result (λ server. length server.seats ≡ SESSIONS) }
    {
        match PlainWorld::new(alloc, objects) {
            Ok(world) => Ok(PlainServer { world }),
            Err(error) => Err(error),
        }
    }
}

impl Server for PlainServer {
    ghost step = { IsPlainStep };

    ghost ready = { λ m. length m.seats ≡ SESSIONS };

    ghost stops = { false };

    ghost ended = { λ m m'. (m' ≡ machine_aborted SESSIONS m) × AtRest m' };

    fn serve(&mut self, session: u32, command: Command) -> Result<Reply, GaveUp> {
        Ok(self.world.step(session, command))
    }

    fn unread(&mut self, _session: u32) -> Result<Reply, GaveUp> {
        Ok(Reply::Memory)
    }

    fn finish(&mut self) {
        self.world.finish();
    }
}
