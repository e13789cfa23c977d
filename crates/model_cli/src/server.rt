//! A plain store as what serves a script.

ghost use Rattle.std.specs.Prelude.{◌≡◌, true, replicate, IfOk};
ghost use Rattle.eos_ops.specs.declared.plain.Plain.TheVariants.{Absent};
ghost use Rattle.geometry_model.specs.Numbers.{objects};
ghost use Rattle.moment_model.specs.Moment.{absent_slot};
ghost use Rattle.plain_moment.specs.Stored.{IsStoreStep, HoldersAgree, store_of};
ghost use Rattle.plain_plan.specs.Store.{numbers_of};
ghost use Rattle.model_cli.specs.Headline.{store_at_rest};

use eos_ops::{Command, Reply};
use plain_moment::PlainStore;
use plain_plan::Store;
use script_run::{GaveUp, Server};
use std::alloc::Global;
use std::marker::Model;

/// A plain store, which is to be dropped once it gave up.
#[derive(Drop)]
pub struct ModelServer {
    store: PlainStore,
}

impl Model for ModelServer {
    ghost use Rattle.plain_moment.specs.Stored.{Stored};

    ghost Value = { Stored };

    ghost view = { λ s. s.store };
}

impl ModelServer {
    /// A store of these numbers, whose objects are all absent.
    pub fn new(alloc: Global, numbers: Store) -> Result<ModelServer, GaveUp>
        ensures first { IfOk result (λ server. store_of server
            ≡ store_at_rest (numbers_of numbers) (replicate (objects (numbers_of numbers)) Absent)
            (replicate (objects (numbers_of numbers)) absent_slot)) }
        ensures tied { IfOk result HoldersAgree }
    {
        match PlainStore::new(alloc, numbers) {
            Ok(store) => Ok(ModelServer { store }),
            Err(_) => Err(GaveUp),
        }
    }
}

impl Server for ModelServer {
    ghost step = { IsStoreStep };

    ghost ready = { HoldersAgree };

    ghost stops = { true };

    ghost ended = { λ w w'. w' ≡ w };

    fn serve(&mut self, session: u32, command: Command) -> Result<Reply, GaveUp> {
        match self.store.step(session, command) {
            Ok(reply) => Ok(reply),
            Err(_) => Err(GaveUp),
        }
    }

    fn unread(&mut self, _session: u32) -> Result<Reply, GaveUp> {
        Err(GaveUp)
    }

    fn finish(&mut self) {}
}
