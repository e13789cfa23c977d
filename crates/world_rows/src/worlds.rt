//! A world of objects on pages, and what a line of a test asks of a world.

ghost use Rattle.std.specs.Prelude.{IfOk};
ghost use Rattle.body_world.specs.Served.{NamesThresholdIn};

use crate::fresh::{add, world_over};
use body_double::PageBody;
use body_world::World;
use eos_ops::{Bytes, Command, Payload};
use object_body::Body;
use page_port::{Geometry, MemPort};
use std::alloc::{AllocError, Global};
use std::process::Abort;
use std::test::Fail;

/// A world of objects each of whose versions stands on one page.
pub fn page_world(alloc: Global) -> Option<World<MemPort, PageBody<MemPort>>> {
    let geometry = Geometry::new(256, 4, 1, 2, 2)?;
    let mut objects = Vec::new(alloc);
    'adds: for _ in 0..32 {
        let body = PageBody::new(&geometry);
        let Ok(()) = add(alloc, &mut objects, body) else {
            return None;
        };
    }
    world_over(alloc, &geometry, objects)
}

/// A command with its payload as a constant.
#[derive(Drop)]
pub enum Ask {
    Begin,
    Create(u64),
    Destroy(u64),
    Length(u64),
    Read(u64, u64, u64),
    Append(u64, &'static [u8]),
    Made(u64, u64),
    Insert(u64, u64, &'static [u8]),
    Commit,
    Abort,
    Status,
}

fn given(alloc: Global, bytes: &[u8]) -> Result<Payload, AllocError> {
    Ok(Payload::Given(Bytes::from_vec(bytes.to_vec(alloc)?)))
}

/// The command, which names no threshold.
fn command(alloc: Global, ask: &Ask) -> Result<Command, AllocError>
    ensures { IfOk result NamesThresholdIn }
{
    Ok(match *ask {
        Ask::Begin => Command::Begin,
        Ask::Create(object) => Command::Create {
            object,
            threshold: None,
        },
        Ask::Destroy(object) => Command::Destroy { object },
        Ask::Length(object) => Command::Length { object },
        Ask::Read(object, at, len) => Command::Read { object, at, len },
        Ask::Append(object, bytes) => Command::Append {
            object,
            payload: given(alloc, bytes)?,
        },
        Ask::Made(object, len) => Command::Append {
            object,
            payload: Payload::Made { len, start: 1 },
        },
        Ask::Insert(object, at, bytes) => Command::Insert {
            object,
            at,
            payload: given(alloc, bytes)?,
        },
        Ask::Commit => Command::Commit,
        Ask::Abort => Command::Abort,
        Ask::Status => Command::Status,
    })
}

/// Runs the lines, and compares each reply.
pub fn steps<B: Body<P = MemPort>>(
    rt: &(impl Abort + AllocGlobal),
    world: &mut World<MemPort, B>,
    lines: &[(u32, Ask, &str)],
) -> Result<(), Fail> {
    for (session, ask, want) in lines {
        let session = *session;
        assert!(rt; 0 < session && session <= 64);
        let reply = world.step(session, command(rt.alloc(), ask)?);
        let text = format!(in rt.alloc(); "{reply:?}")?;
        assert_eq!(rt; text.as_str(), *want);
    }
    Ok(())
}
