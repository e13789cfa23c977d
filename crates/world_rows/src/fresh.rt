//! A world in which nothing is used: one space of 16 free pages, and 32 objects that are absent.

ghost use Rattle.std.specs.Prelude.{◌≡◌, IfSome, OnOk, length, true};
ghost use Rattle.eos_ops.specs.declared.limits.TheConstants.{SESSIONS};
ghost use Rattle.geometry_model.specs.Numbers.{Numbers};
ghost use Rattle.moment_model.specs.Moment.{absent_slot};
ghost use Rattle.body_world.specs.Session.{shown_by};
ghost use Rattle.txn_rows.specs.Session.{small};
ghost use Rattle.world_rows.specs.Rows.{AreFreeSpaces, AreAbsent};

use body_world::World;
use eos_ops::{Blank, Plain};
use object_body::{Body, Object};
use page_port::{Bay, Geometry, MemBay, MemPort, MemSpan, Span};
use plain_body::PlainBody;
use space_directory::Space;
use std::alloc::{AllocError, Global};

/// Pages of 256 bytes, one space, pages 4 to 19, all of them free.
fn free_spaces(alloc: Global) -> Option<Vec<Space<MemSpan>>>
    ensures { IfSome result (λ spaces. AreFreeSpaces small spaces.items) }
{
    let mut bay = MemBay::new(alloc, Vec::new(alloc), Vec::new(alloc));
    let Ok(()) = bay.prepare(5120) else {
        return None;
    };
    let Ok(mut span) = bay.mount(256, 20) else {
        return None;
    };
    let _head = span.cut(4);
    let mut page = [0; 256];
    page[0] = b'D';
    page[1] = b'I';
    page[2] = b'R';
    page[3] = b'1';
    page[11] = 16;
    page[16] = 255;
    page[17] = 255;
    let geometry = Geometry::new(256, 4, 1, 2, 2)?;
    let space = match Space::read_page(alloc, &geometry, 0, &page, span) {
        Ok(read) => read.space,
        Err(_) => return None,
    };
    if space.counts().free != 16 {
        return None;
    }
    let Ok(spaces) = Vec::from_array(alloc, [space]) else {
        return None;
    };
    Some(spaces)
}

/// Adds an absent object over this body.
pub fn add<B: Body>(
    alloc: Global,
    objects: &mut Vec<Object<B, Blank>>,
    body: B,
) -> Result<(), AllocError>
    requires rests { (B.form body).is_resting ≡ true }
    requires absent { (B.told body).slot ≡ absent_slot }
    ensures { OnOk result ((n : Numbers) → (B.form body).numbers ≡ n
        → AreAbsent (shown_by B.form B.told) n objects.old.items
        → AreAbsent (shown_by B.form B.told) n objects.new.items) }
{
    let annals = Blank::at(0);
    objects.push(Object { body, annals })?;
    Ok(())
}

/// A world over the store, whose objects are these.
pub fn world_over<B: Body<P = MemPort>>(
    alloc: Global,
    geometry: &Geometry,
    objects: Vec<Object<B, Blank>>,
) -> Option<World<MemPort, B>>
    requires store { geometry.now ≡ small }
    requires absent { AreAbsent (shown_by B.form B.told) geometry.now objects.items }
    ensures seats { IfSome result (λ world. length world.store.machine.seats ≡ SESSIONS) }
{
    if objects.len() != geometry.objects() as usize {
        return None;
    }
    let spaces = free_spaces(alloc)?;
    let port = MemPort::new(256, Vec::new(alloc), Vec::new(alloc));
    World::new(alloc, geometry, spaces, objects, port).ok()
}

/// A world of 32 absent objects in memory, with all its sessions; none where there is no memory.
pub fn plain_world(alloc: Global) -> Option<World<MemPort, PlainBody<MemPort>>>
    ensures seats { IfSome result (λ world. length world.store.machine.seats ≡ SESSIONS) }
{
    let geometry = Geometry::new(256, 4, 1, 2, 2)?;
    let mut objects = Vec::new(alloc);
    'adds: for _ in 0..32 {
        let body = PlainBody::new(&geometry, Plain::Absent);
        let Ok(()) = add(alloc, &mut objects, body) else {
            return None;
        };
    }
    world_over(alloc, &geometry, objects)
}
