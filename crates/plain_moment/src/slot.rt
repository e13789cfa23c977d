//! An object of a store: its two versions and its spare pages.

ghost use Rattle.std.specs.Prelude.{◌≡◌, IfOk};
ghost use Rattle.moment_model.specs.Moment.{absent_slot};

use crate::version::copy_version;
use layout_model::Extent;
use plain_layout::Tree;
use plain_plan::Fail;
use std::alloc::Global;
use std::marker::Model;

/// The committed and the working version of an object, none where it is absent, and the spare pages
/// behind the working one. In contracts it is the slot of a moment.
#[derive(Drop)]
pub struct ObjectSlot {
    committed: Option<Tree>,
    working: Option<Tree>,
    spare: Option<Extent>,
}

impl Model for ObjectSlot {
    ghost use Rattle.moment_model.specs.Moment.{ObjectSlot};

    ghost Value = { ObjectSlot };

    ghost view = { λ s. record { committed = s.committed; working = s.working; spare = s.spare } };
}

impl ObjectSlot {
    /// An absent object at rest.
    pub fn absent() -> ObjectSlot
        ensures { result ≡ absent_slot }
    {
        ObjectSlot {
            committed: None,
            working: None,
            spare: None,
        }
    }

    /// A slot of these versions and this spare.
    pub fn new(committed: Option<Tree>, working: Option<Tree>, spare: Option<Extent>) -> ObjectSlot
        ensures { result ≡ record { committed = committed; working = working; spare = spare } }
    {
        ObjectSlot {
            committed,
            working,
            spare,
        }
    }

    /// The committed version.
    pub fn committed(&self) -> &Option<Tree>
        ensures { result.now ≡ self.now.committed }
    {
        &self.committed
    }

    /// The working version.
    pub fn working(&self) -> &Option<Tree>
        ensures { result.now ≡ self.now.working }
    {
        &self.working
    }

    /// The spare pages.
    pub fn spare(&self) -> Option<Extent>
        ensures { result ≡ self.now.spare }
    {
        self.spare
    }

    /// The same slot once more.
    pub fn copy(&self, alloc: Global) -> Result<ObjectSlot, Fail>
        ensures { IfOk result (λ copy. copy ≡ self.now) }
    {
        Ok(ObjectSlot {
            committed: copy_version(alloc, &self.committed)?,
            working: copy_version(alloc, &self.working)?,
            spare: self.spare,
        })
    }
}
