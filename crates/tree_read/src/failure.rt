//! Why a search was given up.

ghost use Rattle.std.specs.Prelude.{◌≡◌};
ghost use Rattle.tree_read.specs.declared.failure.TreeFail.TheVariants.{Fault, Memory};

use page_port::DeviceFault;
use std::alloc::AllocError;

/// Why a search was given up.
#[derive(Clone, Copy, PartialEq, Eq, Debug)]
pub enum TreeFail {
    /// The device failed, or gave a page that isn't the node that was written.
    Fault,
    /// There was no memory for the nodes or the segments found.
    Memory,
}

impl From<DeviceFault> for TreeFail {
    ghost from_gives = { λ _ e. e ≡ Fault };

    fn from(_fault: DeviceFault) -> TreeFail {
        TreeFail::Fault
    }
}

impl From<AllocError> for TreeFail {
    ghost from_gives = { λ _ e. e ≡ Memory };

    fn from(_error: AllocError) -> TreeFail {
        TreeFail::Memory
    }
}
