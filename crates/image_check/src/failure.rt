//! Why the pages of a store are refused.

ghost use Rattle.std.specs.Prelude.{◌≡◌};
ghost use Rattle.image_check.specs.declared.failure.CheckFail.TheVariants.{Fault, Memory};

use page_port::DeviceFault;
use std::alloc::AllocError;
use thiserror::Error;

/// Why the trees of a store were not passed. The first check that fails is named.
#[derive(Clone, Copy, PartialEq, Eq, Debug, Error)]
pub enum CheckFail {
    /// The page holds no node.
    #[error("page {page} holds no node")]
    BadNode { page: u32 },
    /// The object's tree breaks a rule: a node off the data pages, of a wrong level or too few
    /// pairs, a sum that isn't the pair's, a segment that is too large or in no space, or two
    /// neighbouring segments below the threshold.
    #[error("the tree of object {object} breaks a rule")]
    BadTree { object: u16 },
    /// The page is in two places of the trees.
    #[error("page {page} is used twice")]
    PageTwice { page: u32 },
    /// The page is used, and free in its directory.
    #[error("page {page} is used and free")]
    PageFree { page: u32 },
    /// The page is neither free nor used. It is the lowest such page.
    #[error("page {page} is neither used nor free")]
    PageLost { page: u32 },
    /// The device failed.
    #[error("the device failed")]
    Fault,
    /// There was no memory.
    #[error("there was no memory")]
    Memory,
}

impl From<DeviceFault> for CheckFail {
    ghost from_gives = { λ _ e. e ≡ Fault };

    fn from(_fault: DeviceFault) -> CheckFail {
        CheckFail::Fault
    }
}

impl From<AllocError> for CheckFail {
    ghost from_gives = { λ _ e. e ≡ Memory };

    fn from(_error: AllocError) -> CheckFail {
        CheckFail::Memory
    }
}
