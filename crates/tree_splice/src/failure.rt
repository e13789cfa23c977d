//! Why an exchange was given up.

ghost use Rattle.std.specs.Prelude.{◌≡◌};
ghost use Rattle.tree_splice.specs.Splice.{of_search};
ghost use Rattle.tree_splice.specs.declared.failure.SpliceFail.TheVariants.{Fault, Memory};

use page_port::DeviceFault;
use std::alloc::AllocError;
use tree_read::TreeFail;

/// Why an exchange was given up.
#[derive(Clone, Copy, PartialEq, Eq, Debug)]
pub enum SpliceFail {
    /// No space has a free page for a node.
    NoSpace,
    /// The device failed, or gave a page that isn't the node that was written.
    Fault,
    /// There was no memory, or a page was granted that is held already.
    Memory,
}

impl From<AllocError> for SpliceFail {
    ghost from_gives = { λ _ e. e ≡ Memory };

    fn from(_error: AllocError) -> SpliceFail {
        SpliceFail::Memory
    }
}

impl From<DeviceFault> for SpliceFail {
    ghost from_gives = { λ _ e. e ≡ Fault };

    fn from(_fault: DeviceFault) -> SpliceFail {
        SpliceFail::Fault
    }
}

impl From<TreeFail> for SpliceFail {
    ghost from_gives = { λ fail e. e ≡ of_search fail };

    fn from(fail: TreeFail) -> SpliceFail {
        match fail {
            TreeFail::Fault => SpliceFail::Fault,
            TreeFail::Memory => SpliceFail::Memory,
        }
    }
}
