//! Whose a page is, and how that is kept in two bytes.

ghost use Rattle.std.specs.Prelude.{◌≡◌, ◌<◌};
ghost use Rattle.image_check.specs.Owners.{owner_of, is_number};

/// Whose a data page is.
#[derive(Clone, Copy, PartialEq, Eq, Debug)]
pub enum Owner {
    /// It is free.
    Free,
    /// It is used, and no walk has met it.
    Nobody,
    /// It was met in the tree of this object.
    Object(u16),
}

/// What stands for a free page. An object's number stands for itself: there are at most 4,096.
pub const FREE: u16 = 0xffff;

/// What stands for a page that is used and was not met.
pub const NOBODY: u16 = 0xfffe;

/// What a code stands for.
pub fn owner_of(code: u16) -> Owner
    ensures { result ≡ owner_of code }
{
    if code == FREE {
        return Owner::Free;
    }
    if code == NOBODY {
        return Owner::Nobody;
    }
    Owner::Object(code)
}
