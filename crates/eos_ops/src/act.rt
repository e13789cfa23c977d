//! One thing that a transaction did.

use crate::{Command, Reply};

/// A command of a transaction on an object, and the reply of that object to it.
///
/// The payload of the command stands as its bytes.
#[derive(Debug, Drop)]
pub struct Act {
    /// What the transaction asked for.
    pub command: Command,
    /// What the object answered.
    pub reply: Reply,
}
