//! A store as one value: the machine of its objects and sessions, and the moment of its pages; and
//! what an answered line makes of it.
//!
//! Definitions alone. `specs/Store.antt` has the value and its steps: the one where the device
//! tells its bytes, and the one that is owed over every device.
#![tactic(auto)]
