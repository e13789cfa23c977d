//! The image of a store: what bytes are one, of which numbers, database and moment, and for bytes
//! that are none the first check that fails.
//!
//! Definitions alone. `specs/Super.antt` and `specs/Catalog.antt` have the bytes of these pages.
//! Those of a directory page are `block_model`'s, and `specs/Directory.antt` reads them back.
//! `specs/Image.antt` has what an image is and what it shows, and `specs/Checks.antt` the checks in
//! their order.
#![tactic(auto)]
