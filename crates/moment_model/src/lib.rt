//! The moment of a store: for each object its committed and its working version and its spare
//! pages; what makes a moment sound, which pages are free and which release-locked, and how each
//! answered line moves it.
//!
//! Definitions and laws alone. `specs/Version.antt` has a version and the pages that it uses,
//! `specs/Moment.antt` the moment, its soundness and the roles of pages, `specs/Edit.antt` what an edit makes
//! of an object, `specs/Run.antt` a run over a transcript, and `specs/Costs.antt` the bounds.
#![tactic(auto)]

mod kind;

pub use kind::Kind;
