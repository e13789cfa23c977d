//! The parts of an open store as one value.

use crate::fixed::Fixed;
use object_body::Object;
use page_port::{Geometry, Port};
use space_directory::Space;

/// An open store, taken apart. An opening makes these parts, a closing takes them; in between each
/// is used by itself.
#[derive(Drop)]
pub struct StoreParts<P: Port, B, H> {
    /// The numbers of the store.
    pub geometry: Geometry,
    /// The pages that belong to no space and no object.
    pub fixed: Fixed<P::S>,
    /// The spaces, in the order of their numbers.
    pub spaces: Vec<Space<P::S>>,
    /// The objects, in the order of their numbers.
    pub objects: Vec<Object<B, H>>,
    /// The channel to the device.
    pub port: P,
}
