//! A fat file: images and archives for several cpus.

pub mod arches;
pub mod entry;
pub mod laws;
pub mod table;
