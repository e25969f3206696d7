//! Image files: a graph, its seed and its step as bytes, both ways. `fields` reads and writes their fields.
#![tactic(auto)]

mod fault;
mod fields;
mod head;
mod image;
mod laws;
mod lists;
mod operation;
mod scope;
mod walk;
mod whole;
mod writing;

pub use fault::ImageFault;
pub use image::read_image;
pub use laws::images_are_told_apart;
pub use writing::write_image;
