//! The text of pictures in SVG: elements with attributes and characters, written piece by piece.
//!
//! What is written is the text of a list of elements inside one, and so it is well formed: each start
//! has its end, no element has an attribute twice, and each character that has a meaning of its own is
//! written as a reference. Characters outside ASCII, and control characters, are shown as the one
//! replacement character. Labels for Graphviz are written so, too, by the rules of its double quotes.

pub(crate) mod characters;
mod elements;
mod laws;
mod names;

pub use characters::{Escaping, Piece};
pub use elements::{begin_picture, end_picture, then_element};
pub use laws::pictures_are_well_formed;
pub use names::{Name, Tag};
