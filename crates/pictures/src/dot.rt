//! The graph of an image as a text for Graphviz, whose `dot` draws it.
//!
//! Each operation is a node, with its number, its kind, its name and its place in the source; but a constant is a small node of its own at each
//! operation that reads it, so that no line crosses the picture for it. A cell's STORE and its LOAD in the next cycle are joined by a dashed edge.
//! An operation from which no path leads to an output within the horizon is grey, and one whose differences cancel on their paths to an output is
//! red, as in the picture of the graph. The text is written piece by piece.

mod cells;
mod edges;
mod labels;
mod laws;
mod nodes;
mod text;
mod words;

pub use laws::a_text_draws_all;
pub use text::write_dot;
