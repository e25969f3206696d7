//! What commands answer: the answer and the task of words and files, how a command ends, the causes of its statuses and
//! completeness, for any task. The functions give the graph and the image of a program, and are laws of these definitions.

mod graphs;
mod images;
mod laws;

pub use graphs::graph_of;
pub use images::image_for;
pub use laws::{endings_have_causes, lists_are_told};
