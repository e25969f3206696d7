//! Spelling: which tokens spell which program, after the grammar of the language.
//!
//! The definitions go from a tree to its tokens, each at its depth. A parser goes from tokens to the
//! tree and a writer from the tree to a text; both are held against them. The functions here
//! give the level of an operator and state laws of the definitions.

mod laws;
mod levels;

pub use laws::{spelled_names_are_declarable, spelling_begins};
pub use levels::level_of;
