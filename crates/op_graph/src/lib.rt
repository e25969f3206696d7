//! The graph of operations: the straight list of coded operations that a program is compiled to,
//! with its names, inputs, outputs, cells and turn nodes, and how it is built from its front.
//!
//! A graph is seen by contracts as its lists, which keep the rules of the image format.
#![tactic(auto)]

mod build;
mod graph;
mod graph_builder;
mod laws;
mod lists;
mod op;
mod rules;
mod turns_round;

pub use build::Build;
pub use graph::Graph;
pub use graph_builder::GraphBuilder;
pub use laws::{
    cells_have_two_parts, entries_are_found_by_one_walk, entries_keep_their_rules,
    fields_are_wrong_in_order, numbers_have_64_bits, operands_are_in_their_types,
    operands_are_there,
};
pub use lists::GraphLists;
pub use op::{Cell, Loaded, Op, Outlet, TurnNode, Var};
pub use rules::{
    Entry, Place, converts, entry_of, from_fits, imm_fits, kind_fits, named, operand_fits,
    reads_as, reads_operation, takes_type, turn_fits, ty_fits,
};
pub use turns_round::TurnsRound;
