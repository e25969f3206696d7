//! The lists of a graph.

use crate::op::{Loaded, Op, Outlet, TurnNode, Var};
use vcp_base::{Profile, Text};

/// What a graph is made of: its code and its lists. Which of them are a graph, the rules say.
#[derive(Drop)]
pub struct GraphLists {
    /// The code of the graph.
    pub profile: Profile,
    /// The names, no two of which are one name.
    pub names: Vec<Text>,
    /// The inputs, whose INPUTs are the first operations, in order.
    pub inputs: Vec<Var>,
    /// The outputs, in the order of their OUTs.
    pub outputs: Vec<Outlet>,
    /// What the LOAD of each cell makes, in the order of the LOADs.
    pub loads: Vec<Loaded>,
    /// The number of the STORE of each cell, in the order of the cells.
    pub stores: Vec<u32>,
    /// The turn nodes, each after its parent.
    pub turn_nodes: Vec<TurnNode>,
    /// The operations, each after those that it reads.
    pub operations: Vec<Op>,
}
