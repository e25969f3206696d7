//! What a graph is made of.

use vcp_base::{Kind, Spot, Ty};

/// One operation.
#[derive(Clone, Copy)]
pub struct Op {
    /// What the operation does, and so how many operands it has.
    pub kind: Kind,
    /// The type of the operands; the kinds of logic, and the first operand of SEL, take BOOL.
    pub from: Ty,
    /// The type of the result.
    pub ty: Ty,
    /// The operation that the first operand reads; 0 where there is none.
    pub a: u32,
    /// The operation that the second operand reads; 0 where there is none.
    pub b: u32,
    /// The operation that the third operand reads; 0 where there is none.
    pub c: u32,
    /// The number of the input, cell or output of INPUT, LOAD, STORE and OUT, the value of CONST,
    /// and else 0.
    pub imm: i64,
    /// The place in the source that the operation comes from.
    pub spot: Spot,
    /// The turn node of the innermost turn round the place, counted from 1; 0 for none.
    pub turn: u32,
}

/// An input.
#[derive(Clone, Copy, PartialEq, Eq)]
pub struct Var {
    /// The number of its name.
    pub name: u32,
    /// The type of its values.
    pub ty: Ty,
}

/// An output.
#[derive(Clone, Copy, PartialEq, Eq)]
pub struct Outlet {
    /// The number of its name.
    pub name: u32,
    /// The type of its values.
    pub ty: Ty,
    /// The number of its OUT.
    pub op: u32,
}

/// A cell, which keeps a value from one cycle to the next.
#[derive(Clone, Copy)]
pub struct Cell {
    /// The number of its name.
    pub name: u32,
    /// The type of its values.
    pub ty: Ty,
    /// Its value before the first cycle.
    pub init: i64,
    /// The number of its LOAD, which reads it.
    pub load: u32,
    /// The number of its STORE, which gives it its value for the next cycle.
    pub store: u32,
}

/// A cell without its STORE: what its LOAD makes.
#[derive(Clone, Copy, PartialEq, Eq)]
pub struct Loaded {
    /// The number of its name.
    pub name: u32,
    /// The type of its values.
    pub ty: Ty,
    /// Its value before the first cycle.
    pub init: i64,
    /// The number of its LOAD, which reads it.
    pub load: u32,
}

/// One turn of a FOR. Turn nodes are counted from 1.
#[derive(Clone, Copy, PartialEq, Eq)]
pub struct TurnNode {
    /// The turn node of the turn round it; 0 for none.
    pub parent: u32,
    /// The number of the control variable's name.
    pub name: u32,
    /// The value of the control variable in this turn.
    pub value: i64,
}
