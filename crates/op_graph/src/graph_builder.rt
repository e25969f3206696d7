//! The builder of graphs.

ghost use Rattle.std.specs.Prelude.{◌≡◌, ◌≤◌, ◌<◌, ◌+◌, ◌^◌, ◌↔◌, ◌++◌, ◌∷◌, [], length, Some, None, Err, true, All, IfOk, OnOk, OnErr, slice_get};
ghost use Rattle.vcp_base.specs.Code.{admits};
ghost use Rattle.vcp_base.specs.Types.{fits};
ghost use Rattle.vcp_base.specs.Limits.{most_names, most_cells, most_turn_nodes, most_operations};
ghost use Rattle.vcp_base.specs.Names.{NameFits};
ghost use Rattle.op_graph.specs.Lists.{nothing};
ghost use Rattle.op_graph.specs.Rules.{TurnNodeFits, OpFits, Admitted, operand_fits, IsGraph, IsPart};
ghost use Rattle.op_graph.specs.Building.{nowhere, entry_op as entry_op_of, with_name, with_turn_node, with_op, with_input, with_load, with_output, with_store};
ghost use Rattle.op_graph.specs.Building.{type_of, cell_type};

use crate::build::Build;
use crate::graph::Graph;
use crate::lists::GraphLists;
use crate::op::{Loaded, Op, Outlet, TurnNode, Var};
use std::alloc::Global;
use std::marker::Model;
use vcp_base::{Kind, MOST_OPERATIONS, Memory, Profile, Spot, Text, Ty, append};

/// A graph that is built from its front. Each call appends its one entry and operation, and changes nothing
/// else; after a refusal nothing is changed. `Full` comes exactly where 65,536 operations are there, and
/// never for an INPUT.
pub struct GraphBuilder {
    alloc: Global,
    profile: Profile,
    names: Vec<Text>,
    inputs: Vec<Var>,
    outputs: Vec<Outlet>,
    loads: Vec<Loaded>,
    stores: Vec<u32>,
    turn_nodes: Vec<TurnNode>,
    operations: Vec<Op>,
}

impl Model for GraphBuilder {
    ghost use Rattle.op_graph.specs.Lists.{Lists};
    ghost use Rattle.op_graph.specs.Rules.{IsPart};

    ghost Value = { Lists };

    ghost view = { λ g. record {
      profile = g.profile;
      names = g.names.items;
      inputs = g.inputs.items;
      outputs = g.outputs.items;
      loads = g.loads.items;
      stores = g.stores.items;
      turn_nodes = g.turn_nodes.items;
      operations = g.operations.items;
    } };

    ghost invariant = { λ g. IsPart
        (record {
          profile = g.profile;
          names = g.names.items;
          inputs = g.inputs.items;
          outputs = g.outputs.items;
          loads = g.loads.items;
          stores =
              g.stores.items;
          turn_nodes = g.turn_nodes.items;
          operations = g.operations.items;
        }) };
}

impl Drop for GraphBuilder {
    fn drop(self) {
        let GraphBuilder {
            alloc: _,
            profile: _,
            names: _,
            inputs: _,
            outputs: _,
            loads: _,
            stores: _,
            turn_nodes: _,
            operations: _,
        } = self;
    }
}

/// Appends an operation and an entry of another list, or neither. Gives the operation's number.
fn append_both<T: Drop>(
    operations: &mut Vec<Op>,
    op: Op,
    entries: &mut Vec<T>,
    entry: T,
) -> Result<u32, Build>
    requires { length operations.old.items ≤ most_operations }
    ensures number { IfOk result (λ k. k ≡ length operations.old.items) }
    ensures operation { OnOk result (operations.new.items ≡ operations.old.items ++ op ∷ []) }
    ensures entry { OnOk result (entries.new.items ≡ entries.old.items ++ entry ∷ []) }
    ensures full { (result ≡ Err Build.Full) ↔ (length operations.old.items ≡ most_operations) }
    ensures no_operation { OnErr result (operations.new.items ≡ operations.old.items) }
    ensures no_entry { OnErr result (entries.new.items ≡ entries.old.items) }
{
    let k = operations.len() as u32;
    if k >= MOST_OPERATIONS {
        return Err(Build::Full);
    }
    match append(entries, entry) {
        Ok(()) => {}
        Err(Memory) => return Err(Build::Memory),
    }
    match append(operations, op) {
        Ok(()) => Ok(k),
        Err(Memory) => {
            entries.pop();
            Err(Build::Memory)
        }
    }
}

/// The INPUT, LOAD, STORE or OUT of the input, cell or output of a number, which reads operation `a`.
fn entry_op(kind: Kind, ty: Ty, a: u32, number: usize, spot: Spot) -> Op
    requires { number < 2 ^ 63 }
    ensures { result ≡ entry_op_of kind ty a number spot }
{
    Op {
        kind,
        from: ty,
        ty,
        a,
        b: 0,
        c: 0,
        imm: number as i64,
        spot,
        turn: 0,
    }
}

/// The type of a cell.
fn type_at(loads: &[Loaded], cell: u32) -> Ty
    requires { cell < length loads.now }
    ensures { result ≡ type_of (slice_get loads.now cell) }
{
    loads[cell as usize].ty
}

impl GraphBuilder {
    /// Nothing so far, of a graph in this code. It takes no memory.
    pub fn new(alloc: Global, profile: Profile) -> GraphBuilder
        ensures { result ≡ nothing profile }
    {
        GraphBuilder {
            alloc,
            profile,
            names: Vec::new(alloc),
            inputs: Vec::new(alloc),
            outputs: Vec::new(alloc),
            loads: Vec::new(alloc),
            stores: Vec::new(alloc),
            turn_nodes: Vec::new(alloc),
            operations: Vec::new(alloc),
        }
    }

    /// How many operations there are so far.
    pub fn len(&self) -> u32
        ensures count { result ≡ length self.now.operations }
        ensures rules { IsPart self.now }
    {
        self.operations.len() as u32
    }

    /// How many cells there are so far, at most 1,024.
    pub fn cells(&self) -> u32
        ensures { result ≡ length self.now.loads }
    {
        self.loads.len() as u32
    }

    /// What the LOAD of cell `i` makes, where `i` is below the number of cells.
    pub fn cell(&self, i: u32) -> Loaded
        requires { i < length self.now.loads }
        ensures { slice_get self.now.loads i ≡ Some result }
    {
        self.loads[i as usize]
    }

    /// Adds a copy of a name, which the rules allow after those that are there, where there are
    /// fewer than 1,024. Gives its number, from 0.
    pub fn name(&mut self, name: &Text) -> Result<u32, Memory>
        requires few { length self.old.names < most_names }
        requires fits { NameFits (λ n. n) self.old.names name.now }
        ensures number { IfOk result (λ k. k ≡ length self.old.names) }
        ensures added { OnOk result (self.new ≡ with_name self.old name.now) }
        ensures err { OnErr result (self.new ≡ self.old) }
    {
        let k = self.names.len() as u32;
        let copy = Text::copy_of(self.alloc, name.bytes())?;
        append(&mut self.names, copy)?;
        Ok(k)
    }

    /// Adds a turn node, whose parent is there or 0, where there are fewer than 65,536. Gives its
    /// number, from 1.
    pub fn turn(&mut self, node: TurnNode) -> Result<u32, Memory>
        requires few { length self.old.turn_nodes < most_turn_nodes }
        requires fits { TurnNodeFits (length self.old.names) self.old.turn_nodes node }
        ensures number { IfOk result (λ k. k ≡ length self.old.turn_nodes + 1) }
        ensures added { OnOk result (self.new ≡ with_turn_node self.old node) }
        ensures err { OnErr result (self.new ≡ self.old) }
        ensures rules { IsPart self.new }
    {
        let k = self.turn_nodes.len() as u32;
        append(&mut self.turn_nodes, node)?;
        Ok(k + 1)
    }

    /// Adds an input and its INPUT, where all operations so far are inputs and the name is above
    /// theirs; there is room for it, as there are no more inputs than names. Gives the operation's
    /// number.
    pub fn input(&mut self, name: u32, ty: Ty, spot: Spot) -> Result<u32, Memory>
        requires front { length self.old.inputs ≡ length self.old.operations }
        requires name { name < length self.old.names }
        requires name_rises { All (λ v. v.name < name) self.old.inputs }
        requires ty { admits self.old.profile ty ≡ true }
        ensures number { IfOk result (λ k. k ≡ length self.old.operations) }
        ensures added { OnOk result (self.new ≡ with_input self.old name ty spot) }
        ensures err { OnErr result (self.new ≡ self.old) }
    {
        let op = entry_op(Kind::Input, ty, 0, self.inputs.len(), spot);
        let Ok(k) = append_both(&mut self.operations, op, &mut self.inputs, Var { name, ty }) else {
            return Err(Memory);
        };
        Ok(k)
    }

    /// Adds a cell and its LOAD, where there are fewer than 1,024 cells and the initial value is in
    /// the type. Gives the operation's number.
    pub fn load(&mut self, name: u32, ty: Ty, init: i64, spot: Spot) -> Result<u32, Build>
        requires few { length self.old.loads < most_cells }
        requires name { name < length self.old.names }
        requires init { fits ty init ≡ true }
        requires ty { admits self.old.profile ty ≡ true }
        ensures number { IfOk result (λ k. k ≡ length self.old.operations) }
        ensures added { OnOk result (self.new ≡ with_load self.old name ty init spot) }
        ensures full { (result ≡ Err Build.Full) ↔ (length self.old.operations ≡ most_operations) }
        ensures err { OnErr result (self.new ≡ self.old) }
        ensures rules { IsPart self.new }
    {
        let op = entry_op(Kind::Load, ty, 0, self.loads.len(), spot);
        let cell = Loaded {
            name,
            ty,
            init,
            load: self.operations.len() as u32,
        };
        append_both(&mut self.operations, op, &mut self.loads, cell)
    }

    /// Adds an operation of no input, output or cell, which the rules allow after those that are
    /// there. Gives its number.
    pub fn push(&mut self, op: Op) -> Result<u32, Build>
        requires fits { OpFits nowhere (length self.old.turn_nodes) self.old.operations op }
        requires types { Admitted self.old.profile op }
        ensures number { IfOk result (λ k. k ≡ length self.old.operations) }
        ensures added { OnOk result (self.new ≡ with_op self.old op) }
        ensures full { (result ≡ Err Build.Full) ↔ (length self.old.operations ≡ most_operations) }
        ensures err { OnErr result (self.new ≡ self.old) }
        ensures rules { IsPart self.new }
    {
        let k = self.operations.len() as u32;
        if k >= MOST_OPERATIONS {
            return Err(Build::Full);
        }
        match append(&mut self.operations, op) {
            Ok(()) => {}
            Err(Memory) => return Err(Build::Memory),
        }
        Ok(k)
    }

    /// Adds an output and its OUT of operation `value`, where the name is above those of the outputs
    /// so far and the value's type is within `ty`. Gives the number of the OUT.
    pub fn output(&mut self, name: u32, ty: Ty, value: u32, spot: Spot) -> Result<u32, Build>
        requires name { name < length self.old.names }
        requires name_rises { All (λ o. o.name < name) self.old.outputs }
        requires ty { admits self.old.profile ty ≡ true }
        requires value { operand_fits self.old.operations (Some ty) value ≡ true }
        ensures number { IfOk result (λ k. k ≡ length self.old.operations) }
        ensures added { OnOk result (self.new ≡ with_output self.old name ty value spot) }
        ensures full { (result ≡ Err Build.Full) ↔ (length self.old.operations ≡ most_operations) }
        ensures err { OnErr result (self.new ≡ self.old) }
        ensures rules { IsPart self.new }
    {
        let op = entry_op(Kind::Out, ty, value, self.outputs.len(), spot);
        let output = Outlet {
            name,
            ty,
            op: self.operations.len() as u32,
        };
        append_both(&mut self.operations, op, &mut self.outputs, output)
    }

    /// Adds the STORE of a cell, which stores operation `value`, where the cells below are stored,
    /// this one isn't, and the value's type is within the cell's. Gives the operation's number.
    pub fn store(&mut self, cell: u32, value: u32, spot: Spot) -> Result<u32, Build>
        requires next { cell ≡ length self.old.stores }
        requires there { cell < length self.old.loads }
        requires value { operand_fits self.old.operations (Some (cell_type self.old cell)) value ≡ true }
        ensures number { IfOk result (λ k. k ≡ length self.old.operations) }
        ensures added { OnOk result (self.new ≡ with_store self.old (cell_type self.old cell) value spot) }
        ensures full { (result ≡ Err Build.Full) ↔ (length self.old.operations ≡ most_operations) }
        ensures err { OnErr result (self.new ≡ self.old) }
        ensures rules { IsPart self.new }
    {
        let ty = type_at(&self.loads, cell);
        let op = entry_op(Kind::Store, ty, value, cell as usize, spot);
        let k = self.operations.len() as u32;
        append_both(&mut self.operations, op, &mut self.stores, k)
    }

    /// The graph of what was built, where every cell is stored. It takes no memory.
    pub fn finish(self) -> Graph
        requires { length self.stores ≡ length self.loads }
        ensures { result ≡ self }
    {
        let GraphBuilder {
            alloc: _,
            profile,
            names,
            inputs,
            outputs,
            loads,
            stores,
            turn_nodes,
            operations,
        } = self;
        Graph::from_lists(GraphLists {
            profile,
            names,
            inputs,
            outputs,
            loads,
            stores,
            turn_nodes,
            operations,
        })
    }
}
