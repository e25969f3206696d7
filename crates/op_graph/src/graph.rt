//! Graphs.

ghost use Rattle.std.specs.Prelude.{◌≡◌, ◌-◌, ◌<◌, ◌≤◌, ℤ, List, Some, IfOk, OnOk, IfSome, [], ◌∷◌, ◌++◌, length, map, slice_get, slice_index_or, All};
ghost use Rattle.op_graph.specs.Lists.{cells, column as column_of, output_column, turns_of, lists_of};
ghost use Rattle.op_graph.specs.Rules.{IsGraph, HasTypes};
ghost use Rattle.op_graph.specs.GraphRun.{graph_run};

use crate::lists::GraphLists;
use crate::op::{Cell, Loaded, Op, Outlet, TurnNode, Var};
use crate::turns_round::{TurnsRound, turns_round};
use std::alloc::Global;
use std::marker::Model;
use vcp_base::{Column, Columns, Memory, Profile, Text, Ty};

/// A graph of operations, which keeps the rules of the image format.
///
/// Its first operations are the INPUTs, in order; each output has one OUT, and each cell one LOAD and one
/// later STORE. Operands are earlier operations, whose types are within those in which they are read. A
/// narrow one has no LINT: no operation on it, and no cell of it.
pub struct Graph {
    lists: GraphLists,
}

impl Model for Graph {
    ghost use Rattle.op_graph.specs.Lists.{Lists, lists_of};
    ghost use Rattle.op_graph.specs.Rules.{IsGraph};

    ghost Value = { Lists };

    ghost view = { λ g. lists_of g.lists };

    ghost invariant = { λ g. IsGraph (lists_of g.lists) };
}

impl Drop for Graph {
    fn drop(self) {
        let Graph { lists: _ } = self;
    }
}

impl Graph {
    /// The graph of these lists, where they are one by the rules. It takes no memory.
    pub fn from_lists(lists: GraphLists) -> Graph
        requires { IsGraph (lists_of lists) }
        ensures { result ≡ lists_of lists }
    {
        Graph { lists }
    }

    /// The lists of the graph, given back. It takes no memory.
    pub fn into_lists(self) -> GraphLists
        ensures lists { lists_of result ≡ self }
        ensures rules { IsGraph self }
    {
        let Graph { lists } = self;
        lists
    }

    /// The same lists with other operations, where they are a graph by the rules. It takes no memory.
    pub fn with_operations(self, operations: Vec<Op>) -> Graph
        requires { IsGraph (record self { operations = operations.items }) }
        ensures { result ≡ record self { operations = operations.items } }
    {
        let Graph { mut lists } = self;
        lists.operations = operations;
        Graph { lists }
    }

    /// The code of the graph, which has words of each type in it: a narrow graph has no LINT.
    pub fn profile(&self) -> Profile
        ensures value { result ≡ self.now.profile }
        ensures types { HasTypes self.now }
    {
        self.lists.profile
    }

    /// The same lists in the wide code, and so the same run. It takes no memory.
    pub fn widened(self) -> Graph
        ensures lists { result ≡ record self { profile = Profile.Wide } }
        ensures run { (rows : List (List ℤ)) → graph_run result rows ≡ graph_run self rows }
    {
        let Graph { mut lists } = self;
        lists.profile = Profile::Wide;
        Graph { lists }
    }

    /// How many operations there are, at most 65,536.
    pub fn len(&self) -> u32
        ensures count { result ≡ length self.now.operations }
        ensures rules { IsGraph self.now }
    {
        self.lists.operations.len() as u32
    }

    /// How many names there are, at most 1,024.
    pub fn names(&self) -> u32
        ensures { result ≡ length self.now.names }
    {
        self.lists.names.len() as u32
    }

    /// How many inputs there are, at most 1,024.
    pub fn inputs(&self) -> u32
        ensures { result ≡ length self.now.inputs }
    {
        self.lists.inputs.len() as u32
    }

    /// How many outputs there are, at most 1,024.
    pub fn outputs(&self) -> u32
        ensures { result ≡ length self.now.outputs }
    {
        self.lists.outputs.len() as u32
    }

    /// How many cells there are, at most 1,024.
    pub fn cells(&self) -> u32
        ensures count { result ≡ length (cells self.now) }
        ensures loads { result ≡ length self.now.loads }
        ensures stores { result ≡ length self.now.stores }
    {
        self.lists.loads.len() as u32
    }

    /// How many turn nodes there are, at most 65,536.
    pub fn turn_nodes(&self) -> u32
        ensures { result ≡ length self.now.turn_nodes }
    {
        self.lists.turn_nodes.len() as u32
    }

    /// The operations, in their order.
    pub fn operations(&self) -> &[Op]
        ensures list { result.now ≡ self.now.operations }
        ensures rules { IsGraph self.now }
    {
        &self.lists.operations
    }

    /// The names, in their order.
    pub fn all_names(&self) -> &[Text]
        ensures { result.now ≡ self.now.names }
    {
        &self.lists.names
    }

    /// The inputs, in their order.
    pub fn all_inputs(&self) -> &[Var]
        ensures { result.now ≡ self.now.inputs }
    {
        &self.lists.inputs
    }

    /// The outputs, in their order.
    pub fn all_outputs(&self) -> &[Outlet]
        ensures { result.now ≡ self.now.outputs }
    {
        &self.lists.outputs
    }

    /// What the LOAD of each cell makes, in the order of the cells.
    pub fn loads(&self) -> &[Loaded]
        ensures { result.now ≡ self.now.loads }
    {
        &self.lists.loads
    }

    /// The number of each cell's STORE, in the order of the cells.
    pub fn stores(&self) -> &[u32]
        ensures { result.now ≡ self.now.stores }
    {
        &self.lists.stores
    }

    /// The turn nodes, in their order, the first of which has number 1.
    pub fn all_turn_nodes(&self) -> &[TurnNode]
        ensures { result.now ≡ self.now.turn_nodes }
    {
        &self.lists.turn_nodes
    }

    /// Name `i`, where `i` is below the number of names.
    pub fn name(&self, i: u32) -> &Text
        requires { i < length self.now.names }
        ensures { slice_get self.now.names i ≡ Some result.now }
    {
        &self.lists.names[i as usize]
    }

    /// Input `i`, where `i` is below the number of inputs.
    pub fn input(&self, i: u32) -> Var
        requires { i < length self.now.inputs }
        ensures { slice_get self.now.inputs i ≡ Some result }
    {
        self.lists.inputs[i as usize]
    }

    /// Output `i`, where `i` is below the number of outputs.
    pub fn output(&self, i: u32) -> Outlet
        requires { i < length self.now.outputs }
        ensures { slice_get self.now.outputs i ≡ Some result }
    {
        self.lists.outputs[i as usize]
    }

    /// Cell `i`, where `i` is below the number of cells.
    pub fn cell(&self, i: u32) -> Cell
        requires { i < length (cells self.now) }
        ensures { slice_get (cells self.now) i ≡ Some result }
    {
        let loaded = self.lists.loads[i as usize];
        Cell {
            name: loaded.name,
            ty: loaded.ty,
            init: loaded.init,
            load: loaded.load,
            store: self.lists.stores[i as usize],
        }
    }

    /// Turn node `i`, counted from 1, where `i` is at most the number of turn nodes.
    pub fn turn_node(&self, i: u32) -> TurnNode
        requires from { 1 ≤ i }
        requires to { i ≤ length self.now.turn_nodes }
        ensures { slice_get self.now.turn_nodes (i - 1) ≡ Some result }
    {
        self.lists.turn_nodes[i as usize - 1]
    }

    /// Operation `i`, where `i` is below the number of operations.
    pub fn operation(&self, i: u32) -> Op
        requires { i < length self.now.operations }
        ensures { slice_get self.now.operations i ≡ Some result }
    {
        self.lists.operations[i as usize]
    }

    /// The turns round operation `i`, outermost first, where `i` is below the number of operations.
    /// The name of each is one of the graph's names. It takes no memory.
    pub fn turns(&self, i: u32) -> TurnsRound<'_>
        requires { i < length self.now.operations }
        ensures turns { IfSome (slice_get self.now.operations i) (λ op. result ≡ turns_of self.now op.turn) }
        ensures named { All (λ turn. turn.name < length self.now.names) result }
    {
        let op = &self.lists.operations[i as usize];
        turns_round(&self.lists.turn_nodes, op.turn)
    }

    /// The names and types of the inputs, in order.
    pub fn columns(&self, alloc: Global) -> Result<Columns, Memory>
        ensures { IfOk result (λ columns. columns ≡ map (column_of self.now.names) self.now.inputs) }
    {
        let mut columns = Columns::new(alloc);
        'inputs: for input in &self.lists.inputs {
            self.append_column(alloc, &mut columns, input.name, input.ty)?;
        }
        Ok(columns)
    }

    /// The names and types of the outputs, in order.
    pub fn output_columns(&self, alloc: Global) -> Result<Columns, Memory>
        ensures { IfOk result (λ columns. columns ≡ map (output_column self.now.names) self.now.outputs) }
    {
        let mut columns = Columns::new(alloc);
        'outputs: for output in &self.lists.outputs {
            self.append_column(alloc, &mut columns, output.name, output.ty)?;
        }
        Ok(columns)
    }

    /// Appends the column of a name and a type.
    fn append_column(
        &self,
        alloc: Global,
        columns: &mut Columns,
        name: u32,
        ty: Ty,
    ) -> Result<(), Memory>
        requires { name < length self.now.names }
        ensures { OnOk result (columns.new ≡ columns.old ++ record { name = slice_index_or self.now.names name []; ty = ty } ∷ []) }
    {
        let name = Text::copy_of(alloc, self.lists.names[name as usize].bytes())?;
        columns.push(Column { name, ty })
    }
}
