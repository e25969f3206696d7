//! A whole image, read.

ghost use Rattle.std.specs.Prelude.{◌≡◌, map, None, IfOk};
ghost use Rattle.signature_table.specs.Signatures.{table_of};
ghost use Rattle.image_file.specs.Pieces.{Gives, read_all};
ghost use Rattle.image_file.specs.Image.{load_of, store_of, image_piece};
ghost use Rattle.image_file.specs.Graphs.{lists_of};
ghost use Rattle.image_file.specs.Readings.{Takes, Keeps};
ghost use Rattle.image_file.specs.Views.{parts};

use crate::fields::{FieldFault, ReadError, Reader};
use crate::head::{Counts, head_here};
use crate::lists::{cells_of, inputs_of, names_of, outputs_of, turns_of};
use crate::operation::operations_of;
use crate::scope::Scope;
use op_graph::{Cell, Graph, GraphLists, Loaded, Op, Outlet, TurnNode, Var};
use signature_table::Table;
use std::alloc::Global;
use vcp_base::{Memory, Text};

/// What an image says, with its cells' LOADs and STOREs.
pub(crate) struct Whole {
    pub(crate) counts: Counts,
    pub(crate) names: Vec<Text>,
    pub(crate) inputs: Vec<Var>,
    pub(crate) outputs: Vec<Outlet>,
    pub(crate) cells: Vec<Cell>,
    pub(crate) loads: Vec<Loaded>,
    pub(crate) stores: Vec<u32>,
    pub(crate) turn_nodes: Vec<TurnNode>,
    pub(crate) operations: Vec<Op>,
}

// Written out, so that the lists are given up here alone, and not wherever they go out of scope.
impl Drop for Whole {
    fn drop(self) {
        let Whole {
            counts: _,
            names: _,
            inputs: _,
            outputs: _,
            cells: _,
            loads: _,
            stores: _,
            turn_nodes: _,
            operations: _,
        } = self;
    }
}

impl Whole {
    /// The graph that an image says, and its table.
    pub(crate) fn into_graph(self, alloc: Global) -> Result<(Graph, Table), Memory>
        requires fits { image_piece.fits (parts self) }
        requires loads { self.loads.items ≡ map load_of self.cells.items }
        requires stores { self.stores.items ≡ map store_of self.cells.items }
        ensures graph { IfOk result (λ x. x.0 ≡ lists_of (parts self)) }
        ensures table { IfOk result (λ x. x.1 ≡ table_of (parts self).seed (parts self).step (lists_of (parts self))) }
    {
        let Whole {
            counts,
            names,
            inputs,
            outputs,
            cells: _,
            loads,
            stores,
            turn_nodes,
            operations,
        } = self;
        let graph = Graph::from_lists(GraphLists {
            profile: counts.profile,
            names,
            inputs,
            outputs,
            loads,
            stores,
            turn_nodes,
            operations,
        });
        match Table::new(alloc, &graph, counts.seed, counts.step) {
            Ok(table) => Ok((graph, table)),
            Err(Memory) => Err(Memory),
        }
    }
}

// The cells' LOADs.
fn loads_of(alloc: Global, cells: &[Cell], bytes: &mut Reader<'_>) -> Vec<Loaded>
    ensures keeps { Keeps bytes.old bytes.new }
    ensures loads { bytes.new.fault ≡ None → result.items ≡ map load_of cells.now }
{
    let mut loads = Vec::new(alloc);
    'cells: for i in 0..cells.len() {
        let c = &cells[i];
        let load = Loaded {
            name: c.name,
            ty: c.ty,
            init: c.init,
            load: c.load,
        };
        bytes.push(&mut loads, load);
    }
    loads
}

// The numbers of the cells' STOREs.
fn stores_of(alloc: Global, cells: &[Cell], bytes: &mut Reader<'_>) -> Vec<u32>
    ensures keeps { Keeps bytes.old bytes.new }
    ensures stores { bytes.new.fault ≡ None → result.items ≡ map store_of cells.now }
{
    let mut stores = Vec::new(alloc);
    'cells: for i in 0..cells.len() {
        bytes.push(&mut stores, cells[i].store);
    }
    stores
}

/// The image at the front.
fn whole_of(alloc: Global, bytes: &mut Reader<'_>) -> Whole
    ensures is { Takes bytes.old bytes.new image_piece.read (parts result) }
    ensures loads { bytes.new.fault ≡ None → result.loads.items ≡ map load_of result.cells.items }
    ensures stores { bytes.new.fault ≡ None → result.stores.items ≡ map store_of result.cells.items }
{
    let counts = head_here(bytes);
    let names = names_of(alloc, &counts, bytes);
    let inputs = inputs_of(alloc, &counts, bytes);
    let outputs = outputs_of(alloc, &counts, bytes);
    let cells = cells_of(alloc, &counts, bytes);
    let turn_nodes = turns_of(alloc, &counts, bytes);
    let loads = loads_of(alloc, &cells, bytes);
    let stores = stores_of(alloc, &cells, bytes);
    let scope = Scope {
        profile: counts.profile,
        seed: counts.seed,
        step: counts.step,
        inputs: &inputs,
        outputs: &outputs,
        cells: &cells,
        loads: &loads,
        stores: &stores,
        turn_nodes: counts.turn_nodes,
    };
    let operations = operations_of(alloc, &scope, counts.operations, bytes);
    Whole {
        counts,
        names,
        inputs,
        outputs,
        cells,
        loads,
        stores,
        turn_nodes,
        operations,
    }
}

/// The image that the bytes are, after which no byte is left.
pub(crate) fn read(alloc: Global, bytes: &[u8]) -> Result<Whole, ReadError>
    ensures is { Gives parts result (read_all image_piece bytes.now) }
    ensures loads { IfOk result (λ w. w.loads.items ≡ map load_of w.cells.items) }
    ensures stores { IfOk result (λ w. w.stores.items ≡ map store_of w.cells.items) }
{
    let mut rest = Reader {
        left: bytes,
        fault: None,
    };
    let whole = whole_of(alloc, &mut rest);
    let left = rest.left.len();
    rest.check(left == 0, FieldFault::Rest { left });
    match rest.fault {
        None => Ok(whole),
        Some(error) => Err(error),
    }
}
