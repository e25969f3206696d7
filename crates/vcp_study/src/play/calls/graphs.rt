//! Graphs: behind the passes, with their tables and their weights, and the largest that is built.

ghost use Rattle.std.specs.Prelude.{◌≡◌, ◌<◌, length};

use crate::play::calls::images::read;
use crate::play::calls::machines::tell_cycles;
use crate::play::calls::words::u32_of;
use crate::play::sessions::came::Came;
use crate::play::texts::{place_in, word};
use crate::play::told::Told;
use graph_passes::{fold, prune, reduce, share};
use op_graph::{Build, Graph, GraphBuilder, Op};
use signature_table::Table;
use std::alloc::Global;
use vcp_base::{
    Kind, MOST_CYCLES, MOST_STEP, Memory, Profile, SEEDS, Spot, Text, Ty, kind_name, ty_name,
};
use vcp_outside::read_all;
use weight_audit::Weights;
use weight_audit::weigh::weights;

/// What the file of a name has; nothing where it isn't read.
pub fn text_in(came: &mut Came, name: &[u8]) -> Text {
    match read_all(came.alloc, &mut came.files, name, 1 << 24) {
        Ok(text) => text,
        Err(_) => Text::from_vec(Vec::new(came.alloc)),
    }
}

/// The graph of the image of a name; None where it is none.
pub fn graph_in(came: &mut Came, name: &[u8]) -> Option<Graph> {
    let text = text_in(came, name);
    match read(came.alloc, text.bytes()) {
        Ok((graph, _table)) => Some(graph),
        Err(_) => None,
    }
}

/// Calls on the graph of an image: three cycles of its machine; the residue that is expected of an operation; the weights of the operations; and names,
/// cells and operations behind a pass.
pub fn tell_graph(came: &mut Came, n: &[i128; 12], words: &[u8], told: Told) -> Told {
    let call = word(words, 1);
    let Some(graph) = graph_in(came, word(words, 0)) else {
        return told.say(b"no image");
    };
    match place_in(b"by_hand expected weights fold prune share", call) {
        0 => tell_cycles(came.alloc, &graph, &mut came.unit, n, told),
        1 => tell_expected(came.alloc, n, graph, told),
        2 => tell_weights(came.alloc, &graph, told),
        3 => tell_passed(fold(came.alloc, graph), told),
        4 => tell_passed(prune(came.alloc, graph), told),
        5 => tell_passed(share(came.alloc, graph), told),
        _ => tell_passed(reduce(came.alloc, graph), told),
    }
}

/// Tells how many names and cells the graph behind a pass has, and in further lines of each operation the kind and the types, the operands, the number and
/// the place.
fn tell_passed(passed: Result<Graph, Memory>, told: Told) -> Told {
    let Ok(graph) = passed else {
        return told.say(b"no memory");
    };
    let mut told = told
        .number(graph.names() as i128)
        .number(graph.cells() as i128)
        .say(b"\n");
    for op in graph.operations() {
        told = told
            .item(kind_name(op.kind))
            .item(ty_name(op.from))
            .item(ty_name(op.ty))
            .number(op.a as i128)
            .number(op.b as i128)
            .number(op.c as i128)
            .number(op.imm as i128)
            .number(op.spot.line as i128)
            .number(op.spot.col as i128)
            .say(b"\n");
    }
    told
}

/// Tells the residue that is expected of an operation of a graph in a cycle, in a code, with the greatest seed and the greatest step.
fn tell_expected(alloc: Global, n: &[i128; 12], graph: Graph, told: Told) -> Told {
    let graph = if n[2] == 1 { graph.widened() } else { graph };
    let op = u32_of(n[3]);
    let cycle = u32_of(n[4]);
    if op < graph.len()
        && cycle < MOST_CYCLES
        && let Ok(table) = Table::new(alloc, &graph, SEEDS - 1, MOST_STEP)
    {
        return told.number(table.expected(op, cycle) as i128).say(b"\n");
    }
    told
}

/// Tells the weights of a graph's operations.
fn tell_weights(alloc: Global, graph: &Graph, told: Told) -> Told {
    if graph.outputs() > 0
        && let Ok(table) = Table::new(alloc, graph, 0, 1)
        && let Ok(audit) = weights(alloc, graph, &table, 1)
    {
        return tell_each_weight(&audit, graph.len(), told);
    }
    told
}

/// Tells of each operation its weight at the first output, and whether it is reached, in its own cycle and one cycle later.
fn tell_each_weight(audit: &Weights, count: u32, told: Told) -> Told
    requires operations { count ≡ audit.now.operations }
    requires outputs { 0 < length audit.now.outputs }
    requires horizon { audit.now.horizon ≡ 1 }
{
    let mut told = told;
    for op in 0..count {
        told = told
            .number(audit.weight(op, 0, 0) as i128)
            .number(audit.reached(op, 0, 0) as i128)
            .number(audit.weight(op, 0, 1) as i128)
            .number(audit.reached(op, 0, 1) as i128)
            .say(b"\n");
    }
    told
}

/// A constant of DINT outside every FOR.
fn constant(imm: i64) -> Op
    ensures { result
        ≡ record { kind = Kind.Const; from = Ty.Dint; ty = Ty.Dint; a = 0; b = 0; c = 0; imm = imm; spot = record { line = 4; col = 8 }; turn = 0 } }
{
    Op {
        kind: Kind::Const,
        from: Ty::Dint,
        ty: Ty::Dint,
        a: 0,
        b: 0,
        c: 0,
        imm,
        spot: Spot { line: 4, col: 8 },
        turn: 0,
    }
}

/// Tells how many constants a builder takes, how many of one more are refused, how many operations its graph has, and the number of the last.
pub fn tell_filled(alloc: Global, told: Told) -> Told {
    let mut builder = GraphBuilder::new(alloc, Profile::Narrow);
    let mut refused = 0u32;
    'constants: for _i in 0..65537u32 {
        match builder.push(constant(5)) {
            Ok(_) | Err(Build::Memory) => {}
            Err(Build::Full) => refused = refused.saturating_add(1),
        }
    }
    let told = told.number(builder.len() as i128).number(refused as i128);
    let graph = builder.finish();
    match graph.operations().last() {
        Some(last) => told.number(graph.len() as i128).number(last.imm as i128),
        None => told,
    }
}
