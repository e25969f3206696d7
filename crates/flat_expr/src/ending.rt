//! The end of a cycle: the OUTs, and the STOREs of the slots' present values.

ghost use Rattle.std.specs.Prelude.{◌≡◌, ◌<◌, ◌+◌, ℕ, true, length};
ghost use Rattle.vcp_typed.specs.SourceRun.{is_output as is_output_of};
ghost use Rattle.flat_expr.specs.Closing.{Closes, Ends, Holds, IsOver, IsSlot};
ghost use Rattle.flat_expr.specs.State.{State};

use op_graph::{Build, GraphBuilder};
use st_tree::Section;
use vcp_typed::{Slot, Slots};

/// Adds the OUTs in order of declaration, each with the LOAD of its output where no operation holds
/// the output's value.
pub(crate) fn close_outputs(
    slots: &Slots,
    graph: &mut GraphBuilder,
    known: &mut Vec<Option<u32>>,
) -> Result<(), Build>
    requires { (s : State) × Closes s 0 0 graph.old known.old.items × IsOver s slots.now }
    ensures { (s : State) → Closes s 0 0 graph.old known.old.items → IsOver s slots.now →
        Ends s (λ _. Closes s (length s.slots) 0 graph.new known.new.items) result }
{
    'outputs: for slot in 0..slots.len() {
        close_output(slots, graph, known, slot as u32)?;
    }
    Ok(())
}

/// Adds the OUT of a slot that is an output.
fn close_output(
    slots: &Slots,
    graph: &mut GraphBuilder,
    known: &mut Vec<Option<u32>>,
    slot: u32,
) -> Result<(), Build>
    requires { (s : State) × Closes s slot 0 graph.old known.old.items × IsOver s slots.now × (slot < length s.slots) }
    ensures { (s : State) → Closes s slot 0 graph.old known.old.items → IsOver s slots.now →
        Ends s (λ _. Closes s (slot + 1) 0 graph.new known.new.items) result }
{
    let variable = slots.at(slot as usize);
    if !is_output(variable.section) {
        return Ok(());
    }
    let k = held(graph, known, slot, variable)?;
    graph.output(slot, variable.ty, k, variable.spot)?;
    Ok(())
}

/// Whether a variable of the section is an output.
fn is_output(section: Section) -> bool
    ensures { result ≡ is_output_of section }
{
    match section {
        Section::Output => true,
        Section::Input | Section::Local | Section::Retain | Section::Constant => false,
    }
}

/// The operation that holds an output's value: the output's LOAD, which is added, where there is none.
fn held(
    graph: &mut GraphBuilder,
    known: &mut Vec<Option<u32>>,
    slot: u32,
    variable: &Slot,
) -> Result<u32, Build>
    requires output { is_output_of variable.now.section ≡ true }
    requires slot { (s : State) × Closes s slot 0 graph.old known.old.items × IsSlot s slot variable.now }
    ensures { (s : State) → Closes s slot 0 graph.old known.old.items → IsSlot s slot variable.now → Ends s (Holds s graph.new known.new.items slot) result }
{
    if let Some(k) = known[slot as usize] {
        return Ok(k);
    }
    let k = graph.load(slot, variable.ty, variable.init, variable.spot)?;
    known[slot as usize] = Some(k);
    Ok(k)
}

/// Adds the STOREs in order of the cells.
pub(crate) fn close_cells(
    slots: &Slots,
    graph: &mut GraphBuilder,
    known: &[Option<u32>],
) -> Result<(), Build>
    requires { (s : State) × (n : ℕ) × Closes s n 0 graph.old known.now × IsOver s slots.now }
    ensures { (s : State) (n : ℕ) → Closes s n 0 graph.old known.now → IsOver s slots.now →
        Ends s (λ _. Closes s n (length graph.new.loads) graph.new known.now) result }
{
    let last = graph.cells();
    'cells: for cell in 0..last {
        close_cell(slots, graph, known, cell)?;
    }
    Ok(())
}

/// Adds the STORE of a cell, the first that has none.
fn close_cell(
    slots: &Slots,
    graph: &mut GraphBuilder,
    known: &[Option<u32>],
    cell: u32,
) -> Result<(), Build>
    requires { (s : State) × (n : ℕ) × Closes s n cell graph.old known.now × IsOver s slots.now × (cell < length graph.old.loads) }
    ensures { (s : State) (n : ℕ) → Closes s n cell graph.old known.now → IsOver s slots.now →
        Ends s (λ _. (graph.new.loads ≡ graph.old.loads) × Closes s n (cell + 1) graph.new known.now) result }
{
    let loaded = graph.cell(cell);
    let variable = slots.at(loaded.name as usize);
    let Some(k) = known[loaded.name as usize] else {
        unreachable!();
    };
    graph.store(cell, k, variable.spot)?;
    Ok(())
}
