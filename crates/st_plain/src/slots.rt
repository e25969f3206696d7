//! The values of inputs and outputs among those of all slots.

ghost use Rattle.std.specs.Prelude.{◌≡◌, ◌<◌, ◌≤◌, ◌+◌, true, false, IfOk, Some, length, slice_get, slice_set};
ghost use Rattle.vcp_base.specs.Limits.{most_names};
ghost use Rattle.vcp_base.specs.Types.{AreIn};
ghost use Rattle.vcp_typed.specs.Fitting.{input_types, output_types};
ghost use Rattle.vcp_typed.specs.SourceRun.{is_input, is_output, initial, with_inputs, outputs};

use st_tree::Section;
use std::alloc::Global;
use vcp_base::{Memory, Row};
use vcp_typed::Slot;

/// The values before the first cycle.
pub fn initial_values(alloc: Global, slots: &[Slot]) -> Result<Row, Memory>
    ensures { IfOk result (λ r. r ≡ initial slots.now) }
{
    let mut values = Row::new(alloc);
    'each: for slot in slots {
        values.push(slot.init)?;
    }
    Ok(values)
}

/// The next value of the row for an input, and else the value that is kept.
fn input_or_kept(section: Section, row: &Row, next: &mut usize, kept: i64) -> i64
    requires few { next.old ≤ most_names }
    requires there { is_input section ≡ true → next.old < length row.now }
    ensures input { is_input section ≡ true → slice_get row.now next.old ≡ Some result }
    ensures taken { is_input section ≡ true → next.new ≡ next.old + 1 }
    ensures kept { is_input section ≡ false → result ≡ kept }
    ensures same { is_input section ≡ false → next.new ≡ next.old }
{
    if matches!(section, Section::Input) {
        let value = row.at(*next);
        *next += 1;
        value
    } else {
        kept
    }
}

/// Sets all values: the inputs to those of the row, and the others to what they were before.
pub fn set_inputs(slots: &[Slot], row: &Row, before: &Row, values: &mut Row)
    requires few { length slots.now ≤ most_names }
    requires row { AreIn (input_types slots.now) row.now }
    requires before { length before.now ≡ length slots.now }
    requires places { length values.old ≡ length slots.now }
    ensures { values.new ≡ with_inputs slots.now row.now before.now }
{
    let mut next = 0;
    'each: for (i, slot) in slots.iter().enumerate() {
        let value = input_or_kept(slot.section, row, &mut next, before.at(i));
        values.set(i as u32, value);
    }
}

/// Sets the next cell of the row, where the section is that of an output.
fn put_output(section: Section, value: i64, out: &mut Row, next: &mut u32)
    requires few { next.old < most_names }
    requires cell { is_output section ≡ true → next.old < length out.old }
    ensures put { is_output section ≡ true → out.new ≡ slice_set out.old next.old value }
    ensures counted { is_output section ≡ true → next.new ≡ next.old + 1 }
    ensures left { is_output section ≡ false → out.new ≡ out.old }
    ensures same { is_output section ≡ false → next.new ≡ next.old }
    ensures cells { length out.new ≡ length out.old }
{
    if matches!(section, Section::Output) {
        out.set(*next, value);
        *next += 1;
    }
}

/// Sets a row to the values of the outputs, in order of declaration.
pub fn set_outputs(slots: &[Slot], values: &Row, out: &mut Row)
    requires few { length slots.now ≤ most_names }
    requires values { length values.now ≡ length slots.now }
    requires cells { length out.old ≡ length (output_types slots.now) }
    ensures values { out.new ≡ outputs slots.now values.now }
    ensures cells { length out.new ≡ length out.old }
{
    let mut next = 0;
    'each: for (i, slot) in slots.iter().enumerate() {
        put_output(slot.section, values.at(i), out, &mut next);
    }
}
