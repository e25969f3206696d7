//! Checked programs.

ghost use Rattle.std.specs.Prelude.{◌≡◌, [], ◌∷◌, ◌++◌, IfOk, OnOk};
ghost use Rattle.vcp_typed.specs.Checked.{IsChecked};
ghost use Rattle.vcp_typed.specs.Fitting.{columns_in, input_columns, output_columns as output_columns_of};
ghost use Rattle.vcp_typed.specs.Size.{size};
ghost use Rattle.vcp_typed.specs.Wide.{wide};
ghost use Rattle.vcp_typed.specs.TStmtViews.{tstmt_trees};

use crate::measure::{measured, size_of};
use crate::slot::{Slot, Slots};
use crate::stmt::TStmts;
use st_tree::Section;
use std::alloc::Global;
use std::marker::Model;
use vcp_base::{Column, Columns, Memory, Text};

/// A checked program: its slots, its body, and its Size. Each slot's name is a name and new, initial values
/// and literals are in their types, each node has its type, each slot that is named is there, labels are in
/// their selector's type, the values of a FOR in its variable's, nothing is set that may not be, there are at
/// most 1,024 slots and Size is at most 65,536.
pub struct Typed {
    slots: Slots,
    body: TStmts,
    size: u32,
}

impl Drop for Typed {
    fn drop(self) {
        let Typed {
            slots: _,
            body: _,
            size: _,
        } = self;
    }
}

impl Model for Typed {
    ghost use Rattle.std.specs.Prelude.{◌≡◌};
    ghost use Rattle.vcp_typed.specs.Checked.{IsChecked};
    ghost use Rattle.vcp_typed.specs.Codes.{program_code};
    ghost use Rattle.vcp_typed.specs.Size.{size as program_size};
    ghost use Rattle.vcp_typed.specs.SourceRun.{Program};
    ghost use Rattle.vcp_typed.specs.TStmtViews.{tstmt_trees};

    ghost Value = { Program };

    ghost coded = { program_code };

    ghost view = { λ t. record { slots = t.slots.items.items; body = tstmt_trees t.body.items.items } };

    ghost invariant = { λ t.
        IsChecked (record { slots = t.slots.items.items; body = tstmt_trees t.body.items.items })
        × (t.size ≡ program_size (record { slots = t.slots.items.items; body = tstmt_trees t.body.items.items })) };
}

impl Typed {
    /// The checked program of these slots and this body, which keep the rules of one. It takes no memory.
    pub fn new(slots: Slots, body: TStmts) -> Typed
        requires { IsChecked (record { slots = slots.items.items; body = tstmt_trees body.items.items }) }
        ensures { result ≡ record { slots = slots.items.items; body = tstmt_trees body.items.items } }
    {
        let size = size_of(&slots, &body);
        Typed { slots, body, size }
    }

    /// The variables, in order of declaration.
    pub fn slots(&self) -> &Slots
        ensures slots { result.now.items.items ≡ self.now.slots }
        ensures checked { IsChecked self.now }
    {
        &self.slots
    }

    /// The variables, in order of declaration, where the rest of the program isn't needed any more.
    pub fn into_slots(self) -> Slots
        ensures { result.items.items ≡ self.slots }
    {
        let Typed {
            slots,
            body: _,
            size: _,
        } = self;
        slots
    }

    /// The statements.
    pub fn body(&self) -> &TStmts
        ensures body { tstmt_trees result.now.items.items ≡ self.now.body }
        ensures checked { IsChecked self.now }
    {
        &self.body
    }

    /// The names and types of the inputs, in order of declaration; `Memory` where there is no room for them.
    pub fn columns(&self, alloc: Global) -> Result<Columns, Memory>
        ensures { IfOk result (λ columns. columns ≡ input_columns self.now.slots) }
    {
        columns_of(alloc, &self.slots.items, Section::Input)
    }

    /// The names and types of the outputs, in order of declaration; `Memory` where there is no room for them.
    pub fn output_columns(&self, alloc: Global) -> Result<Columns, Memory>
        ensures { IfOk result (λ columns. columns ≡ output_columns_of self.now.slots) }
    {
        columns_of(alloc, &self.slots.items, Section::Output)
    }

    /// Whether a slot or a node has the type LINT, so that the program's words need the wide code.
    pub fn wide(&self) -> bool
        ensures { result ≡ wide self.now }
    {
        measured(&self.slots, &self.body).wide
    }

    /// The Size of the program: the most operations that it is flattened to. At most 65,536.
    pub fn size(&self) -> u32
        ensures size { result ≡ size self.now }
        ensures checked { IsChecked self.now }
    {
        self.size
    }
}

/// The columns of the inputs, or of the outputs, among the slots.
fn columns_of(alloc: Global, slots: &[Slot], wanted: Section) -> Result<Columns, Memory>
    ensures { IfOk result (λ columns. columns ≡ columns_in wanted slots.now) }
{
    let mut columns = Columns::new(alloc);
    'each: for slot in slots {
        match add_column(alloc, &mut columns, slot, wanted) {
            Ok(()) => {}
            Err(Memory) => return Err(Memory),
        }
    }
    Ok(columns)
}

/// Appends the slot's column where the slot is an input, or an output.
fn add_column(
    alloc: Global,
    columns: &mut Columns,
    slot: &Slot,
    wanted: Section,
) -> Result<(), Memory>
    ensures { OnOk result (columns.new ≡ columns.old ++ columns_in wanted (slot.now ∷ [])) }
{
    match (wanted, slot.section) {
        (Section::Input, Section::Input) | (Section::Output, Section::Output) => {
            let Ok(name) = Text::copy_of(alloc, slot.name.bytes()) else {
                return Err(Memory);
            };
            columns.push(Column { name, ty: slot.ty })
        }
        _ => Ok(()),
    }
}
