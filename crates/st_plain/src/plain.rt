//! The evaluator of a checked program, cycle by cycle.

ghost use Rattle.std.specs.Prelude.{◌≡◌, ◌≤◌, [], None, Some, Ok, Err, IfOk, IfErr, IfSome, OnOk, OnErr, length, vec_capacity};
ghost use Rattle.vcp_base.specs.Types.{AreIn};
ghost use Rattle.vcp_base.specs.declared.kind.StopKind.TheVariants as why;
ghost use Rattle.vcp_typed.specs.Fitting.{AreFit, input_types, output_types};
ghost use Rattle.vcp_typed.specs.Size.{stmts_size};
ghost use Rattle.vcp_typed.specs.SourceRun.{outputs, cycle as cycle_of};
ghost use Rattle.st_plain.specs.Evaluator.{started, comes_to, turns_of, within_turns};
ghost use Rattle.st_plain.specs.Outcomes.{left};

use crate::slots::{initial_values, set_inputs, set_outputs};
use crate::stmt::{Working, do_stmts};
use crate::stop::Stop;
use std::alloc::Global;
use std::marker::Model;
use std::mem;
use vcp_base::{Memory, Row, Turns};
use vcp_typed::{Typed, causes_of_stops, values_fit};

/// The evaluator of a checked program on plain values. After a stop it gives that stop for good.
pub struct Plain<'p> {
    program: &'p Typed,
    /// The values of all slots between two cycles.
    values: Row,
    /// What the next cycle works on.
    working: Working,
    /// The stop that was met, and the turns round it.
    stop: Option<Stop>,
    turns: Turns,
    alloc: Global,
}

impl Drop for Plain<'_> {
    fn drop(self) {
        let Plain {
            program: _,
            values: _,
            working: _,
            stop: _,
            turns: _,
            alloc: _,
        } = self;
    }
}

impl<'p> Model for Plain<'p> {
    ghost use Rattle.std.specs.Prelude.{vec_capacity};
    ghost use Rattle.st_plain.specs.Evaluator.{Evaluator};
    ghost use Rattle.st_plain.specs.Codes.{evaluator_code};
    ghost use Rattle.st_plain.specs.Standing.{Standing, stop_in};

    ghost Value = { Evaluator };

    ghost coded = { evaluator_code };

    ghost view = { λ p. record { program = p.program.now; values = p.values; stop = stop_in p.stop p.turns } };

    ghost invariant = { λ p. Standing p.program.now p.values p.working.values p.stop p.turns p.working.turns.items (vec_capacity p.working.turns) };
}

impl<'p> Plain<'p> {
    /// The evaluator of a program before its first cycle, with the room that all cycles need; `Memory`
    /// where there is none.
    pub fn new(alloc: Global, program: &'p Typed) -> Result<Plain<'p>, Memory>
        ensures { IfOk result (λ p. p ≡ started program.now) }
    {
        let slots = program.slots();
        values_fit();
        let values = initial_values(alloc, &slots.items)?;
        let working = Working {
            values: Row::zeros(alloc, slots.len() as u32)?,
            // FORs nest no deeper than the Size
            turns: Vec::with_capacity(alloc, program.size() as usize)?,
        };
        Ok(Plain {
            program,
            values,
            working,
            stop: None,
            turns: Turns::new(alloc),
            alloc,
        })
    }

    /// Does the next cycle: sets the inputs to the values of the row, in order of declaration, each one
    /// of its type, does the body, and sets `out`, which has a cell for each output, to the values of
    /// the outputs. It takes no memory.
    ///
    /// A division by 0 or a value outside its type stops the cycle. Then `out` and the values of all
    /// variables are as before, and each later call gives the same stop. The values and the stop are those of
    /// the meaning; the stop has its kind, place and turns, and its kind is never OPERAND.
    pub fn cycle(&mut self, row: &Row, out: &mut Row) -> Result<(), Stop>
        requires row { AreIn (input_types self.old.program.slots) row.now }
        requires cells { length out.old ≡ length (output_types self.old.program.slots) }
        ensures program { self.new.program ≡ self.old.program }
        ensures values { OnOk result (comes_to self.old row.now ≡ Ok self.new.values) }
        ensures outputs { OnOk result (out.new ≡ outputs self.old.program.slots self.new.values) }
        ensures going { OnOk result (self.new.stop ≡ None) }
        ensures stop { IfErr result (λ s. comes_to self.old row.now ≡ Err (within_turns (turns_of self.new.stop) s)) }
        ensures kept { IfErr result (λ s. self.new.stop ≡ Some (within_turns (turns_of self.new.stop) s)) }
        ensures again { IfSome self.old.stop (λ s. (left [] s.turns result ≡ Err s) × (self.new ≡ self.old) × (out.new ≡ out.old)) }
        ensures cause { IfErr result (λ s. s.kind ≡ why.Operand → ⊥) }
        ensures cells { length out.new ≡ length out.old }
        ensures out_stays { OnErr result (out.new ≡ out.old) }
        ensures values_stay { OnErr result (self.new.values ≡ self.old.values) }
    {
        causes_of_stops();
        if let Some(stop) = self.stop {
            return Err(stop);
        }
        match run_cycle(self.program, row, &self.values, &mut self.working) {
            Ok(()) => {
                mem::swap(&mut self.values, &mut self.working.values);
                set_outputs(&self.program.slots().items, &self.values, out);
                Ok(())
            }
            Err(stop) => {
                let turns = mem::replace(&mut self.working.turns, Vec::new(self.alloc));
                self.turns = Turns::from_vec(turns);
                self.stop = Some(stop);
                Err(stop)
            }
        }
    }

    /// The turns round the stop that was met, outermost first; none before a stop. The name of a turn
    /// is the number of its control variable among the slots.
    pub fn turns(&self) -> &Turns
        ensures { result.now ≡ turns_of self.now.stop }
    {
        &self.turns
    }
}

/// Does a cycle on values of its own, from those before it.
fn run_cycle(program: &Typed, row: &Row, before: &Row, working: &mut Working) -> Result<(), Stop>
    requires row { AreIn (input_types program.now.slots) row.now }
    requires fit { AreFit program.now.slots before.now }
    requires places { length working.old.values ≡ length before.now }
    requires room { stmts_size program.now.body ≤ vec_capacity working.old.turns }
    requires outside { working.old.turns.items ≡ [] }
    ensures done { left working.new.values working.new.turns.items result ≡ cycle_of program.now before.now row.now }
    ensures fit { OnOk result (AreFit program.now.slots working.new.values) }
    ensures outside { OnOk result (working.new.turns.items ≡ []) }
    ensures capacity { vec_capacity working.new.turns ≡ vec_capacity working.old.turns }
{
    values_fit();
    let slots = program.slots();
    set_inputs(&slots.items, row, before, &mut working.values);
    do_stmts(&program.body().items, working)
}
