//! The stretches of a column, in which its value changes by the same amount with each cycle, or doesn't.

ghost use Rattle.std.specs.Prelude.{◌≡◌, ◌<◌, ◌≤◌, length};
ghost use Rattle.std.specs.Ordering.{int_eq};
ghost use Rattle.pictures.specs.WavesDrawn.{is_bit as is_bit_of, is_level as is_level_of, change_at, step_of, end_of, stretch_of};

use crate::waves::run::Run;

/// A stretch of a column.
#[derive(Clone, Copy)]
pub(crate) struct Stretch {
    /// The column, counted from 0.
    pub(crate) column: u32,
    /// The first cycle, counted from 0.
    pub(crate) start: u32,
    /// The cycle behind the last one.
    pub(crate) end: u32,
    /// The value of the first cycle.
    pub(crate) first: i64,
    /// The value of the last cycle. Where it is another one, the value changes by the same amount with each cycle.
    pub(crate) last: i64,
    /// Whether all values of the column are 0 or 1.
    pub(crate) is_level: bool,
}

// Whether a value is 0 or 1.
fn is_bit(value: i64) -> bool
    ensures { result ≡ is_bit_of value }
{
    value == 0 || value == 1
}

/// Whether all values of a column are 0 or 1.
pub(crate) fn is_level(run: &Run, column: u32) -> bool
    requires { column < length run.now.names }
    ensures { result ≡ is_level_of run.now column }
{
    let mut bits = true;
    'cycles: for cycle in 0..run.cycles() {
        bits = bits && is_bit(run.value(column, cycle));
    }
    bits
}

// By how much the value of a cycle is greater than that of the cycle before.
fn change(run: &Run, column: u32, cycle: u32) -> i128
    requires column { column < length run.now.names }
    requires some { 0 < cycle }
    requires cycle { cycle < length run.now.rows }
    ensures value { result ≡ change_at run.now column cycle }
{
    run.value(column, cycle) as i128 - run.value(column, cycle - 1) as i128
}

// By how much the value changes with each cycle from this one on.
fn step(run: &Run, column: u32, cycle: u32) -> i128
    requires column { column < length run.now.names }
    requires cycle { cycle < length run.now.rows }
    ensures { result ≡ step_of run.now column cycle }
{
    let cycles = run.cycles();
    if cycle + 2 < cycles {
        let next = change(run, column, cycle + 1);
        let behind = change(run, column, cycle + 2);
        if next == behind {
            return next;
        }
    }
    0
}

// Whether the value of a cycle changes by the step of the stretch that starts there.
fn follows(run: &Run, column: u32, start: u32, cycle: u32) -> bool
    requires column { column < length run.now.names }
    requires start { start < cycle }
    requires cycle { cycle < length run.now.rows }
    ensures { result ≡ int_eq (change_at run.now column cycle) (step_of run.now column start) }
{
    change(run, column, cycle) == step(run, column, start)
}

// The cycle behind the stretch that starts here.
fn end(run: &Run, column: u32, start: u32) -> u32
    requires column { column < length run.now.names }
    requires cycle { start < length run.now.rows }
    ensures end { result ≡ end_of run.now column start }
    ensures some { start < result }
    ensures within { result ≤ length run.now.rows }
{
    let cycles = run.cycles();
    'cycles: for cycle in start + 1..cycles {
        if !follows(run, column, start, cycle) {
            return cycle;
        }
    }
    cycles
}

/// The stretch that starts in a cycle, in a column whose values are all 0 or 1 or aren't.
pub(crate) fn stretch_from(run: &Run, column: u32, start: u32, is_level: bool) -> Stretch
    requires column { column < length run.now.names }
    requires cycle { start < length run.now.rows }
    requires level { is_level ≡ is_level_of run.now column }
    ensures stretch { result ≡ stretch_of run.now column start }
    ensures begins { result.start ≡ start }
    ensures some { start < result.end }
{
    let end = end(run, column, start);
    Stretch {
        column,
        start,
        end,
        first: run.value(column, start),
        last: run.value(column, end - 1),
        is_level,
    }
}
