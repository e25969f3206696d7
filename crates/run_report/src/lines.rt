//! The lines of a run. Each call writes one line to a sink and takes no memory. It answers `Failed`
//! only where the sink's count of faults rose, and then a part of the line is written.

ghost use Rattle.std.specs.Prelude.{◌≡◌, ◌<◌, ◌≤◌, ◌+◌, ℤ, Some, Ok, true, length, slice_get, map, flat_map};
ghost use Rattle.std.specs.Fmt.{signed_decimal};
ghost use Rattle.vcp_base.specs.Stops.{told_stop, told_turn};
ghost use Rattle.vcp_outside.specs.Written.{WritesTo};
ghost use Rattle.vcp_outside.specs.Gathering.{GathersTo, EndsAt};
ghost use Rattle.vcp_outside.specs.Pens.{penned, HasWritten, Goes};
ghost use Rattle.run_report.specs.Lines.{header_text, row_text, end_text, cause_text, stop_front, stop_text, refused_front, refused_text, place_text};
ghost use Rattle.run_report.specs.Lines.{turn_text, name_cell, value_cell, AreNamed};

use vcp_base::{Columns, Residue, Row, Spot, StopKind, Text, Turns, Words, stop_name};
use vcp_outside::{Failed, Line, LinePen, Pen, ROOM, Sink, begin};

/// Writes the header of a run: `cycle`, and the outputs' names as declared. After `Failed` a part of the line
/// is written. So is every other line of this crate: exactly that line is written, or, where the sink's count
/// rose, a proper part of it. No call takes memory.
pub fn header_line<O: Sink>(out: &mut O, names: &Columns) -> Result<(), Failed>
    ensures { WritesTo (O.seen out.old) (O.seen out.new) (header_text (map (λ c. c.name) names.now)) result }
{
    then_names(LinePen::new(out).text(b"cycle"), names).end()
}

// Goes on with names, each after a comma.
fn then_names<P: Pen>(mut pen: P, names: &Columns) -> P
    ensures { Goes (P.seen pen) (P.seen result) (flat_map name_cell (map (λ c. c.name) names.now)) }
{
    'names: for i in 0..names.len() {
        pen = pen.texts(b",", names.at(i).name.bytes());
    }
    pen
}

/// Writes the values of the outputs in a cycle, which is counted from 0. After `Failed` a part of the
/// line is written.
pub fn row_line<O: Sink>(out: &mut O, cycle: u32, row: &Row) -> Result<(), Failed>
    ensures { WritesTo (O.seen out.old) (O.seen out.new) (row_text cycle row.now) result }
{
    let mut line = Line::new();
    line.count(out, cycle as u64);
    if !line.has_count(0, cycle as u64) {
        return Err(Failed);
    }
    let mut told = 0;
    'cells: for i in 0..row.len() {
        let at = line.pending();
        told = then_cell(&mut line, out, row, i, told)?;
        if !has_cell(&line, at, row, i) {
            return Err(Failed);
        }
    }
    if !are_all(row, told) {
        return Err(Failed);
    }
    line.end(out)
}

// Goes on with the value at a place of a row, and answers how many values are told then. They are counted apart from the
// places, in a function of its own, since a compiler makes one of two counters that go together. The two never differ, says
// the proof; where the processor erred, they may, and then the line fails as one that can't be written.
#[inline(never)]
fn then_cell<O: Sink>(
    line: &mut Line,
    out: &mut O,
    row: &Row,
    i: usize,
    told: usize,
) -> Result<usize, Failed>
    requires place { i < length row.now }
    requires told { told ≡ i }
    ensures gathers { (value : ℤ) → slice_get row.now i ≡ Some value → GathersTo (O.seen out.old) (O.seen out.new) line.old line.new (value_cell value) }
    ensures told { result ≡ Ok (i + 1) }
    ensures digits { (value : ℤ) → slice_get row.now i ≡ Some value → length line.old.pending + 1 + length (signed_decimal value) ≤ ROOM
        → EndsAt line.new.pending (length line.old.pending + 1) (signed_decimal value) }
{
    if told != i || i >= row.len() {
        return Err(Failed);
    }
    line.mark(out, b',');
    line.value(out, row.at(i));
    Ok(told + 1)
}

// Whether the digits of the value at a place of a row, which is looked at anew, are behind a place of a line and a comma. They are,
// says the proof; where the processor erred, they may not be.
#[inline(never)]
fn has_cell(line: &Line, at: usize, row: &Row, i: usize) -> bool
    requires place { i < length row.now }
    requires digits { (value : ℤ) → slice_get row.now i ≡ Some value → at + 1 + length (signed_decimal value) ≤ ROOM
        → EndsAt line.now.pending (at + 1) (signed_decimal value) }
    ensures { result ≡ true }
{
    if at >= ROOM {
        return true;
    }
    i < row.len() && line.has_value(at + 1, row.at(i))
}

// Whether so many values are all of a row, whose length is looked at anew.
#[inline(never)]
fn are_all(row: &Row, told: usize) -> bool
    ensures { told ≡ length row.now → result ≡ true }
{
    told == row.len()
}

/// Writes the end of a run over all its rows, with their number. After `Failed` a part of the line is
/// written.
pub fn end_line<O: Sink>(out: &mut O, cycles: u32) -> Result<(), Failed>
    ensures { WritesTo (O.seen out.old) (O.seen out.new) (end_text cycles) result }
{
    begin(out, b"end ", cycles).end()
}

// Goes on with a place in a source.
pub(crate) fn then_place<P: Pen>(pen: P, spot: Spot) -> P
    ensures { Goes (P.seen pen) (P.seen result) (place_text spot) }
{
    pen.count(spot.line as u64).numbered(b":", spot.col as u64)
}

/// Goes on with why a run stopped, and the place in the source.
pub fn then_cause<P: Pen>(pen: P, kind: StopKind, spot: Spot) -> P
    ensures { Goes (P.seen pen) (P.seen result) (cause_text kind spot) }
{
    let pen = pen.texts(stop_name(kind), b" ");
    then_place(pen, spot)
}

// A line that tells a stop up to its turns.
pub(crate) fn begin_stop<'o, O: Sink>(
    out: &'o mut O,
    cycle: u32,
    kind: StopKind,
    spot: Spot,
) -> LinePen<'o, O>
    ensures { HasWritten (O.seen out.old) out.entry.ghost_name (stop_front cycle kind spot)
        (penned (O.seen result.out.now) result.line result.out.ghost_name) }
{
    let pen = begin(out, b"stop ", cycle).text(b" ");
    then_cause(pen, kind, spot)
}

// Goes on with a turn: the name of its control variable, and that variable's value.
pub(crate) fn then_turn<P: Pen>(pen: P, name: &Text, value: i64) -> P
    ensures { Goes (P.seen pen) (P.seen result)
        (turn_text (record { name = name.now; value = value })) }
{
    pen.texts(b" ", name.bytes()).text(b"=").value(value)
}

// Goes on with the turns round a place, outermost first.
fn then_turns<P: Pen>(mut pen: P, turns: &Turns, names: &Words) -> P
    requires { AreNamed turns.now names.now }
    ensures { Goes (P.seen pen) (P.seen result)
        (flat_map turn_text (map (told_turn names.now) turns.now)) }
{
    'turns: for i in 0..turns.len() {
        let turn = turns.at(i);
        pen = then_turn(pen, names.at(turn.name as usize), turn.value);
    }
    pen
}

/// Writes a stop in a cycle, which is counted from 0: its kind, its place in the source and the turns
/// round it, outermost first. The name of each turn is a place in `names`, from 0. After `Failed` a
/// part of the line is written.
pub fn stop_line<O: Sink>(
    out: &mut O,
    cycle: u32,
    kind: StopKind,
    spot: Spot,
    turns: &Turns,
    names: &Words,
) -> Result<(), Failed>
    requires { AreNamed turns.now names.now }
    ensures { WritesTo (O.seen out.old) (O.seen out.new)
        (stop_text cycle (told_stop names.now kind spot turns.now)) result }
{
    let pen = begin_stop(out, cycle, kind, spot);
    then_turns(pen, turns, names).end()
}

/// Goes on with an output that is refused in a cycle, which is counted from 0, the residue that was found
/// and the expected one.
pub fn then_refused<P: Pen>(pen: P, cycle: u32, name: &Text, found: Residue, expected: Residue) -> P
    ensures { Goes (P.seen pen) (P.seen result)
        (refused_front cycle name.now found expected) }
{
    pen.numbered(b"refused ", cycle as u64)
        .texts(b" ", name.bytes())
        .numbered(b" found ", found)
        .numbered(b" expected ", expected)
}

/// Writes that an output is refused in a cycle, which is counted from 0, with the residue that was
/// found and the expected one. After `Failed` a part of the line is written.
pub fn refused_line<O: Sink>(
    out: &mut O,
    cycle: u32,
    name: &Text,
    found: Residue,
    expected: Residue,
) -> Result<(), Failed>
    ensures { WritesTo (O.seen out.old) (O.seen out.new) (refused_text cycle name.now found expected) result }
{
    then_refused(LinePen::new(out), cycle, name, found, expected).end()
}
