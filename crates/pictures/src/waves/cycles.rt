//! The cycles, the names, the base lines and the end of a picture.

ghost use Rattle.std.specs.Prelude.{◌≡◌, ◌<◌, length, flat_map};
ghost use Rattle.vcp_outside.specs.Pens.{Goes};
ghost use Rattle.vcp_outside.specs.Elements.{element_text};
ghost use Rattle.vcp_base.specs.Limits.{most_cycles};
ghost use Rattle.pictures.specs.WavesElements.{time_elements, mark_elements};
ghost use Rattle.pictures.specs.WavesElements.{cycle_elements, cycles_elements, names_elements, bases_elements};
ghost use Rattle.pictures.specs.WavesElements.{class_of as class_of_mark, ending_elements};

use crate::waves::ending::Mark;
use crate::waves::layout::{Layout, start, top};
use crate::waves::run::Run;
use crate::waves::shapes::{then_line, then_text, then_words};
use crate::waves::stretches::is_level;
use crate::waves::times::{Period, drawn_in, thousandths};
use vcp_outside::{Name, Pen, Piece, Tag, then_element};

// Writes when a cycle begins, where it is known how long one takes.
fn then_time<P: Pen>(pen: P, layout: Layout, columns: u32, period: Option<Period>, cycle: u32) -> P
    requires { cycle < most_cycles }
    ensures { Goes (P.seen pen) (P.seen result)
        (flat_map element_text (time_elements layout columns period cycle)) }
{
    if let Some(period) = period {
        let time = thousandths(period, cycle);
        then_text(
            pen,
            b"time",
            start(layout, cycle) + 4,
            top(columns) + 28,
            &[
                Piece::Count(time / 1000),
                Piece::Bytes(b"."),
                Piece::Count(time % 1000 / 100),
                Piece::Count(time % 100 / 10),
                Piece::Count(time % 10),
                Piece::Bytes(drawn_in(period.unit)),
            ],
        )
    } else {
        pen
    }
}

// Marks a cycle by its begin, its number and its time, where it is the first of as many as stand between two marks.
fn then_marked<P: Pen>(
    pen: P,
    layout: Layout,
    columns: u32,
    period: Option<Period>,
    cycle: u32,
) -> P
    requires every { 0 < layout.every }
    requires cycle { cycle < most_cycles }
    ensures { Goes (P.seen pen) (P.seen result)
        (flat_map element_text (mark_elements layout columns period cycle)) }
{
    if cycle % layout.every == 0 {
        let x = start(layout, cycle);
        let y = top(columns);
        let pen = then_line(pen, b"cycle", x, 48, x, y);
        let pen = then_words(pen, x + 4, y + 14, Piece::Count(cycle as u64));
        then_time(pen, layout, columns, period, cycle)
    } else {
        pen
    }
}

// Draws what stands at a cycle; where a page begins behind the first one, the names again.
fn then_cycle<P: Pen>(pen: P, layout: Layout, run: &Run, period: Option<Period>, cycle: u32) -> P
    requires every { 0 < layout.every }
    requires page { 0 < layout.page }
    requires cycle { cycle < most_cycles }
    ensures { Goes (P.seen pen) (P.seen result)
        (flat_map element_text (cycle_elements layout run.now period cycle)) }
{
    let pen = then_marked(pen, layout, run.columns(), period, cycle);
    if 0 < cycle && cycle % layout.page == 0 {
        then_names(pen, run, b"again", start(layout, cycle) + 4, 4)
    } else {
        pen
    }
}

/// Draws the cycles of a run, with their times where it is known how long a cycle takes.
pub(crate) fn then_cycles<P: Pen>(
    mut pen: P,
    layout: Layout,
    run: &Run,
    period: Option<Period>,
) -> P
    requires every { 0 < layout.every }
    requires page { 0 < layout.page }
    ensures { Goes (P.seen pen) (P.seen result)
        (flat_map element_text (cycles_elements layout run.now period (length run.now.rows))) }
{
    'cycles: for cycle in 0..run.cycles() {
        pen = then_cycle(pen, layout, run, period, cycle);
    }
    pen
}

/// Writes the names of the columns in a class, so far from the left and below the columns' upper sides.
pub(crate) fn then_names<P: Pen>(mut pen: P, run: &Run, class: &[u8], x: u64, y: u32) -> P
    ensures { Goes (P.seen pen) (P.seen result)
        (flat_map element_text (names_elements run.now class.now x y (length run.now.names))) }
{
    'columns: for column in 0..run.columns() {
        pen = then_element(
            pen,
            Tag::Text,
            &[
                (Name::Column, Piece::Count(column as u64)),
                (Name::Class, Piece::Bytes(class)),
                (Name::X, Piece::Count(x)),
                (Name::Y, Piece::Count(top(column) + y as u64)),
            ],
            &[Piece::Bytes(run.name(column).bytes())],
        );
    }
    pen
}

/// Draws the base lines of the columns of levels.
pub(crate) fn then_bases<P: Pen>(mut pen: P, layout: Layout, run: &Run) -> P
    ensures { Goes (P.seen pen) (P.seen result)
        (flat_map element_text (bases_elements layout run.now (length run.now.names))) }
{
    'columns: for column in 0..run.columns() {
        if !is_level(run, column) {
            continue;
        }
        let y = top(column) + 30;
        let end = start(layout, run.cycles());
        pen = then_line(pen, b"base", start(layout, 0), y, end, y);
    }
    pen
}

// The class of an end.
fn class_of(mark: Mark) -> &'static [u8]
    ensures { result.now ≡ class_of_mark mark }
{
    match mark {
        Mark::Ended => b"ended",
        Mark::Stopped => b"stopped",
        Mark::Refused => b"refused",
    }
}

/// Draws the end of a run: a line, and the words of the last line.
pub(crate) fn then_ending<P: Pen>(pen: P, layout: Layout, run: &Run) -> P
    ensures { Goes (P.seen pen) (P.seen result)
        (flat_map element_text (ending_elements layout (length run.now.names) (length run.now.rows) run.now.ending)) }
{
    let x = start(layout, run.cycles());
    let y = top(run.columns());
    let ending = run.ending();
    let pen = then_line(pen, class_of(ending.mark), x, 24, x, y);
    then_words(pen, x + 4, 34, Piece::Bytes(ending.text.bytes()))
}
