//! The values of a run, drawn in lanes, stretch by stretch.

ghost use Rattle.std.specs.Prelude.{◌≡◌, ◌<◌, ◌≤◌, ◌+◌, [], ◌∷◌, length, flat_map, cond};
ghost use Rattle.vcp_outside.specs.Pens.{Goes};
ghost use Rattle.vcp_outside.specs.Elements.{element_text};
ghost use Rattle.pictures.specs.WavesDrawn.{lane, lanes};
ghost use Rattle.pictures.specs.WavesElements.{top_of, level_of, rises as rises_of, holds as holds_of, level_element, number_element, ramp_element};
ghost use Rattle.pictures.specs.WavesElements.{value_element, edge_elements, last_element, label_elements, stretch_elements};

use crate::waves::layout::{Layout, start, top};
use crate::waves::run::Run;
use crate::waves::shapes::{then_line, then_slope, then_text};
use crate::waves::stretches::{Stretch, is_level, stretch_from};
use vcp_outside::{Name, Pen, Piece, Tag, then_element};

// The height at which a level is drawn.
fn level(value: i64) -> u64
    ensures value { result ≡ level_of value }
    ensures low { result ≤ 30 }
{
    if value == 0 { 30 } else { 8 }
}

// Draws a level.
fn then_level<P: Pen>(pen: P, layout: Layout, stretch: Stretch) -> P
    ensures { Goes (P.seen pen) (P.seen result)
        (element_text (level_element layout stretch)) }
{
    let height = top(stretch.column) + level(stretch.first);
    then_slope(
        pen,
        layout,
        stretch,
        b"level",
        height,
        height,
        &[Piece::Value(stretch.first)],
    )
}

// Draws a number that holds.
fn then_number<P: Pen>(pen: P, layout: Layout, stretch: Stretch) -> P
    requires { stretch.start < stretch.end }
    ensures { Goes (P.seen pen) (P.seen result)
        (element_text (number_element layout stretch)) }
{
    let width = (stretch.end - stretch.start) as u64 * layout.cell as u64;
    then_element(
        pen,
        Tag::Rect,
        &[
            (Name::Column, Piece::Count(stretch.column as u64)),
            (Name::Cycle, Piece::Count(stretch.start as u64)),
            (Name::Class, Piece::Bytes(b"number")),
            (Name::X, Piece::Count(start(layout, stretch.start))),
            (Name::Y, Piece::Count(top(stretch.column) + 8)),
            (Name::Width, Piece::Count(width)),
            (Name::Height, Piece::Count(22)),
        ],
        &[Piece::Value(stretch.first)],
    )
}

// Whether the value holds.
fn holds(stretch: Stretch) -> bool
    ensures { result ≡ holds_of stretch }
{
    stretch.first == stretch.last
}

// The distance from above, this far below the column's upper side where a stretch rises, else that far.
fn height_by(stretch: Stretch, rising: u32, other: u32) -> u64
    ensures { result ≡ top_of stretch.column + cond (rises_of stretch) rising other }
{
    if stretch.first < stretch.last {
        top(stretch.column) + rising as u64
    } else {
        top(stretch.column) + other as u64
    }
}

// Draws a ramp.
fn then_ramp<P: Pen>(pen: P, layout: Layout, stretch: Stretch) -> P
    ensures { Goes (P.seen pen) (P.seen result)
        (element_text (ramp_element layout stretch)) }
{
    let from = height_by(stretch, 30, 8);
    let to = height_by(stretch, 8, 30);
    then_slope(
        pen,
        layout,
        stretch,
        b"ramp",
        from,
        to,
        &[
            Piece::Value(stretch.first),
            Piece::Bytes(b" to "),
            Piece::Value(stretch.last),
        ],
    )
}

// Draws the values of a stretch.
fn then_value<P: Pen>(pen: P, layout: Layout, stretch: Stretch) -> P
    requires { stretch.start < stretch.end }
    ensures { Goes (P.seen pen) (P.seen result)
        (element_text (value_element layout stretch)) }
{
    if stretch.is_level {
        then_level(pen, layout, stretch)
    } else if holds(stretch) {
        then_number(pen, layout, stretch)
    } else {
        then_ramp(pen, layout, stretch)
    }
}

// Draws the edge before a stretch, where it stands behind another one.
fn then_edge<P: Pen>(pen: P, layout: Layout, stretch: Stretch) -> P
    ensures { Goes (P.seen pen) (P.seen result)
        (flat_map element_text (edge_elements layout stretch)) }
{
    if 0 < stretch.start {
        let x = start(layout, stretch.start);
        let y = top(stretch.column);
        then_line(pen, b"edge", x, y + 8, x, y + 30)
    } else {
        pen
    }
}

// The distance from above of a stretch's first value.
fn first_height(stretch: Stretch) -> u64
    ensures { result ≡ top_of stretch.column + cond (holds_of stretch) 23 (cond (rises_of stretch) 17 30) }
{
    if holds(stretch) {
        top(stretch.column) + 23
    } else {
        height_by(stretch, 17, 30)
    }
}

// Writes the last value of a stretch, where the value doesn't hold.
fn then_last<P: Pen>(pen: P, layout: Layout, stretch: Stretch) -> P
    ensures { Goes (P.seen pen) (P.seen result)
        (flat_map element_text (cond (holds_of stretch) [] (last_element layout stretch ∷ []))) }
{
    if !holds(stretch) {
        let x = start(layout, stretch.end).saturating_sub(4);
        let y = height_by(stretch, 30, 17);
        then_text(pen, b"last", x, y, &[Piece::Value(stretch.last)])
    } else {
        pen
    }
}

// Writes the values at the ends of a stretch that is no level.
fn then_labels<P: Pen>(pen: P, layout: Layout, stretch: Stretch) -> P
    ensures { Goes (P.seen pen) (P.seen result)
        (flat_map element_text (label_elements layout stretch)) }
{
    if !stretch.is_level {
        let x = start(layout, stretch.start) + 4;
        let y = first_height(stretch);
        let pen = then_text(pen, b"first", x, y, &[Piece::Value(stretch.first)]);
        then_last(pen, layout, stretch)
    } else {
        pen
    }
}

// Draws the stretches of a column, each with its values and its edge.
fn then_lane<P: Pen>(mut pen: P, layout: Layout, run: &Run, column: u32) -> P
    requires { column < length run.now.names }
    ensures { Goes (P.seen pen) (P.seen result)
        (flat_map element_text (flat_map (stretch_elements layout) (lane run.now column))) }
{
    let is_level = is_level(run, column);
    let mut at = 0;
    'stretches: while at < run.cycles() {
        let stretch = stretch_from(run, column, at, is_level);
        pen = then_value(pen, layout, stretch);
        pen = then_edge(pen, layout, stretch);
        pen = then_labels(pen, layout, stretch);
        at = stretch.end;
    }
    pen
}

/// Draws the values of a run, column by column.
pub(crate) fn then_lanes<P: Pen>(mut pen: P, layout: Layout, run: &Run) -> P
    ensures { Goes (P.seen pen) (P.seen result)
        (flat_map element_text (flat_map (stretch_elements layout) (lanes run.now))) }
{
    'columns: for column in 0..run.columns() {
        pen = then_lane(pen, layout, run, column);
    }
    pen
}
