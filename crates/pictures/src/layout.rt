//! Where the boxes of operations are.

ghost use Rattle.std.specs.Prelude.{◌≡◌, ◌<◌, ◌^◌, IfOk};
ghost use Rattle.pictures.specs.Arrangement.{left_of, top_of, place_at, IsArranged};

use crate::columns::depths_of;
use crate::rows::{corner, places_by};
use op_graph::Graph;
use std::alloc::Global;
use std::marker::Model;
use vcp_base::Memory;

/// The place of a box: its column from the left and its row from above, counted from 0.
#[derive(Clone, Copy)]
pub struct BoxPlace {
    /// The column.
    pub column: u32,
    /// The row.
    pub row: u32,
}

/// The distance of a box from the left, in pixels.
pub(crate) fn left(place: BoxPlace) -> u64
    ensures value { result ≡ left_of place }
    ensures few { result < 2 ^ 41 }
{
    8 + place.column as u64 * 108
}

/// The distance of a box from above, in pixels.
pub(crate) fn top(place: BoxPlace) -> u64
    ensures value { result ≡ top_of place }
    ensures few { result < 2 ^ 41 }
{
    40 + place.row as u64 * 58
}

/// The places of the boxes of a graph's operations, in order, and the size of the picture in pixels.
#[derive(Drop)]
pub struct GraphLayout {
    places: Vec<BoxPlace>,
    width: u64,
    height: u64,
}

impl Model for GraphLayout {
    ghost use Rattle.pictures.specs.Arrangement.{Arrangement};

    ghost Value = { Arrangement };

    ghost view = { λ l. record { places = l.places.items; width = l.width; height = l.height } };
}

impl GraphLayout {
    /// The place of the box of operation `n`; the first one where there is no such operation.
    pub(crate) fn place(&self, n: u32) -> BoxPlace
        ensures { result ≡ place_at self.now.places n }
    {
        match self.places.get(n as usize) {
            Some(place) => *place,
            None => BoxPlace { column: 0, row: 0 },
        }
    }

    /// The width of the picture.
    pub(crate) fn width(&self) -> u64
        ensures { result ≡ self.now.width }
    {
        self.width
    }

    /// The height of the picture.
    pub(crate) fn height(&self) -> u64
        ensures { result ≡ self.now.height }
    {
        self.height
    }
}

/// The least width in which the legend has room.
const LEGEND_WIDTH: u64 = 980;

/// The places of the boxes of a graph's operations: in columns by depth, what leaves the cycle in the last one; in the row of the
/// first operand that is no constant, or below it where boxes of the column are there. Each is inside the picture, but those of constants, which are drawn
/// in others; and no two of a column overlap. The time is linear in the number of operations.
pub fn layout_of(alloc: Global, graph: &Graph) -> Result<GraphLayout, Memory>
    ensures { IfOk result (IsArranged graph.now) }
{
    let depths = depths_of(alloc, graph)?;
    let places = places_by(alloc, graph, depths.as_slice())?;
    let end = corner(graph, places.as_slice());
    Ok(GraphLayout {
        places,
        width: (left(end) + 104).max(LEGEND_WIDTH),
        height: top(end) + 58,
    })
}
