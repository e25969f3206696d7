//! The timing diagram of a run.

ghost use Rattle.std.specs.Prelude.{◌≡◌, ◌≤◌, ℕ, List};
ghost use Rattle.vcp_outside.specs.Written.{WritesTo};
ghost use Rattle.pictures.specs.WavesElements.{height_below as height_below_of, IsPictureOf};

use crate::waves::cycles::{then_bases, then_cycles, then_ending, then_names};
use crate::waves::lanes::then_lanes;
use crate::waves::layout::{layout_for, start, top};
use crate::waves::run::Run;
use crate::waves::times::Period;
use vcp_outside::{Failed, Piece, Sink, Tag, begin_picture, end_picture, then_element};

/// The rules of style of the picture.
const STYLE: &[u8] =
    b"text{font:11px monospace}.level,.edge,.ramp{stroke:#000;stroke-width:2}.base{stroke:#999}.number{fill:#dde8f4}.last{text-anchor:end}.again,.time{fill:#666}.cycle{stroke:#ccc}.ended{stroke:#000}.stopped,.refused{stroke:#d00;stroke-width:3}";

// The height below the columns.
fn height_below(period: Option<Period>) -> u64
    ensures height { result ≡ height_below_of period }
    ensures low { result ≤ 38 }
{
    match period {
        Some(_) => 38,
        None => 24,
    }
}

/// Writes the timing diagram of a run: each value once, in its column and its cycle, columns of 0 and 1 as levels over
/// a base line, a number as a box where it holds, and as a ramp where it changes by the same amount three times or more;
/// the columns' names, at the left and again at each page's width; the cycles, as far as their numbers have room, and when they
/// begin where it is known how long one takes; and the end, with the words of the last line. It takes no memory. After `Failed` a
/// part of the picture is written. The layout is free; each cycle is as wide as the values need.
pub fn write_waves<O: Sink>(out: &mut O, run: &Run, period: Option<Period>) -> Result<(), Failed>
    ensures { (text : List ℕ) × IsPictureOf run.now period text
        × WritesTo (O.seen out.old) (O.seen out.new) text result }
{
    let layout = layout_for(run, period);
    let width = start(layout, run.cycles()) + layout.room as u64;
    let height = top(run.columns()) + height_below(period);
    let pen = begin_picture(out, width, height);
    let pen = then_element(pen, Tag::Style, &[], &[Piece::Bytes(STYLE)]);
    let pen = then_cycles(pen, layout, run, period);
    let pen = then_names(pen, run, b"name", 8, 23);
    let pen = then_bases(pen, layout, run);
    let pen = then_lanes(pen, layout, run);
    let pen = then_ending(pen, layout, run);
    end_picture(pen)
}
