//! Where cycles are in a picture. Each has the same width, in which the texts of each stretch have room.

ghost use Rattle.std.specs.Fmt.{signed_decimal};
ghost use Rattle.std.specs.List.{AllByRecursion, concat};
ghost use Rattle.std.specs.Prelude.{◌≡◌, ◌≤◌, ◌<◌, ◌+◌, ◌*◌, ◌^◌, ℕ, IfSome, decimal, length};
ghost use Rattle.vcp_base.specs.Limits.{most_cycles};
ghost use Rattle.pictures.specs.WavesDrawn.{lane, lanes};
ghost use Rattle.pictures.specs.WavesElements.{start_of, top_of, character, text_width as text_width_of, need_of, HasRoom, HaveRoom};
ghost use Rattle.pictures.specs.Times.{time_pieces};

use crate::waves::run::Run;
use crate::waves::stretches::{Stretch, is_level, stretch_from};
use crate::waves::times::{Period, digits_of, time_characters};
use itoa::Buffer;

/// Where cycles are in a picture, in pixels.
#[derive(Clone, Copy)]
pub struct Layout {
    /// The distance of the first cycle's begin from the left.
    pub left: u16,
    /// The width of a cycle.
    pub cell: u16,
    /// The width behind the last cycle.
    pub room: u16,
    /// How many cycles stand from one marked one to the next.
    pub every: u32,
    /// How many cycles stand from one place where the names stand to the next.
    pub page: u32,
}

/// The width of a character, in pixels.
const CHARACTER: u16 = 7;

/// The most pixels from one place where the names stand to the next.
const PAGE: u32 = 1000;

// The width in which so many characters have room; of more than this, as many.
fn width_of(characters: usize, most: u16) -> u16
    requires { most ≤ 1000 }
    ensures few { result ≤ 7000 }
    ensures room { characters ≤ most → result ≡ characters * character }
{
    if characters < most as usize {
        characters as u16 * CHARACTER
    } else {
        most * CHARACTER
    }
}

// The most characters that the name of a column has.
fn longest_name(run: &Run) -> usize {
    let mut longest = 0;
    'columns: for column in 0..run.columns() {
        longest = run.name(column).len().max(longest);
    }
    longest
}

// How many characters a value has.
fn characters_of(value: i64) -> usize
    ensures text { result ≡ length (signed_decimal value) }
    ensures few { result ≤ 20 }
{
    Buffer::new().format(value).len()
}

// The width of a text of so many characters, and of the 4 pixels before it.
fn text_width(characters: usize) -> u32
    requires { characters ≤ 30 }
    ensures { result ≡ 4 + characters * character }
{
    4 + characters as u32 * CHARACTER as u32
}

// The width of the texts of a stretch.
fn need(stretch: Stretch) -> u32
    ensures need { result ≡ need_of stretch }
    ensures few { result ≤ 288 }
{
    if stretch.is_level {
        return 0;
    }
    let first = text_width(characters_of(stretch.first));
    if stretch.first == stretch.last {
        return first;
    }
    first + text_width(characters_of(stretch.last))
}

// A width of a cycle in which the texts of a stretch have room.
fn cell_for(stretch: Stretch) -> u32
    requires { stretch.start < stretch.end }
    ensures room { HasRoom result stretch }
    ensures few { result ≤ 289 }
{
    let need = need(stretch);
    need / (stretch.end - stretch.start) + 1
}

// A width of a cycle in which the texts of a column have room.
fn widest_in(run: &Run, column: u32) -> u32
    requires { column < length run.now.names }
    ensures room { (cell : ℕ) → result ≤ cell → AllByRecursion (HasRoom cell) (lane run.now column) }
    ensures few { result ≤ 289 }
{
    let is_level = is_level(run, column);
    let mut widest = 0;
    let mut at = 0;
    'stretches: while at < run.cycles() {
        let stretch = stretch_from(run, column, at, is_level);
        let here = cell_for(stretch);
        widest = here.max(widest);
        at = stretch.end;
    }
    widest
}

// A width of a cycle in which all texts have room.
fn widest(run: &Run) -> u32
    ensures room { (cell : ℕ) → result ≤ cell → AllByRecursion (HasRoom cell) (lanes run.now) }
    ensures few { result ≤ 289 }
{
    let mut widest = 0;
    'columns: for column in 0..run.columns() {
        let here = widest_in(run, column);
        widest = here.max(widest);
    }
    widest
}

/// The width of a picture that is not to be much wider, in pixels.
const WIDTH: u32 = 940;

// The width of a cycle that is wanted where so many are drawn: wide where there are few of them.
fn wanted(cycles: u32) -> u32
    ensures some { 4 ≤ result }
    ensures few { result ≤ 26 }
{
    if cycles <= WIDTH / 26 {
        return 26;
    }
    if WIDTH / 4 <= cycles {
        return 4;
    }
    (WIDTH / cycles).clamp(4, 26)
}

// A round number of cycles, no fewer than this.
fn round(cycles: u32) -> u32
    requires { cycles ≤ 100 }
    ensures { cycles ≤ result }
{
    match cycles {
        0..=1 => 1,
        2 => 2,
        3..=5 => 5,
        6..=10 => 10,
        11..=20 => 20,
        21..=50 => 50,
        _ => 100,
    }
}

// A number of characters that no number and no time of so many cycles passes.
fn longest_mark(cycles: u32, period: Option<Period>) -> usize
    requires { cycles ≤ most_cycles }
    ensures numbers { length (decimal cycles) ≤ result }
    ensures times { IfSome period (λ p. (cycle : ℕ) → cycle < cycles → length (concat (time_pieces p cycle)) ≤ result) }
    ensures few { result ≤ 30 }
{
    let digits = digits_of(cycles as u64);
    match period {
        Some(period) => time_characters(period, cycles).max(digits),
        None => digits,
    }
}

// How many cycles stand from one mark to the next, so that the number and the time of each of so many have room.
fn every(cycles: u32, cell: u32, period: Option<Period>) -> u32
    requires cycles { cycles ≤ most_cycles }
    requires cell { 4 ≤ cell }
    ensures some { 0 < result }
    ensures numbers { (cycle : ℕ) → cycle < cycles → text_width_of (decimal cycle) ≤ result * cell }
    ensures times { IfSome period (λ p. (cycle : ℕ) → cycle < cycles → text_width_of (concat (time_pieces p cycle)) ≤ result * cell) }
{
    let wide = text_width(longest_mark(cycles, period));
    round(wide / cell + 1)
}

/// A layout in which values and numbers and times of cycles have room, and names and the last line, as far as they are not too long.
pub(crate) fn layout_for(run: &Run, period: Option<Period>) -> Layout
    ensures room { HaveRoom run.now period result }
    ensures every { 0 < result.every }
    ensures page { 0 < result.page }
{
    let cycles = run.cycles();
    let widest = widest(run);
    let cell = widest.max(wanted(cycles));
    Layout {
        left: 16 + width_of(longest_name(run), 60),
        cell: cell as u16,
        room: 16 + width_of(run.ending().text.len(), 200),
        every: every(cycles, cell, period),
        page: PAGE / cell,
    }
}

/// The distance of a cycle's begin from the left.
pub(crate) fn start(layout: Layout, cycle: u32) -> u64
    ensures begin { result ≡ start_of layout cycle }
    ensures low { result < 2 ^ 49 }
{
    layout.left as u64 + cycle as u64 * layout.cell as u64
}

/// The distance of a column's upper side from above.
pub(crate) fn top(column: u32) -> u64
    ensures { result ≡ top_of column }
{
    48 + column as u64 * 44
}
