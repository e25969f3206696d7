//! The lines of a cover.

ghost use Rattle.std.specs.Prelude.{◌≡◌, ◌<◌, ◌≤◌, ◌^◌, ◌++◌, Some, codes, decimal, flat_map, length, replicate};
ghost use Rattle.vcp_outside.specs.Pens.{Goes};
ghost use Rattle.verdict_tables.specs.SumText.{delay_text};
ghost use Rattle.fault_cover.specs.Classes.{fault_at};
ghost use Rattle.fault_cover.specs.CoverText.{back as back_of, class_name as class_name_of, classes_in, classes_name as classes_name_of, column_text};
ghost use Rattle.fault_cover.specs.CoverText.{columns_text};
ghost use Rattle.fault_cover.specs.CoverText.{front as front_of, heading_text, place_text, refused_only, remark, row_text, shows_text};
ghost use Rattle.fault_cover.specs.CoverText.{single_text, sum_of, totals_line};
ghost use Rattle.fault_cover.specs.Leftovers.{effect_text, line_text};

use crate::class::{CoverClass, CoverClasses};
use crate::disturbance::Disturbance;
use crate::effect::Effect;
use crate::faults::Listener;
use crate::items::item;
use crate::left::{LeftEffect, LeftLine};
use crate::tally::Tally;
use fault_sites::{then_rest, verb};
use itoa::Buffer;
use op_graph::Graph;
use run_report::variable_name;
use vcp_base::{Kind, same_bytes};
use vcp_outside::Pen;
use verdict_tables::{then_delay, then_operation};

/// The word that names a class.
fn class_name(class: CoverClass) -> &'static [u8]
    ensures { result.now ≡ class_name_of class }
{
    match class {
        CoverClass::Add => b"add",
        CoverClass::Rest => b"rest",
        CoverClass::Stale => b"stale",
        CoverClass::Skip => b"skip",
        CoverClass::From => b"from",
        CoverClass::Late => b"late",
        CoverClass::Operator => b"operator",
    }
}

/// The word that names one class, or all.
pub fn classes_name(classes: CoverClasses) -> &'static [u8]
    ensures { result.now ≡ classes_name_of classes }
{
    match classes {
        CoverClasses::One(class) => class_name(class),
        CoverClasses::All => b"all",
    }
}

/// The classes that a word names.
pub fn classes_named(word: &[u8]) -> Option<CoverClasses>
    ensures { result ≡ classes_in word.now }
{
    if same_bytes(word, b"add") {
        return Some(CoverClasses::One(CoverClass::Add));
    }
    if same_bytes(word, b"rest") {
        return Some(CoverClasses::One(CoverClass::Rest));
    }
    if same_bytes(word, b"stale") {
        return Some(CoverClasses::One(CoverClass::Stale));
    }
    if same_bytes(word, b"skip") {
        return Some(CoverClasses::One(CoverClass::Skip));
    }
    if same_bytes(word, b"from") {
        return Some(CoverClasses::One(CoverClass::From));
    }
    if same_bytes(word, b"late") {
        return Some(CoverClasses::One(CoverClass::Late));
    }
    if same_bytes(word, b"operator") {
        return Some(CoverClasses::One(CoverClass::Operator));
    }
    if same_bytes(word, b"all") {
        return Some(CoverClasses::All);
    }
    None
}

/// How many digits a number has.
fn digits_in(n: u64) -> usize
    ensures { result ≡ length (decimal n) }
{
    Buffer::new().format(n).len()
}

/// So many blanks.
fn blanks(count: usize) -> &'static [u8]
    requires { count ≤ 12 }
    ensures { result.now ≡ replicate count 32 }
{
    let all: &'static [u8] = b"            ";
    &all[..count]
}

/// Goes on with a number at the right end of a column of twelve.
fn then_column<P: Pen>(pen: P, n: u64) -> P
    ensures { Goes (P.seen pen) (P.seen result) (column_text n) }
{
    let width: usize = 12;
    pen.numbered(blanks(width.saturating_sub(digits_in(n))), n)
}

/// Goes on with the columns of a tally, and two blanks.
fn then_columns<P: Pen>(pen: P, tally: &Tally) -> P
    ensures { sum_of tally.now < 2 ^ 63 → Goes (P.seen pen) (P.seen result) (columns_text tally.now ++ codes "  ") }
{
    let pen = then_column(pen, tally.sum());
    let pen = then_column(pen, tally.refused);
    let pen = then_column(pen, tally.nothing);
    let pen = then_column(pen, tally.shows);
    let pen = then_column(pen, tally.runs_on);
    then_column(pen, tally.beyond).text(b"  ")
}

/// Goes on with the row of a class, where it has a fault.
pub(crate) fn then_class_row<P: Pen>(pen: P, class: CoverClass, tally: &Tally) -> P
    ensures { sum_of tally.now < 2 ^ 63 → Goes (P.seen pen) (P.seen result) (row_text (class_name_of class) tally.now) }
{
    if tally.sum() == 0 {
        return pen;
    }
    then_columns(pen, tally).texts(class_name(class), b"\n")
}

/// Goes on with the row of a number of cycles, where any fault is refused so late.
pub(crate) fn then_delay_row<P: Pen>(pen: P, n: u32, refused: u64) -> P
    ensures { refused < 2 ^ 63 → Goes (P.seen pen) (P.seen result) (row_text (delay_text n) (refused_only refused)) }
{
    let tally = Tally::refused_only(refused);
    if refused == 0 {
        return pen;
    }
    let pen = then_columns(pen, &tally);
    then_delay(pen, n).text(b"\n")
}

/// Goes on with the names of the columns, and what the rows are about.
pub(crate) fn then_heading<P: Pen>(pen: P, about: &[u8]) -> P
    ensures { Goes (P.seen pen) (P.seen result) (heading_text about.now) }
{
    pen.texts(
        b"      faults     refused     nothing       shows     runs-on      beyond  ",
        about,
    )
    .text(b"\n")
}

/// Goes on with the totals, without the LF.
pub(crate) fn then_totals<P: Pen>(pen: P, tally: &Tally) -> P
    ensures { sum_of tally.now < 2 ^ 63 → Goes (P.seen pen) (P.seen result) (totals_line tally.now) }
{
    pen.numbered(b"faults ", tally.sum())
        .numbered(b" refused ", tally.refused)
        .numbered(b" nothing ", tally.nothing)
        .numbered(b" shows ", tally.shows)
        .numbered(b" runs-on ", tally.runs_on)
        .numbered(b" beyond ", tally.beyond)
}

/// The first word of a fault, and a space.
fn front(disturbance: &Disturbance) -> &'static [u8]
    ensures { result.now ≡ front_of disturbance.now }
{
    match *disturbance {
        Disturbance::AddToResult => b"result ",
        Disturbance::AddToOperand { j: _ } | Disturbance::Late { j: _, r: _ } => b"operand ",
        Disturbance::AddToRest { right: _ } => b"rest ",
        Disturbance::Does(act) => verb(&act),
    }
}

/// Goes on with what is behind the operation of a fault.
fn then_back<P: Pen>(pen: P, disturbance: &Disturbance) -> P
    ensures { Goes (P.seen pen) (P.seen result) (back_of disturbance.now) }
{
    match *disturbance {
        Disturbance::AddToResult => pen.text(b" add any"),
        Disturbance::AddToOperand { j: n } | Disturbance::AddToRest { right: n } => {
            pen.numbered(b" ", n as u64).text(b" add any")
        }
        Disturbance::Late { j, r } => { pen.numbered(b" ", j as u64).numbered(b" late ", r as u64) }
        Disturbance::Does(act) => then_rest(pen, &act),
    }
}

/// Goes on with a fault at operation `k`, as a script spells it but for its cycle, and with the operation.
fn then_fault<P: Pen>(pen: P, graph: &Graph, k: u32, disturbance: &Disturbance) -> P
    ensures { Goes (P.seen pen) (P.seen result) (codes ": " ++ (single_text (fault_at k disturbance.now)
        ++ (codes ": " ++ (place_text graph.now k ++ codes "\n")))) }
{
    let pen = pen
        .texts(b": ", front(disturbance))
        .numbered(b"N ", k as u64);
    let pen = then_back(pen, disturbance).text(b": ");
    then_operation(pen, graph, k).text(b"\n")
}

/// A line for each fault that shows, written with a pen.
pub(crate) struct Showing<P> {
    pub(crate) pen: P,
}

impl<P: Pen> Listener for Showing<P> {
    ghost Keeps = { λ g start showing heard. Goes (P.seen start.pen) (P.seen showing.pen) (flat_map (λ h. shows_text g h.fault h.told) heard) };

    fn hear(self, graph: &Graph, k: u32, disturbance: &Disturbance, told: &Effect) -> Self {
        if let Effect::Shows { borders, output } = told {
            let Showing { pen } = self;
            let name = variable_name(graph, Kind::Out, *output as u64);
            let pen = pen.numbered(b"shows ", *borders as u64).texts(b" ", name);
            Showing {
                pen: then_fault(pen, graph, k, disturbance),
            }
        } else {
            self
        }
    }
}

/// Goes on with what is reported of the faults of a line.
fn then_left_effect<P: Pen>(pen: P, told: LeftEffect) -> P
    ensures { Goes (P.seen pen) (P.seen result) (effect_text told) }
{
    match told {
        LeftEffect::RunsOn { borders, op } => {
            pen.numbered(b"runs-on ", borders).numbered(b" ", op)
        }
        LeftEffect::Beyond => pen.text(b"beyond"),
    }
}

/// Goes on with a line of an operation whose faults run on or are beyond.
fn then_left_line<P: Pen>(pen: P, graph: &Graph, left: &LeftLine) -> P
    ensures { Goes (P.seen pen) (P.seen result) (line_text graph.now left.now) }
{
    let pen = then_left_effect(pen, left.told)
        .numbered(b": faults ", left.faults)
        .text(b" of ");
    then_operation(pen, graph, left.at).text(b"\n")
}

/// Goes on with the lines of the operations whose faults run on or are beyond.
pub(crate) fn then_left<P: Pen>(mut pen: P, graph: &Graph, lines: &[LeftLine]) -> P
    ensures { Goes (P.seen pen) (P.seen result) (flat_map (line_text graph.now) lines.now) }
{
    'lines: for i in 0..lines.len() {
        let left = item(lines, i);
        pen = then_left_line(pen, graph, &left);
    }
    pen
}

/// Goes on with the remark that names the classes, the horizon and the image.
pub(crate) fn then_remark<P: Pen>(pen: P, classes: CoverClasses, horizon: u32, digest: &[u8]) -> P
    ensures { Goes (P.seen pen) (P.seen result) (remark classes horizon digest.now) }
{
    pen.texts(b"# cover ", classes_name(classes))
        .numbered(b" ", horizon as u64)
        .texts(b" of ", digest)
        .text(b"\n")
}
