//! The lines of a run over a wire. Each call writes one line to a sink and takes no memory. It answers
//! `Failed` only where the sink's count of faults rose, and then a part of the line is written.

ghost use Rattle.vcp_outside.specs.Written.{WritesTo};
ghost use Rattle.vcp_outside.specs.Pens.{Goes};
ghost use Rattle.telegram.specs.WireLines.{receipt_text, receipt_line as receipt_line_of, wire_end_text, unsent_text};

use crate::Receipt;
use vcp_outside::{Failed, Pen, Sink, begin};

// Goes on with what the receiver answered to a telegram of this number.
fn then_receipt<P: Pen>(pen: P, number: u32, receipt: &Receipt) -> P
    ensures { Goes (P.seen pen) (P.seen result) (receipt_text number receipt.now) }
{
    match *receipt {
        Receipt::Delivered { value } => {
            pen.numbered(b"delivered ", number as u64)
                .signed(b" ", value)
        }
        Receipt::Early { begun } => pen.numbered(b"early ", begun as u64),
        Receipt::Stray { found, expected } => {
            pen.numbered(b"stray found ", found)
                .numbered(b" expected ", expected)
        }
        Receipt::Order { last } => pen.numbered(b"order last ", last as u64),
        Receipt::Age { cycle } => pen.numbered(b"age ", cycle as u64),
        Receipt::Value => pen.text(b"value"),
    }
}

/// Writes what the receiver answered to a telegram of this number, after the number of the script's line.
pub fn receipt_line<O: Sink>(
    out: &mut O,
    line: u32,
    number: u32,
    receipt: &Receipt,
) -> Result<(), Failed>
    ensures { WritesTo (O.seen out.old) (O.seen out.new) (receipt_line_of line number receipt.now) result }
{
    let pen = begin(out, b"", line).text(b" ");
    then_receipt(pen, number, receipt).end()
}

/// Writes how many cycles there were, and how many telegrams were delivered.
pub fn end_line<O: Sink>(out: &mut O, cycles: u32, delivered: u64) -> Result<(), Failed>
    ensures { WritesTo (O.seen out.old) (O.seen out.new) (wire_end_text cycles delivered) result }
{
    begin(out, b"end ", cycles)
        .numbered(b" delivered ", delivered)
        .end()
}

/// Writes which sender sent nothing in a cycle, as the unit answered no word.
pub fn unsent_line<O: Sink>(out: &mut O, cycle: u32, id: u32) -> Result<(), Failed>
    ensures { WritesTo (O.seen out.old) (O.seen out.new) (unsent_text cycle id) result }
{
    begin(out, b"unsent ", cycle)
        .numbered(b" ", id as u64)
        .end()
}
