//! The lines of an audit. Each call writes one line to a sink and takes no memory. It answers `Failed`
//! only where the sink's count of faults rose, and then a part of the line is written.

ghost use Rattle.vcp_outside.specs.Written.{WritesTo};
ghost use Rattle.weight_audit.specs.AuditLines.{reached_text, blind_text};

use vcp_base::{Kind, Text, kind_name};
use vcp_outside::{Failed, LinePen, Pen, Sink, begin};

/// Writes, for an output and a number of cycle borders, from how many operations a data path leads to the
/// output across exactly these borders, and how many of these operations are blind: the differences that are
/// made there cancel on their paths. After `Failed` a part of the line is written. That comes only where the
/// sink's count rose. It takes no memory.
pub fn reached_line<O: Sink>(
    out: &mut O,
    name: &Text,
    after: u32,
    reached: u32,
    blind: u32,
) -> Result<(), Failed>
    ensures { WritesTo (O.seen out.old) (O.seen out.new) (reached_text name.now after reached blind) result }
{
    LinePen::new(out)
        .text(name.bytes())
        .numbered(b" ", after as u64)
        .numbered(b" reached ", reached as u64)
        .numbered(b" blind ", blind as u64)
        .end()
}

/// Writes an operation that is blind, with its kind. After `Failed` a part of the line is written. That comes
/// only where the sink's count rose. It takes no memory.
pub fn blind_line<O: Sink>(out: &mut O, op: u32, kind: Kind) -> Result<(), Failed>
    ensures { WritesTo (O.seen out.old) (O.seen out.new) (blind_text op kind) result }
{
    begin(out, b"blind ", op).texts(b" ", kind_name(kind)).end()
}
