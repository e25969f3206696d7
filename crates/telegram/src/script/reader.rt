//! The script of a text.

ghost use Rattle.std.specs.Prelude.{◌≡◌, ◌≢◌, ◌≤◌, ◌+◌, length, Ok, Err, IfOk, IfErr};
ghost use Rattle.std.specs.List.{list_any};
ghost use Rattle.std.specs.Str.Lines.{lines};
ghost use Rattle.vcp_base.specs.Limits.{most_source_bytes};
ghost use Rattle.vcp_base.specs.Lines.{read_lines};
ghost use Rattle.telegram.specs.WireRun.{AreEvents, IsWire};
ghost use Rattle.telegram.specs.ScriptOf.{AreSent, ScriptFits, events_of, is_head, script_of};
ghost use Rattle.telegram.specs.declared.script.wire_fault.WireFault.TheVariants as refusal;

use crate::Wire;
use crate::script::events::Events;
use crate::script::head::{head, names_wire};
use crate::script::lines::event;
use crate::script::script::WireScript;
use crate::script::wire_fault::WireFault;
use std::alloc::Global;
use vcp_base::{Memory, first_read};

// Whether a line of a text has `wire` as its first word.
#[tactic(auto, using(crate::proofs::Heads::head_here, crate::proofs::Heads::no_head_here, crate::proofs::Heads::no_head_left))]
fn has_head(bytes: &[u8]) -> bool
    requires { length bytes.now ≤ most_source_bytes }
    ensures { result ≡ list_any is_head (read_lines 1 (lines bytes.now)) }
{
    let mut rest = bytes;
    let mut number = 0;
    'lines: while let Some((at, line, more)) = first_read(rest, number) {
        if names_wire(line) {
            return true;
        }
        number = at;
        rest = more;
    }
    false
}

// The events of the lines of a text before which so many lines stand.
#[tactic(auto, using(crate::proofs::Reading::nothing_read, crate::proofs::Reading::one_event, crate::proofs::Reading::refused_line, crate::proofs::Reading::all_read, crate::proofs::Reading::none_read, crate::proofs::Reading::one_read))]
fn events(alloc: Global, wire: &Wire, bytes: &[u8], before: u32) -> Result<Events, WireFault>
    requires wire { IsWire wire.now }
    requires short { before + length bytes.now ≤ most_source_bytes }
    ensures events { IfOk result (λ es. events_of wire.now 0 (read_lines (before + 1) (lines bytes.now)) ≡ Ok es) }
    ensures refusal { IfErr result (λ f. f ≢ refusal.Memory → events_of wire.now 0 (read_lines (before + 1) (lines bytes.now)) ≡ Err f) }
    ensures fits { IfOk result (AreEvents wire.now) }
    ensures sent { IfOk result (AreSent 0) }
{
    let mut events = Events::new(alloc);
    let mut rest = bytes;
    let mut number = before;
    let mut begun = 0;
    'lines: while let Some((at, line, more)) = first_read(rest, number) {
        let event = match event(alloc, wire, begun, at, line) {
            Ok(event) => event,
            Err(fault) => return Err(fault),
        };
        begun += event.cycles();
        match events.push(event) {
            Ok(()) => {}
            Err(Memory) => return Err(WireFault::Memory),
        }
        number = at;
        rest = more;
    }
    Ok(events)
}

/// The script of a text of at most 1,048,576 bytes, or its first refused line. `Memory` where there is no
/// room for it.
///
/// A text in which no line has `wire` as its first word is refused at line 1. A line is refused as `Form`,
/// `Range` or `Unsent`, in this order.
///
/// A script's wire has 1 to 16 senders, the heard one among them, an age below 1,000,000, and a seed and a
/// step in their ranges. In each cycle each sender has a value, a DINT; there are at most 1,000,000 cycles. A
/// telegram that is handed is of one of the senders and of a cycle that has begun before, and what is added
/// to its word is at most 2^62 in size.
#[tactic(auto, using(crate::proofs::Reading::head_fails, crate::proofs::Reading::said, crate::proofs::Reading::nothing_said, crate::proofs::Reading::with_head, crate::proofs::Reading::without_head))]
pub fn read_wire(alloc: Global, bytes: &[u8]) -> Result<WireScript, WireFault>
    requires { length bytes.now ≤ most_source_bytes }
    ensures script { IfOk result (λ script. script_of bytes.now ≡ Ok script) }
    ensures refusal { IfErr result (λ f. f ≢ refusal.Memory → script_of bytes.now ≡ Err f) }
    ensures fits { IfOk result ScriptFits }
{
    if !has_head(bytes) {
        return Err(WireFault::Form { line: 1 });
    }
    let Some((number, line, more)) = first_read(bytes, 0) else {
        return Err(WireFault::Form { line: 1 });
    };
    let wire = match head(alloc, number, line) {
        Ok(wire) => wire,
        Err(fault) => return Err(fault),
    };
    match events(alloc, &wire, more, number) {
        Ok(events) => Ok(WireScript { wire, events }),
        Err(fault) => Err(fault),
    }
}
