//! The lines behind the first.

ghost use Rattle.std.specs.Prelude.{◌≡◌, ◌≢◌, ◌≤◌, ◌<◌, Some, Ok, Err, IfOk, IfErr};
ghost use Rattle.std.specs.List.{list_all};
ghost use Rattle.vcp_base.specs.Limits.{most_cycles};
ghost use Rattle.vcp_base.specs.Types.{fits as fits_of};
ghost use Rattle.vcp_base.specs.declared.ty.Ty.TheVariants as ty;
ghost use Rattle.vcp_base.specs.Words.{words as words_of};
ghost use Rattle.telegram.specs.WireRun.{IsWire};
ghost use Rattle.telegram.specs.Forms.{cycle_of, delivery_if as delivery_if_of, delivery_of, event_of};
ghost use Rattle.telegram.specs.Reads.{EventFits};
ghost use Rattle.telegram.specs.declared.script.wire_fault.WireFault.TheVariants as refusal;

use crate::script::numbers::{number_below, numbers};
use crate::script::wire_fault::WireFault;
use crate::{Event, Wire};
use std::alloc::Global;
use vcp_base::{Row, Ty, WordsLeft, fits, is_addend, same_bytes};

// Whether each of these values is a DINT.
#[tactic(auto, using(crate::proofs::LinesFit::next_fits, crate::proofs::LinesFit::all_fit))]
fn are_dints(values: &Row) -> bool
    ensures { result ≡ list_all (fits_of ty.Dint) values.now }
{
    'values: for i in 0..values.len() {
        if !fits(Ty::Dint, values.at(i) as i128) {
            return false;
        }
    }
    true
}

// The cycle of a line with these values.
fn cycle(wire: &Wire, line: u32, values: Row) -> Result<Event, WireFault>
    ensures { result ≡ cycle_of wire.now line (Some values) }
{
    if values.len() != wire.senders as usize || !are_dints(&values) {
        return Err(WireFault::Range { line });
    }
    Ok(Event::Cycle { values })
}

// The delivery of three numbers.
fn delivery_if(
    wire: &Wire,
    begun: u32,
    line: u32,
    id: i64,
    number: i64,
    alter: i64,
) -> Result<Event, WireFault>
    ensures { result ≡ delivery_if_of wire.now begun line id number alter }
{
    if !is_addend(alter) {
        return Err(WireFault::Range { line });
    }
    let Some(id) = number_below(wire.senders, id) else {
        return Err(WireFault::Unsent { line });
    };
    let Some(number) = number_below(begun, number) else {
        return Err(WireFault::Unsent { line });
    };
    Ok(Event::Deliver {
        line,
        id,
        number,
        alter,
    })
}

// The delivery of a line with these numbers.
#[tactic(auto, using(crate::proofs::LinesFit::three, crate::proofs::LinesFit::not_three, crate::proofs::LinesFit::delivery_if_fits))]
fn delivery(wire: &Wire, begun: u32, line: u32, numbers: &Row) -> Result<Event, WireFault>
    ensures event { result ≡ delivery_of wire.now begun line (Some numbers.now) }
    ensures fits { IfOk result (EventFits wire.now begun) }
{
    if numbers.len() != 3 {
        return Err(WireFault::Form { line });
    }
    delivery_if(
        wire,
        begun,
        line,
        numbers.at(0),
        numbers.at(1),
        numbers.at(2),
    )
}

/// The event of a line of this number, after so many cycles.
pub fn event(
    alloc: Global,
    wire: &Wire,
    begun: u32,
    line: u32,
    text: &[u8],
) -> Result<Event, WireFault>
    ensures event { IfOk result (λ e. event_of wire.now begun line (words_of text.now) ≡ Ok e) }
    ensures refusal { IfErr result (λ f. f ≢ refusal.Memory → event_of wire.now begun line (words_of text.now) ≡ Err f) }
    ensures fits { IfOk result (EventFits wire.now begun) }
{
    let mut words = WordsLeft::new(text);
    let Some(verb) = words.next() else {
        return Err(WireFault::Form { line });
    };
    if same_bytes(verb, b"cycle") {
        return match numbers(alloc, line, &mut words) {
            Ok(values) => cycle(wire, line, values),
            Err(fault) => Err(fault),
        };
    }
    if same_bytes(verb, b"deliver") {
        return match numbers(alloc, line, &mut words) {
            Ok(numbers) => delivery(wire, begun, line, &numbers),
            Err(fault) => Err(fault),
        };
    }
    Err(WireFault::Form { line })
}
