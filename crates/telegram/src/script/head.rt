//! The first line of a script.

ghost use Rattle.std.specs.Prelude.{◌≡◌, ◌≢◌, Some, Ok, Err, IfOk, IfErr, IfSome};
ghost use Rattle.vcp_base.specs.Words.{words as words_of};
ghost use Rattle.telegram.specs.WireRun.{IsWire};
ghost use Rattle.telegram.specs.Forms.{wire_with as wire_with_of, wire_of, head_of, names_wire as names_wire_of};
ghost use Rattle.telegram.specs.declared.script.wire_fault.WireFault.TheVariants as refusal;

use crate::Wire;
use crate::script::numbers::{number_below, number_between, numbers};
use crate::script::wire_fault::WireFault;
use std::alloc::Global;
use vcp_base::{MOST_CYCLES, MOST_STEP, Row, SEEDS, WordsLeft, same_bytes};

/// How many senders a wire has at most.
const MOST_SENDERS: u32 = 16;

// The wire of five numbers, where each is in its range.
fn wire_with(senders: i64, listen: i64, age: i64, seed: i64, step: i64) -> Option<Wire>
    ensures wire { result ≡ wire_with_of senders listen age seed step }
    ensures fits { IfSome result IsWire }
{
    let Some(senders) = number_between(1, MOST_SENDERS, senders) else {
        return None;
    };
    let Some(listen) = number_below(senders, listen) else {
        return None;
    };
    let Some(age) = number_below(MOST_CYCLES, age) else {
        return None;
    };
    let Some(seed) = number_below(SEEDS, seed) else {
        return None;
    };
    let Some(step) = number_between(1, MOST_STEP as u32, step) else {
        return None;
    };
    Some(Wire {
        senders,
        listen,
        age,
        seed,
        step: step as u16,
    })
}

// The wire of these numbers.
#[tactic(auto, using(crate::proofs::Heads::not_five))]
fn wire(line: u32, numbers: &Row) -> Result<Wire, WireFault>
    ensures wire { result ≡ wire_of line (Some numbers.now) }
    ensures fits { IfOk result IsWire }
{
    if numbers.len() != 5 {
        return Err(WireFault::Form { line });
    }
    let wire = wire_with(
        numbers.at(0),
        numbers.at(1),
        numbers.at(2),
        numbers.at(3),
        numbers.at(4),
    );
    match wire {
        Some(wire) => Ok(wire),
        None => Err(WireFault::Range { line }),
    }
}

/// The wire of a line of this number.
pub fn head(alloc: Global, line: u32, text: &[u8]) -> Result<Wire, WireFault>
    ensures wire { IfOk result (λ w. head_of line (words_of text.now) ≡ Ok w) }
    ensures refusal { IfErr result (λ f. f ≢ refusal.Memory → head_of line (words_of text.now) ≡ Err f) }
    ensures fits { IfOk result IsWire }
{
    let mut words = WordsLeft::new(text);
    let Some(verb) = words.next() else {
        return Err(WireFault::Form { line });
    };
    if !same_bytes(verb, b"wire") {
        return Err(WireFault::Form { line });
    }
    match numbers(alloc, line, &mut words) {
        Ok(numbers) => wire(line, &numbers),
        Err(fault) => Err(fault),
    }
}

/// Whether the first word of a line is `wire`.
pub fn names_wire(text: &[u8]) -> bool
    ensures { result ≡ names_wire_of (words_of text.now) }
{
    match WordsLeft::new(text).next() {
        None => false,
        Some(verb) => same_bytes(verb, b"wire"),
    }
}
