//! The loop over the events of a script.

ghost use Rattle.std.specs.Prelude.{◌≡◌, ◌≢◌, ◌≤◌, ◌<◌, ◌+◌, ◌*◌, [], Some, Err, IfOk, length, slice_get, vec_len, vec_capacity};
ghost use Rattle.vcp_base.specs.Limits.{most_cycles};
ghost use Rattle.telegram.specs.Sendings.{most_senders};
ghost use Rattle.telegram.specs.WireRun.{sent_in};
ghost use Rattle.telegram.specs.ScriptOf.{ScriptFits};
ghost use Rattle.telegram.specs.Runs.{RunsWire, one_of};
ghost use Rattle.telegram.specs.declared.runs.wire_end.WireRunFault.TheVariants as fault;

use crate::runs::lines::{end_line, receipt_line, unsent_line};
use crate::runs::sends::send_all;
use crate::runs::wire_end::{WireEnd, WireRunFault};
use crate::{Event, Events, Receipt, Receiver, Telegram, WireScript, receipts_follow_the_equation};
use coded_unit::{Unit, Word};
use std::alloc::Global;
use vcp_base::Memory;
use vcp_outside::{Failed, Sink};

// How many cycles there are.
fn cycles_of(events: &Events) -> usize
    ensures { result ≡ length (sent_in events.now) }
{
    let mut cycles = 0;
    'events: for i in 0..events.len() {
        cycles += events.at(i).cycles() as usize;
    }
    cycles
}

// Room for the words of all senders in so many cycles.
fn room(alloc: Global, senders: u32, cycles: usize) -> Result<Vec<Word>, Memory>
    requires senders { senders ≤ most_senders }
    requires cycles { cycles ≤ most_cycles }
    ensures empty { IfOk result (λ words. words.items ≡ []) }
    ensures room { IfOk result (λ words. vec_capacity words ≡ cycles * senders) }
{
    Ok(Vec::with_capacity(alloc, cycles * senders as usize)?)
}

// The word of a sender in a cycle, among all that are kept.
fn word_at(words: &[Word], senders: u32, number: u32, id: u32) -> Word
    requires senders { senders ≤ most_senders }
    requires number { number < most_cycles }
    requires id { id < senders }
    requires there { number * senders + id < length words.now }
    ensures { slice_get words.now (number * senders + id) ≡ Some result }
{
    words[number as usize * senders as usize + id as usize]
}

// How many values a receipt delivers.
fn delivered_by(receipt: &Receipt) -> u64
    ensures { result ≡ one_of receipt.now }
{
    match receipt {
        Receipt::Delivered { .. } => 1,
        _ => 0,
    }
}

/// Runs a script over a wire: it has the unit code the values of each cycle, hands the receiver the
/// telegrams as the script says, and writes a line for each; then the totals. It ends at the first
/// sending to which the unit answers no word, with a line that says so.
///
/// All memory is taken before the first call: after `Memory` nothing was sent or written. After `Write`, and
/// only then, the sink's count rose, and a part of the text is written, in which the lines before the one that
/// failed are whole.
///
/// In each cycle each sender's value is sent, in order, up to the first that is answered by no word, which
/// comes only where the count of wrong answers rose, or up to where a write failed. A kept log grew by
/// exactly these calls with their answers. What is written is read off the words that were answered, by the
/// rules of the receiver; where no answer was wrong, it is the text of the wire run, to its end. No clause
/// says, after a write that failed, which lines of the last cycle that was begun are written, nor how many of the
/// cycles in which no telegram is handed were sent.
pub fn run_wire<U: Unit, O: Sink>(
    alloc: Global,
    out: &mut O,
    script: &WireScript,
    unit: &mut U,
) -> Result<WireEnd, WireRunFault>
    requires { ScriptFits script.now }
    ensures runs { RunsWire script.now.wire script.now.events (U.seen unit.old) (U.seen unit.new) (O.seen out.old) (O.seen out.new) result }
    ensures later { (O.seen out.old).faults ≤ (O.seen out.new).faults }
    ensures stayed { result ≢ Err fault.Write → (O.seen out.new).faults ≡ (O.seen out.old).faults }
{
    receipts_follow_the_equation();
    let mut words = match room(alloc, script.wire.senders, cycles_of(&script.events)) {
        Ok(words) => words,
        Err(Memory) => return Err(WireRunFault::Memory),
    };
    let mut receiver = Receiver::new(
        script.wire.listen,
        script.wire.age,
        script.wire.seed,
        script.wire.step,
    );
    let mut begun = 0;
    let mut delivered = 0;
    'events: for i in 0..script.events.len() {
        match script.events.at(i) {
            Event::Cycle { values } => {
                if let Some(id) = send_all(unit, &script.wire, begun, values, &mut words) {
                    match unsent_line(out, begun, id) {
                        Ok(()) => return Ok(WireEnd::Unsent { cycle: begun, id }),
                        Err(Failed) => return Err(WireRunFault::Write),
                    }
                }
                receiver.tick();
                begun += 1;
            }
            Event::Deliver {
                line,
                id,
                number,
                alter,
            } => {
                let word = word_at(&words, script.wire.senders, *number, *id).shift(*alter);
                let receipt = receiver.take(&Telegram {
                    number: *number,
                    word,
                });
                match receipt_line(out, *line, *number, &receipt) {
                    Ok(()) => delivered += delivered_by(&receipt),
                    Err(Failed) => return Err(WireRunFault::Write),
                }
            }
        }
    }
    match end_line(out, begun, delivered) {
        Ok(()) => Ok(WireEnd::Complete),
        Err(Failed) => Err(WireRunFault::Write),
    }
}
