//! Units, asked one call after another.

ghost use Rattle.fault_script.specs.Groups.{Apart};

use crate::play::calls::graphs::{graph_in, text_in};
use crate::play::calls::words::{call_in, tell_parts, u32_of, word_in};
use crate::play::sessions::came::Came;
use crate::play::texts::{behind, integer, part, parts_of, place_in, word};
use crate::play::told::Told;
use coded_unit::{BadUnit, CpuUnit, LogUnit, Unit, Word};
use fault_injector::{KeptWords, Scripted};
use fault_script::{Group, read_script};
use std::alloc::Global;
use vcp_base::{MOST_SOURCE_BYTES, same_bytes};

/// Calls on units: to the calls that are the lines of a file, the answers of the processor, of a unit that keeps so many calls, with these, of the
/// session's unit, and of that under a fault.
pub fn tell_units(came: &mut Came, n: &[i128; 12], words: &[u8], told: Told) -> Told {
    let text = text_in(came, word(words, 0));
    let calls = text.bytes();
    match place_in(b"cpu log acts unit", word(words, 1)) {
        0 => tell_answers(came.alloc, &mut CpuUnit::new(), calls, told),
        1 => tell_logged(came.alloc, calls, u32_of(n[2]), told),
        2 => tell_acts(came, behind(words, 2), calls, told),
        3 => tell_answers(came.alloc, &mut came.unit, calls, told),
        _ => told.say(b"no call of this name"),
    }
}

/// Tells a unit's answers to these calls, a line each.
pub fn tell_answers<U: Unit>(alloc: Global, unit: &mut U, calls: &[u8], told: Told) -> Told {
    let mut told = told;
    let mut answers = Vec::new(alloc);
    let lines = parts_of(alloc, calls, b"\n");
    for i in 0..lines.len() {
        let line = part(&lines, i);
        if !line.is_empty()
            && let Some(call) = call_in(line, &answers)
        {
            let answer = unit.perform(&call);
            told = tell_parts(call.profile, &answer, told).say(b"\n");
            let _ = answers.push(word_in(&answer));
        }
    }
    told
}

/// Tells the answers of a unit that has room for so many calls, and those that it kept.
fn tell_logged(alloc: Global, calls: &[u8], room: u32, told: Told) -> Told {
    let Ok(mut unit) = LogUnit::new(alloc, room) else {
        return told.say(b"no memory");
    };
    let mut told = tell_answers(alloc, &mut unit, calls, told);
    for i in 0..64 {
        if let Some((call, answer)) = unit.entry(i) {
            told = told
                .say(b"kept")
                .number(call.op as i128)
                .number(word_in(&answer).get())
                .say(b"\n");
        }
    }
    told
}

/// Tells the answers of the session's unit to calls under a fault of an image, where a word was kept for it before, or `-` for none, and how many of them
/// are wrong: `M WORD FAULT`.
#[tactic(auto, using(crate::proofs::Groups::group_is_apart))]
fn tell_acts(came: &mut Came, words: &[u8], calls: &[u8], told: Told) -> Told {
    let kept = word(words, 1);
    let kept = if same_bytes(kept, b"-") {
        None
    } else {
        Word::new(integer(kept))
    };
    let fault = behind(words, 2);
    if fault.len() as u64 <= MOST_SOURCE_BYTES
        && let Some(graph) = graph_in(came, word(words, 0))
        && let Ok(script) = read_script(came.alloc, fault, &graph)
        && script.len() > 0
    {
        return tell_under(came.alloc, &mut came.unit, script.at(0), kept, calls, told);
    }
    told.say(b"no fault of an image")
}

/// Tells the answers of a unit under a group of one fault.
fn tell_under(
    alloc: Global,
    unit: &mut BadUnit,
    group: &Group,
    word: Option<Word>,
    calls: &[u8],
    told: Told,
) -> Told
    requires apart { Apart group.now }
{
    let mut words = KeptWords::new(alloc);
    if group.len() == 1
        && let Ok(()) = words.push(word)
        && let Ok(mut scripted) = Scripted::with_kept(alloc, unit, group, &words)
    {
        return tell_answers(alloc, &mut scripted, calls, told)
            .number(scripted.wrong() as i128)
            .say(b" wrong\n");
    }
    told.say(b"no memory")
}
