//! The verdicts of a text.

ghost use Rattle.std.specs.Prelude.{◌≡◌, ◌≢◌, ◌≤◌, ◌+◌, [], Ok, Err, IfOk, IfErr, OnOk, length, All, flat_map};
ghost use Rattle.std.specs.Str.Lines.{lines};
ghost use Rattle.fault_script.specs.Groups.{GroupFits};
ghost use Rattle.fault_script.specs.ScriptOf.{most_faults};
ghost use Rattle.fault_injector.specs.Names.{Names};
ghost use Rattle.fault_injector.specs.FaultLines.{campaign_text};
ghost use Rattle.verdict_tables.specs.Outcome.{meant as meant_of};
ghost use Rattle.verdict_tables.specs.Reading.{is_line, ended, confirmed, verdict_or, verdict_on as verdict_on_of, next_of, behind_totals, totals_then};
ghost use Rattle.verdict_tables.specs.Reading.{verdicts_in};
ghost use Rattle.verdict_tables.specs.declared.fault.VerdictsFault.TheVariants as fault;

use crate::fault::VerdictsFault;
use crate::text_sink::TextSink;
use crate::verdicts::Verdicts;
use crate::words::meant;
use fault_injector::{Totals, Verdict, totals_line, verdict_line};
use fault_script::Script;
use itoa::Buffer;
use op_graph::Graph;
use std::alloc::Global;
use vcp_base::{Memory, WordsLeft, first_line};
use vcp_outside::Failed;

/// Whether a line with its LF is this text.
fn is_text(line: &[u8], text: &[u8]) -> bool
    ensures { result ≡ is_line line.now text.now }
{
    match text.strip_suffix(b"\n") {
        Some(front) => line == front,
        None => false,
    }
}

/// The verdict that line `number` tells of the group of line `at` of the script, by the words behind its first.
fn verdict_by(
    alloc: Global,
    graph: &Graph,
    at: u32,
    number: u32,
    line: &[u8],
    words: &mut WordsLeft<'_>,
) -> Result<Verdict, VerdictsFault>
    ensures ok { IfOk result (λ v. verdict_or number (confirmed graph.now at line.now (meant_of graph.now words.old)) ≡ Ok v) }
    ensures refusal { IfErr result (λ f. f ≢ fault.Memory
        → verdict_or number (confirmed graph.now at line.now (meant_of graph.now words.old)) ≡ Err f) }
    ensures names { IfOk result (Names (length graph.now.outputs) (length graph.now.operations)) }
{
    match meant(graph, words) {
        Some(verdict) => {
            let mut told = TextSink::new(alloc);
            match verdict_line(&mut told, graph, at, &verdict) {
                Ok(()) => if is_text(line, told.bytes()) {
                    Ok(verdict)
                } else {
                    Err(VerdictsFault::Verdict { line: number })
                },
                Err(Failed) => Err(VerdictsFault::Memory),
            }
        }
        None => Err(VerdictsFault::Verdict { line: number }),
    }
}

/// The verdict that line `number` tells of the group of line `at` of the script.
fn verdict_on(
    alloc: Global,
    graph: &Graph,
    at: u32,
    number: u32,
    line: &[u8],
) -> Result<Verdict, VerdictsFault>
    ensures ok { IfOk result (λ v. verdict_on_of graph.now at number line.now ≡ Ok v) }
    ensures refusal { IfErr result (λ f. f ≢ fault.Memory → verdict_on_of graph.now at number line.now ≡ Err f) }
    ensures names { IfOk result (Names (length graph.now.outputs) (length graph.now.operations)) }
{
    let mut words = WordsLeft::new(line);
    match words.next() {
        Some(word) => if word == Buffer::new().format(at).as_bytes() {
            verdict_by(alloc, graph, at, number, line, &mut words)
        } else {
            Err(VerdictsFault::Group { line: number })
        },
        None => Err(VerdictsFault::Group { line: number }),
    }
}

/// The verdict that the next line tells, which has this number, and the text behind it.
fn next_verdict<'a>(
    alloc: Global,
    graph: &Graph,
    at: u32,
    number: u32,
    rest: &'a [u8],
) -> Result<(Verdict, &'a [u8]), VerdictsFault>
    ensures ok { IfOk result (λ r. next_of graph.now at number (lines rest.now) ≡ Ok (record { verdict = r.0; more = lines r.1.now })) }
    ensures refusal { IfErr result (λ f. f ≢ fault.Memory → next_of graph.now at number (lines rest.now) ≡ Err f) }
    ensures names { IfOk result (λ r. Names (length graph.now.outputs) (length graph.now.operations) r.0) }
{
    if rest.is_empty() {
        return Err(VerdictsFault::End { line: number });
    }
    let (line, more) = first_line(rest);
    match verdict_on(alloc, graph, at, number, line) {
        Ok(verdict) => Ok((verdict, more)),
        Err(why) => Err(why),
    }
}

/// Whether nothing is behind the totals, where a line would have this number.
fn behind(number: u32, rest: &[u8]) -> Result<(), VerdictsFault>
    ensures ok { OnOk result (behind_totals number (lines rest.now) ≡ Ok []) }
    ensures refusal { IfErr result (λ f. behind_totals number (lines rest.now) ≡ Err f) }
{
    if rest.is_empty() {
        return Ok(());
    }
    let (_, _) = first_line(rest);
    Err(VerdictsFault::Rest { line: number })
}

/// Whether the rest of a text is the line of these totals, which has this number.
fn end(alloc: Global, totals: &Totals, number: u32, rest: &[u8]) -> Result<(), VerdictsFault>
    requires { number ≤ most_faults + 1 }
    ensures ok { OnOk result (totals_then totals.now number (lines rest.now) ≡ Ok []) }
    ensures refusal { IfErr result (λ f. f ≢ fault.Memory → totals_then totals.now number (lines rest.now) ≡ Err f) }
{
    if rest.is_empty() {
        return Err(VerdictsFault::End { line: number });
    }
    let (line, more) = first_line(rest);
    let mut told = TextSink::new(alloc);
    match totals_line(&mut told, totals) {
        Ok(()) => if is_text(line, told.bytes()) {
            behind(number + 1, more)
        } else {
            Err(VerdictsFault::Totals { line: number })
        },
        Err(Failed) => Err(VerdictsFault::Memory),
    }
}

/// The verdicts that a text tells of the groups of a script, line by line as a campaign prints them; or its first line that is
/// refused. `Memory` where there is no room for them.
///
/// The text has a line for each group, in order, and then the totals of all; a line that begins with another
/// number than its group's, that no verdict over the graph is printed as, that is lacking, whose totals are
/// others, or that is behind the totals is refused. The lines that are taken, each with its LF, are byte
/// for byte those that a campaign prints of these verdicts.
pub fn read_verdicts(
    alloc: Global,
    text: &[u8],
    graph: &Graph,
    script: &Script,
) -> Result<Verdicts, VerdictsFault>
    requires fits { All (GroupFits graph.now) script.now }
    requires few { length script.now ≤ most_faults }
    ensures verdicts { IfOk result (λ vs. verdicts_in graph.now script.now text.now ≡ Ok vs) }
    ensures refusal { IfErr result (λ f. f ≢ fault.Memory → verdicts_in graph.now script.now text.now ≡ Err f) }
    ensures names { IfOk result (λ vs. All (Names (length graph.now.outputs) (length graph.now.operations)) vs) }
    ensures many { IfOk result (λ vs. length vs ≡ length script.now) }

    // What is read is what a campaign prints of these verdicts.
    ensures printed { IfOk result (λ vs. flat_map ended (lines text.now) ≡ campaign_text graph.now script.now vs) }
{
    let mut verdicts = Verdicts::new(alloc);
    let mut totals = Totals::new();
    let mut rest = text;
    'groups: for i in 0..script.len() {
        let at = script.at(i).line();
        match next_verdict(alloc, graph, at, i as u32 + 1, rest) {
            Ok((verdict, more)) => match verdicts.push(verdict) {
                Ok(()) => {
                    totals.count(&verdict);
                    rest = more;
                }
                Err(Memory) => return Err(VerdictsFault::Memory),
            },
            Err(why) => return Err(why),
        }
    }
    match end(alloc, &totals, script.len() as u32 + 1, rest) {
        Ok(()) => Ok(verdicts),
        Err(why) => Err(why),
    }
}
