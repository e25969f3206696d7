//! Whether a text of named faults is taken.

ghost use Rattle.std.specs.Prelude.{◌≡◌, ◌≤◌, ◌^◌, Ok, Err, IfOk, IfErr, length};
ghost use Rattle.std.specs.Str.Lines.{lines};
ghost use Rattle.vcp_base.specs.Limits.{most_source_bytes};
ghost use Rattle.fault_script.specs.ScriptOf.{most_faults};
ghost use Rattle.fault_sites.specs.NamedEntries.{names_other as names_other_of};
ghost use Rattle.fault_sites.specs.NamedEntries.{fault_count as fault_count_of, taken as taken_of, lines_checked, checked};
ghost use Rattle.vcp_base.specs.Lines.{read_lines};
ghost use Rattle.fault_sites.specs.NamedScript.{cycles_of};

use crate::named::meant::{Meant, meaning};
use crate::named::refused::{Refused, Why};
use crate::named::when::Span;
use crate::next_is;
use fault_script::MOST_FAULTS;
use op_graph::Graph;
use vcp_base::{WordsLeft, first_line, first_read};

/// The most bytes of a text whose script a file can have.
pub const MOST_NAMED_BYTES: usize = 262_144;

/// Whether the first line of a text names another image: `# of DIGEST`.
fn names_other(digest: &[u8], text: &[u8]) -> bool
    ensures { result ≡ names_other_of digest.now (lines text.now) }
{
    if text.is_empty() {
        return false;
    }
    let (line, _more) = first_line(text);
    let mut words = WordsLeft::new(line);
    if !next_is(&mut words, b"#") {
        return false;
    }
    if !next_is(&mut words, b"of") {
        return false;
    }
    match words.only() {
        Some(named) => named != digest,
        None => false,
    }
}

/// How many faults a line says.
fn fault_count(meant: &Meant) -> u64
    ensures count { result ≡ fault_count_of meant.now }
    ensures few { result ≤ 2 ^ 33 }
{
    let count = cycles(meant.span);
    match meant.acts.other {
        Some(_) => count + count,
        None => count,
    }
}

/// How many cycles there are.
pub(crate) fn cycles(span: Span) -> u64
    ensures count { result ≡ cycles_of span }
    ensures few { result ≤ 2 ^ 32 }
{
    (span.last as u64 + 1).saturating_sub(span.first as u64)
}

/// How many faults there are with those of a line that isn't skipped, at most 10,000; the line has this number.
fn line_taken(graph: &Graph, before: u64, line: u32, text: &[u8]) -> Result<u64, Refused>
    requires { before ≤ most_faults }
    ensures ok { IfOk result (λ n. taken_of graph.now before text.now ≡ Ok n) }
    ensures refused { IfErr result (λ r. (r.line ≡ line) × (taken_of graph.now before text.now ≡ Err r.why)) }
    ensures few { IfOk result (λ n. n ≤ most_faults) }
{
    match meaning(graph, text) {
        Ok(meant) => {
            let count = before + fault_count(&meant);
            if count <= MOST_FAULTS as u64 {
                Ok(count)
            } else {
                Err(Refused {
                    line,
                    why: Why::Faults,
                })
            }
        }
        Err(why) => Err(Refused { line, why }),
    }
}

/// Whether the lines of a text are taken, or the first that is refused.
#[tactic(auto, using(crate::proofs::LinesTaken::goes_on, crate::proofs::LinesTaken::refuses, crate::proofs::LinesTaken::ends))]
fn check_lines(graph: &Graph, text: &[u8]) -> Result<(), Refused>
    requires { length text.now ≤ most_source_bytes }
    ensures { result ≡ lines_checked graph.now 0 (read_lines 1 (lines text.now)) }
{
    let mut rest = text;
    let mut before = 0;
    let mut count = 0;
    'lines: while let Some((line, words, more)) = first_read(rest, before) {
        let next = line_taken(graph, count, line, words)?;
        count = next;
        before = line;
        rest = more;
    }
    Ok(())
}

/// Whether the lines of a text of at most 1,048,576 bytes are taken over the graph of the image with this
/// digest; or the first line that is refused. A first line `# of DIGEST` is refused where it names another
/// image. A line is read from the left, and the first word that is wrong decides why it is refused. It takes
/// no memory. The first line is looked at before all others, and how many faults there are behind all.
pub fn check(graph: &Graph, digest: &[u8], text: &[u8]) -> Result<(), Refused>
    requires { length text.now ≤ most_source_bytes }
    ensures { result ≡ checked digest.now graph.now text.now }
{
    if names_other(digest, text) {
        return Err(Refused {
            line: 1,
            why: Why::Image,
        });
    }
    check_lines(graph, text)
}
