//! Which verdict the words of a line may mean.

ghost use Rattle.std.specs.Prelude.{◌≡◌, ◌<◌, IfSome, length};
ghost use Rattle.fault_injector.specs.Names.{Names};
ghost use Rattle.verdict_tables.specs.Outcome.{numbers_of, named_then, output_named, shown_of, stop_of};
ghost use Rattle.verdict_tables.specs.Outcome.{stopped_of, ran_on_of, meant as meant_of};

use fault_injector::Verdict;
use fault_script::cycle_number;
use op_graph::Graph;
use run_report::output_name;
use vcp_base::{StopKind, Ty, WordsLeft, number_in, numeral, same_bytes, stop_name};

/// Two numbers.
#[derive(Clone, Copy)]
pub(crate) struct Numbers {
    /// The first.
    pub first: i64,
    /// The second.
    pub second: i64,
}

/// What shows at an output.
#[derive(Clone, Copy)]
pub(crate) struct Shown {
    /// In which cycle.
    pub cycle: u32,
    /// At which output.
    pub output: u32,
    /// The two numbers that go with it.
    pub numbers: Numbers,
}

/// Two numbers, each behind another word.
fn two_numbers(words: &mut WordsLeft<'_>) -> Option<Numbers>
    ensures { result ≡ numbers_of words.old }
{
    let Some(_) = words.next() else {
        return None;
    };
    let Some(a) = words.next() else {
        return None;
    };
    let Some(_) = words.next() else {
        return None;
    };
    let Some(b) = words.next() else {
        return None;
    };
    match number_in(Ty::Lint, a) {
        Some(first) => match number_in(Ty::Lint, b) {
            Some(second) => Some(Numbers { first, second }),
            None => None,
        },
        None => None,
    }
}

/// The output that was found, or output `n` where it has this name.
fn named(found: Option<u32>, graph: &Graph, name: &[u8], n: u32) -> Option<u32>
    requires { n < length graph.now.outputs }
    ensures { result ≡ named_then graph.now name.now n found }
{
    match found {
        Some(output) => Some(output),
        None => if name == output_name(graph, n).bytes() {
            Some(n)
        } else {
            None
        },
    }
}

/// The first output with this name.
fn output(graph: &Graph, name: &[u8]) -> Option<u32>
    ensures value { result ≡ output_named graph.now name.now }
    ensures there { IfSome result (λ n. n < length graph.now.outputs) }
{
    let mut found = None;
    'outputs: for n in 0..graph.outputs() {
        found = named(found, graph, name, n);
    }
    found
}

/// What shows at an output, by the words behind the first.
fn shown_at(graph: &Graph, words: &mut WordsLeft<'_>) -> Option<Shown>
    ensures value { result ≡ shown_of graph.now words.old }
    ensures there { IfSome result (λ s. s.output < length graph.now.outputs) }
{
    let Some(n) = words.next() else {
        return None;
    };
    let Some(name) = words.next() else {
        return None;
    };
    let Some(cycle) = cycle_number(n) else {
        return None;
    };
    let Some(output) = output(graph, name) else {
        return None;
    };
    match two_numbers(words) {
        Some(numbers) => Some(Shown {
            cycle,
            output,
            numbers,
        }),
        None => None,
    }
}

/// The kind of a stop with this name.
fn stop(word: &[u8]) -> Option<StopKind>
    ensures { result ≡ stop_of word.now }
{
    if same_bytes(word, stop_name(StopKind::Range)) {
        return Some(StopKind::Range);
    }
    if same_bytes(word, stop_name(StopKind::DivZero)) {
        return Some(StopKind::DivZero);
    }
    if same_bytes(word, stop_name(StopKind::Operand)) {
        return Some(StopKind::Operand);
    }
    None
}

/// The words behind `stopped`: for the cycle, the operation and the kind.
fn stopped(graph: &Graph, words: &mut WordsLeft<'_>) -> Option<Verdict>
    ensures value { result ≡ stopped_of graph.now words.old }
    ensures names { IfSome result (Names (length graph.now.outputs) (length graph.now.operations)) }
{
    let Some(n) = words.next() else {
        return None;
    };
    let Some(k) = words.next() else {
        return None;
    };
    let Some(why) = words.next() else {
        return None;
    };
    let Some(cycle) = cycle_number(n) else {
        return None;
    };
    let Some(op) = numeral(k) else {
        return None;
    };
    if op >= graph.len() as u64 {
        return None;
    }
    match stop(why) {
        Some(kind) => Some(Verdict::Stopped {
            cycle,
            op: op as u32,
            kind,
        }),
        None => None,
    }
}

/// The word behind `ran-on`.
fn ran_on(words: &mut WordsLeft<'_>) -> Option<Verdict>
    ensures { result ≡ ran_on_of words.old }
{
    let Some(n) = words.next() else {
        return None;
    };
    match cycle_number(n) {
        Some(cycle) => Some(Verdict::RanOn { cycle }),
        None => None,
    }
}

/// The verdict that words may mean, by the first of them.
pub(crate) fn meant(graph: &Graph, words: &mut WordsLeft<'_>) -> Option<Verdict>
    ensures value { result ≡ meant_of graph.now words.old }
    ensures names { IfSome result (Names (length graph.now.outputs) (length graph.now.operations)) }
{
    let Some(first) = words.next() else {
        return None;
    };
    if same_bytes(first, b"same") {
        return Some(Verdict::Same);
    }
    if same_bytes(first, b"wrong") {
        // An output is released with a wrong value.
        return match shown_at(graph, words) {
            Some(shown) => Some(Verdict::Wrong {
                cycle: shown.cycle,
                output: shown.output,
                got: shown.numbers.first,
                want: shown.numbers.second,
            }),
            None => None,
        };
    }
    if same_bytes(first, b"ran-on") {
        return ran_on(words);
    }
    if same_bytes(first, b"refused") {
        // An output is refused by its residue.
        return match shown_at(graph, words) {
            Some(shown) => Some(Verdict::Refused {
                cycle: shown.cycle,
                output: shown.output,
                found: shown.numbers.first.unsigned_abs(),
                expected: shown.numbers.second.unsigned_abs(),
            }),
            None => None,
        };
    }
    if same_bytes(first, b"stopped") {
        return stopped(graph, words);
    }
    None
}
