//! What a line does, and to what.

ghost use Rattle.std.specs.Prelude.{◌≡◌, ◌<◌, IfOk, length};
ghost use Rattle.fault_sites.specs.NamedLines.{with_rest, place_at as place_at_of, place_of, operand_of, target_of, add_of};
ghost use Rattle.fault_sites.specs.NamedLines.{read_of, operator_of, doing_of};

use crate::named::operations::operation_named;
use crate::named::refused::Why;
use crate::next_is;
use fault_script::{index_number, kind_named};
use op_graph::Graph;
use vcp_base::{Kind, Ty, WordsLeft, number_in, same_bytes};

/// What the words before the operation say.
#[derive(Clone, Copy)]
pub enum Doing {
    /// A number is added.
    Add {
        /// The number.
        e: i64,
    },
    /// An operand is the word of the cycle before.
    Stale,
    /// An operand is the word of another operation.
    Read {
        /// The number of that operation.
        r: u32,
    },
    /// The call is done as one of another kind.
    Operator {
        /// The other kind.
        kind: Kind,
    },
    /// The operation keeps its answer of the cycle before.
    Skip,
    /// A bit is flipped.
    Flip,
}

/// An operation, or an operand of it.
#[derive(Clone, Copy)]
pub struct Target {
    /// The operand, where it is one.
    pub operand: Option<u32>,
    /// The number of the operation.
    pub op: u32,
}

/// Takes the rest of what names an operation, behind its first word.
fn place_at(graph: &Graph, first: &[u8], words: &mut WordsLeft<'_>) -> Result<u32, Why>
    ensures value { with_rest words.new result ≡ place_at_of graph.now first.now words.old }
    ensures there { IfOk result (λ k. k < length graph.now.operations) }
{
    match kind_named(first) {
        None => operation_named(graph, None, first),
        Some(kind) => match words.next() {
            Some(name) => operation_named(graph, Some(kind), name),
            None => Err(Why::Form),
        },
    }
}

/// Takes what names an operation.
fn place(graph: &Graph, words: &mut WordsLeft<'_>) -> Result<u32, Why>
    ensures value { with_rest words.new result ≡ place_of graph.now words.old }
    ensures there { IfOk result (λ k. k < length graph.now.operations) }
{
    let Some(first) = words.next() else {
        return Err(Why::Form);
    };
    place_at(graph, first, words)
}

/// Takes what names an operand, behind `operand`.
fn operand(graph: &Graph, words: &mut WordsLeft<'_>) -> Result<Target, Why>
    ensures value { with_rest words.new result ≡ operand_of graph.now words.old }
    ensures there { IfOk result (λ t. t.op < length graph.now.operations) }
{
    let Some(number) = words.next() else {
        return Err(Why::Form);
    };
    if !next_is(words, b"of") {
        return Err(Why::Form);
    }
    let Some(j) = index_number(number) else {
        return Err(Why::Form);
    };
    match place(graph, words) {
        Ok(op) => Ok(Target {
            operand: Some(j),
            op,
        }),
        Err(why) => Err(why),
    }
}

/// Takes what names an operation, or an operand of one.
pub(crate) fn take_target(graph: &Graph, words: &mut WordsLeft<'_>) -> Result<Target, Why>
    ensures value { with_rest words.new result ≡ target_of graph.now words.old }
    ensures there { IfOk result (λ t. t.op < length graph.now.operations) }
{
    let Some(first) = words.next() else {
        return Err(Why::Form);
    };
    if same_bytes(first, b"operand") {
        return operand(graph, words);
    }
    match place_at(graph, first, words) {
        Ok(op) => Ok(Target { operand: None, op }),
        Err(why) => Err(why),
    }
}

/// Takes the words behind `add`: E, and `to`.
fn add(words: &mut WordsLeft<'_>) -> Result<Doing, Why>
    ensures { with_rest words.new result ≡ add_of words.old }
{
    let Some(number) = words.next() else {
        return Err(Why::Form);
    };
    if !next_is(words, b"to") {
        return Err(Why::Form);
    }
    match number_in(Ty::Lint, number) {
        Some(e) => Ok(Doing::Add { e }),
        None => Err(Why::Form),
    }
}

/// Takes the words behind `read`: what names an operation, and `as`.
fn read(graph: &Graph, words: &mut WordsLeft<'_>) -> Result<Doing, Why>
    ensures { with_rest words.new result ≡ read_of graph.now words.old }
{
    match place(graph, words) {
        Ok(r) => if next_is(words, b"as") {
            Ok(Doing::Read { r })
        } else {
            Err(Why::Form)
        },
        Err(why) => Err(why),
    }
}

/// Takes the words behind `operator`: KIND, and `at`.
fn operator(words: &mut WordsLeft<'_>) -> Result<Doing, Why>
    ensures { with_rest words.new result ≡ operator_of words.old }
{
    let Some(name) = words.next() else {
        return Err(Why::Form);
    };
    if !next_is(words, b"at") {
        return Err(Why::Form);
    }
    match kind_named(name) {
        Some(kind) => Ok(Doing::Operator { kind }),
        None => Err(Why::Form),
    }
}

/// Takes the words before the operation.
pub(crate) fn take_doing(graph: &Graph, words: &mut WordsLeft<'_>) -> Result<Doing, Why>
    ensures { with_rest words.new result ≡ doing_of graph.now words.old }
{
    let Some(verb) = words.next() else {
        return Err(Why::Form);
    };
    if same_bytes(verb, b"add") {
        return add(words);
    }
    if same_bytes(verb, b"stale") {
        return Ok(Doing::Stale);
    }
    if same_bytes(verb, b"read") {
        return read(graph, words);
    }
    if same_bytes(verb, b"operator") {
        return operator(words);
    }
    if same_bytes(verb, b"skip") {
        return Ok(Doing::Skip);
    }
    if same_bytes(verb, b"flip") {
        return Ok(Doing::Flip);
    }
    if same_bytes(verb, b"stuck") {
        return Err(Why::Held);
    }
    Err(Why::Form)
}
