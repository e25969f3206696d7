//! What the words of a line say.

ghost use Rattle.std.specs.Prelude.{◌≡◌, ◌<◌, ◌∷◌, true, IfSome, option_and_then};
ghost use Rattle.vcp_base.specs.Limits.{most_cycles};
ghost use Rattle.fault_script.specs.Forms.{operand_change as operand_change_of, operand_act as operand_act_of, result_act as result_act_of};
ghost use Rattle.fault_script.specs.Forms.{operator_act as operator_act_of, act_of, change_of};
ghost use Rattle.fault_script.specs.Forms.{addend_of};
ghost use Rattle.vcp_base.specs.Words.{only, words as words_of};
ghost use Rattle.fault_script.specs.Forms.{mark_of};
ghost use Rattle.fault_script.specs.Fits.{is_moderate};

use crate::act::Act;
use crate::numbers::{addend, cycle_number, index_number, kind_named};
use vcp_base::{WordsLeft, same_bytes};

/// What a well-formed line says: an act at an operation in a cycle.
#[derive(Clone, Copy)]
pub struct Change {
    /// The cycle, below 1,000,000.
    pub cycle: u32,
    /// The number of the operation.
    pub op: u32,
    /// The act.
    pub act: Act,
}

/// What a line is, by its words.
#[derive(Clone, Copy)]
pub enum Mark {
    /// The line begins a group.
    Begin,
    /// The line ends a group.
    End,
    /// The line is a fault line, well formed or not.
    Fault,
}

// What is added, as the last word.
fn last_addend(more: &mut WordsLeft<'_>) -> Option<i64>
    ensures { result ≡ option_and_then addend_of (only more.old) }
{
    match more.only() {
        Some(word) => addend(word),
        None => None,
    }
}

// What is done to operand j: `add e`, `from r` or `stale`.
fn operand_change(j: u32, how: &[u8], more: &mut WordsLeft<'_>) -> Option<Act>
    ensures { result ≡ operand_change_of j how.now more.old }
{
    if same_bytes(how, b"add") {
        return match last_addend(more) {
            Some(e) => Some(Act::OperandAdd { j, e }),
            None => None,
        };
    }
    if same_bytes(how, b"from") {
        let Some(word) = more.only() else {
            return None;
        };
        return match index_number(word) {
            Some(r) => Some(Act::OperandFrom { j, r }),
            None => None,
        };
    }
    if same_bytes(how, b"stale") && more.is_end() {
        return Some(Act::OperandStale { j });
    }
    None
}

// The act of the words behind `operand n k`.
fn operand_act(more: &mut WordsLeft<'_>) -> Option<Act>
    ensures { result ≡ operand_act_of more.old }
{
    let Some(j) = more.next() else {
        return None;
    };
    let Some(how) = more.next() else {
        return None;
    };
    match index_number(j) {
        Some(j) => operand_change(j, how, more),
        None => None,
    }
}

// The act of the words behind `result n k`.
fn result_act(more: &mut WordsLeft<'_>) -> Option<Act>
    ensures { result ≡ result_act_of more.old }
{
    let Some(how) = more.next() else {
        return None;
    };
    if !same_bytes(how, b"add") {
        return None;
    }
    match last_addend(more) {
        Some(e) => Some(Act::ResultAdd { e }),
        None => None,
    }
}

// The act of the words behind `operator n k`.
fn operator_act(more: &mut WordsLeft<'_>) -> Option<Act>
    ensures { result ≡ operator_act_of more.old }
{
    let Some(word) = more.only() else {
        return None;
    };
    match kind_named(word) {
        Some(kind) => Some(Act::Operator { kind }),
        None => None,
    }
}

// The act of a line, from its first word and those behind n and k.
fn act(verb: &[u8], more: &mut WordsLeft<'_>) -> Option<Act>
    ensures { result ≡ act_of verb.now more.old }
{
    if same_bytes(verb, b"operand") {
        return operand_act(more);
    }
    if same_bytes(verb, b"result") {
        return result_act(more);
    }
    if same_bytes(verb, b"operator") {
        return operator_act(more);
    }
    if same_bytes(verb, b"skip") && more.is_end() {
        return Some(Act::Skip);
    }
    None
}

// What the words of a line say: its first one, n, k, and those behind.
fn change_by(verb: &[u8], n: &[u8], k: &[u8], more: &mut WordsLeft<'_>) -> Option<Change>
    ensures change { result ≡ change_of (verb.now ∷ n.now ∷ k.now ∷ more.old) }
    ensures cycle { IfSome result (λ c. c.cycle < most_cycles) }
    ensures moderate { IfSome result (λ c. is_moderate c.act ≡ true) }
{
    let Some(cycle) = cycle_number(n) else {
        return None;
    };
    let Some(op) = index_number(k) else {
        return None;
    };
    match act(verb, more) {
        Some(act) => Some(Change { cycle, op, act }),
        None => None,
    }
}

/// What a line says, if it is well formed.
pub fn change_of_line(line: &[u8]) -> Option<Change>
    ensures change { result ≡ change_of (words_of line.now) }
    ensures cycle { IfSome result (λ c. c.cycle < most_cycles) }
    ensures moderate { IfSome result (λ c. is_moderate c.act ≡ true) }
{
    let mut words = WordsLeft::new(line);
    let Some(verb) = words.next() else {
        return None;
    };
    let Some(n) = words.next() else {
        return None;
    };
    match words.next() {
        Some(k) => change_by(verb, n, k, &mut words),
        None => None,
    }
}

/// What a line is: `begin` or `end`, each alone, or else a fault line.
pub fn mark_of_line(line: &[u8]) -> Mark
    ensures { result ≡ mark_of (words_of line.now) }
{
    let mut words = WordsLeft::new(line);
    match words.only() {
        Some(word) if same_bytes(word, b"begin") => Mark::Begin,
        Some(word) if same_bytes(word, b"end") => Mark::End,
        _ => Mark::Fault,
    }
}
