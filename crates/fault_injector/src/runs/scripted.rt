//! A unit around a unit, which carries out the faults of a group.

ghost use Rattle.std.specs.Prelude.{◌≡◌, ◌+◌, ◌==◌, ◌∷◌, [], cond, None, Some, IfNone, IfSome, IfOk, length};
ghost use Rattle.coded_unit.specs.Asked.{Asked};
ghost use Rattle.coded_unit.specs.Log.{GrowsBy, Counts};
ghost use Rattle.coded_unit.specs.Right.{Right};
ghost use Rattle.fault_script.specs.Changes.{operand_word as operand_word_of, with_operand as with_operand_of, changed as changed_of, answered as answered_of};
ghost use Rattle.fault_script.specs.Changes.{is_skip as is_skip_of, word_of, is_call_of as is_call_of_of};
ghost use Rattle.fault_script.specs.Changes.{is_call_before as is_call_before_of, kept_by as kept_by_of, kept_after as kept_after_of, none_kept};
ghost use Rattle.fault_script.specs.Changes.{act_at_call, act_with};
ghost use Rattle.fault_script.specs.Groups.{Apart};
ghost use Rattle.fault_injector.specs.Carried.{faults_of, keeps_of};
ghost use Rattle.coded_unit.specs.Seen.{StoodStill};
ghost use Rattle.fault_injector.specs.Scripts.{word, word_at_call, right_under, Performed};

use crate::runs::kept_words::KeptWords;
use coded_unit::{Answer, Call, Unit, Word, table};
use fault_script::{Act, Fault, Group};
use std::alloc::Global;
use vcp_base::Memory;

/// A fault, and the word that was kept for it of an earlier call, where there is one.
#[derive(Clone, Copy)]
pub struct Carried {
    /// The fault.
    pub fault: Fault,
    /// The word.
    pub kept: Option<Word>,
}

/// Carries out the faults of a group around another unit: it changes an operand or the kind of a call that
/// it passes on, or an answer, or answers without a call.
///
/// For each fault it keeps the one word that the fault takes from an earlier call. It tells no log. A struct
/// that holds a `&mut` has no model, so contracts name its parts.
#[derive(Drop)]
pub struct Scripted<'u, U> {
    unit: &'u mut U,
    carried: Vec<Carried>,
    wrong: u64,
}

/// The faults of a group, with the words that are kept for them; `Memory` where there is no room for them.
fn carried_with(alloc: Global, group: &Group, kept: &KeptWords) -> Result<Vec<Carried>, Memory>
    requires { length kept.now ≡ length group.now }
    ensures faults { IfOk result (λ carried. faults_of carried.items ≡ group.now) }
    ensures kept { IfOk result (λ carried. keeps_of carried.items ≡ kept.now) }
{
    let mut carried = Vec::new(alloc);
    'faults: for i in 0..group.len() {
        let fault = group.at(i);
        let word = kept.at(i);
        carried.push(Carried { fault, kept: word })?;
    }
    Ok(carried)
}

/// The faults of a group, of which no word is kept yet; `Memory` where there is no room for them.
pub fn carried_of(alloc: Global, group: &Group) -> Result<Vec<Carried>, Memory>
    ensures faults { IfOk result (λ carried. faults_of carried.items ≡ group.now) }
    ensures kept { IfOk result (λ carried. keeps_of carried.items ≡ none_kept group.now) }
{
    let mut carried = Vec::new(alloc);
    'faults: for i in 0..group.len() {
        carried.push(Carried {
            fault: group.at(i),
            kept: None,
        })?;
    }
    Ok(carried)
}

impl<'u, U: Unit> Scripted<'u, U> {
    /// The unit with the faults of a group around it, of which no word is kept yet; `Memory` where there is no room
    /// for them. No later call takes memory.
    pub fn new(alloc: Global, unit: &'u mut U, group: &Group) -> Result<Scripted<'u, U>, Memory>
        requires apart { Apart group.now }
        ensures inside { IfOk result (λ s. s.unit.now ≡ unit.old) }
        ensures same { IfOk result (λ s. s.unit.ghost_name ≡ unit.entry.ghost_name) }
        ensures faults { IfOk result (λ s. faults_of s.carried.items ≡ group.now) }
        ensures kept { IfOk result (λ s. keeps_of s.carried.items ≡ none_kept group.now) }
        ensures wrong { IfOk result (λ s. s.wrong ≡ 0) }
    {
        let carried = carried_of(alloc, group)?;
        Ok(Scripted::of_parts(unit, carried))
    }

    /// The unit with the faults of a group around it, each with the word, if any, that is kept for it: so a run goes on
    /// where calls were made before. `Memory` where there is no room for them. No later call takes memory.
    pub fn with_kept(
        alloc: Global,
        unit: &'u mut U,
        group: &Group,
        kept: &KeptWords,
    ) -> Result<Scripted<'u, U>, Memory>
        requires apart { Apart group.now }
        requires each { length kept.now ≡ length group.now }
        ensures inside { IfOk result (λ s. s.unit.now ≡ unit.old) }
        ensures same { IfOk result (λ s. s.unit.ghost_name ≡ unit.entry.ghost_name) }
        ensures faults { IfOk result (λ s. faults_of s.carried.items ≡ group.now) }
        ensures kept { IfOk result (λ s. keeps_of s.carried.items ≡ kept.now) }
        ensures wrong { IfOk result (λ s. s.wrong ≡ 0) }
    {
        let carried = carried_with(alloc, group, kept)?;
        Ok(Scripted::of_parts(unit, carried))
    }

    /// The unit with these faults around it. It takes no memory.
    pub fn of_parts(unit: &'u mut U, carried: Vec<Carried>) -> Scripted<'u, U>
        ensures inside { result.unit.now ≡ unit.old }
        ensures same { result.unit.ghost_name ≡ unit.entry.ghost_name }
        ensures carried { result.carried.items ≡ carried.items }
        ensures wrong { result.wrong ≡ 0 }
    {
        Scripted {
            unit,
            carried,
            wrong: 0,
        }
    }

    /// The unit inside, as the calls so far left it.
    pub fn into_inner(self) -> &'u mut U
        ensures inside { result.now ≡ self.entry.unit.now }
        ensures same { result.ghost_name ≡ self.entry.unit.ghost_name }
    {
        let Scripted {
            unit,
            carried: _carried,
            wrong: _,
        } = self;
        unit
    }

    /// How many of its answers so far were not the right ones for the calls that it got, up to 2^64 - 1.
    pub fn wrong(&self) -> u64
        ensures { result ≡ self.now.wrong }
    {
        self.wrong
    }
}

impl<'u, U: Unit> Unit for Scripted<'u, U> {
    ghost use Rattle.std.specs.Prelude.{None};

    ghost seen = { λ s. record { log = None; wrong = s.wrong } };

    /// Does one call: as the unit inside does it, and at the operation and cycle of a fault as its act says,
    /// where it has the word that the act takes. An answer that isn't the right one for the call that
    /// it got is counted.
    ///
    /// For every unit inside: what is handed back is made of the answer to the call passed on; a kept log
    /// inside grows by that call, and by nothing at a skip that has its word; the count of wrong answers
    /// inside is that of the call passed on. The one word that an act takes is kept when its call passes, and
    /// where none was kept the call is passed on unchanged. Over an honest unit each call is answered rightly
    /// but at the faults, where the answer is by the operand, kind or word that the act puts there. It tells
    /// no log, and takes no memory.
    fn perform(&mut self, call: &Call) -> Answer
        requires { Asked call.now }
        ensures log { GrowsBy None None ((call.now, result) ∷ []) }
        ensures wrong { Counts result (Right call.now) self.old.wrong self.new.wrong }
        ensures same { self.new.unit.ghost_name ≡ self.old.unit.ghost_name }
        ensures faults { faults_of self.new.carried.items ≡ faults_of self.old.carried.items }
        ensures kept { keeps_of self.new.carried.items
            ≡ kept_after_of (faults_of self.old.carried.items) (keeps_of self.old.carried.items) call.now result }
        ensures performed { Performed (faults_of self.old.carried.items) (keeps_of self.old.carried.items) call.now result
            (U.seen self.old.unit.now).log (U.seen self.new.unit.now).log (U.seen self.old.unit.now).wrong (U.seen self.new.unit.now).wrong }
        ensures right { StoodStill (U.seen self.old.unit.now).wrong (U.seen self.new.unit.now).wrong
            → result ≡ right_under (faults_of self.old.carried.items) (keeps_of self.old.carried.items) call.now }
    {
        let given = carried_out(self.unit, &self.carried, call);
        keep(&mut self.carried, call, &given);
        self.wrong = counted(self.wrong, &given, &table::answer(call));
        given
    }
}

/// What is carried out at a call: an act, with the word that it takes.
#[derive(Clone, Copy)]
struct Doing {
    act: Act,
    word: Word,
}

/// One call through the faults.
fn carried_out<U: Unit>(unit: &mut U, carried: &[Carried], call: &Call) -> Answer
    requires { Asked call.now }
    ensures performed { Performed (faults_of carried.now) (keeps_of carried.now) call.now result
        (U.seen unit.old).log (U.seen unit.new).log (U.seen unit.old).wrong (U.seen unit.new).wrong }
    ensures right { StoodStill (U.seen unit.old).wrong (U.seen unit.new).wrong → result ≡ right_under (faults_of carried.now) (keeps_of carried.now) call.now }
{
    let Some(doing) = doing_at(carried, call) else {
        return unit.perform(call);
    };
    if is_skip(&doing.act) {
        return Answer::Word(doing.word);
    }
    let given = unit.perform(&changed(&doing.act, &doing.word, call));
    answered(&doing.act, &doing.word, &given)
}

/// What is carried out at a call, if anything: the act of the first fault at its operation in its cycle, where
/// the word that it takes is there.
fn doing_at(carried: &[Carried], call: &Call) -> Option<Doing>
    ensures none { IfNone result (act_at_call (faults_of carried.now) (keeps_of carried.now) call.now ≡ None) }
    ensures some { IfSome result (λ d. (act_at_call (faults_of carried.now) (keeps_of carried.now) call.now ≡ Some d.act)
        × (word_at_call (faults_of carried.now) (keeps_of carried.now) call.now ≡ d.word)) }
{
    'sites: for i in 0..carried.len() {
        let one = &carried[i];
        if is_call_of(one.fault.cycle, one.fault.op, call) {
            return done_by(one);
        }
    }
    None
}

/// What a fault does at its call, if it has the word that its act takes.
fn done_by(one: &Carried) -> Option<Doing>
    ensures none { IfNone result (act_with one.now.fault.act one.now.kept ≡ None) }
    ensures some { IfSome result (λ d. (act_with one.now.fault.act one.now.kept ≡ Some d.act) × (word one.now.kept ≡ d.word)) }
{
    let act = one.fault.act;
    let word = match one.kept {
        Some(word) => word,
        None => match act {
            // These take a word of an earlier call.
            Act::OperandFrom { j: _, r: _ } | Act::OperandStale { j: _ } | Act::Skip => {
                return None;
            }
            _ => Word::ZERO,
        },
    };
    Some(Doing { act, word })
}

/// Keeps what each fault takes of a call with this answer.
fn keep(carried: &mut [Carried], call: &Call, given: &Answer)
    ensures faults { faults_of carried.new ≡ faults_of carried.old }
    ensures kept { keeps_of carried.new ≡ kept_after_of (faults_of carried.old) (keeps_of carried.old) call.now given.now }
{
    'faults: for i in 0..carried.len() {
        carried[i] = kept_on(&carried[i], call, given);
    }
}

/// A fault with what it has kept after a call with this answer.
fn kept_on(one: &Carried, call: &Call, given: &Answer) -> Carried
    ensures { result ≡ record { fault = one.now.fault; kept = kept_by_of one.now.fault one.now.fault.act one.now.kept call.now given.now } }
{
    Carried {
        fault: one.fault,
        kept: kept_by(&one.fault, &one.kept, call, given),
    }
}

/// Whether no call is done under the act.
pub fn is_skip(act: &Act) -> bool
    ensures { result ≡ is_skip_of act.now }
{
    match act {
        Act::Skip => true,
        Act::OperandAdd { j: _, e: _ }
        | Act::OperandFrom { j: _, r: _ }
        | Act::OperandStale { j: _ }
        | Act::ResultAdd { e: _ }
        | Act::Operator { kind: _ } => false,
    }
}

/// Whether a call is one of operation `k` in cycle `n`.
fn is_call_of(n: u32, k: u32, call: &Call) -> bool
    ensures { result ≡ is_call_of_of n k call.now }
{
    call.cycle == n && call.op == k
}

/// Whether a call is one of operation `k` in the cycle before cycle `n`.
fn is_call_before(n: u32, k: u32, call: &Call) -> bool
    ensures { result ≡ is_call_before_of n k call.now }
{
    is_before(call.cycle, n) && call.op == k
}

/// Whether a cycle is the one before another.
fn is_before(cycle: u32, later: u32) -> bool
    ensures { result ≡ ((cycle + 1) == later) }
{
    match later.checked_sub(1) {
        Some(before) => before == cycle,
        None => false,
    }
}

/// The word of operand `j` of a call.
fn operand_word(call: &Call, j: u32) -> Word
    ensures { result ≡ operand_word_of call.now j }
{
    match j {
        0 => call.a,
        1 => call.b,
        _ => call.c,
    }
}

/// The call with this word as operand `j`.
fn with_operand(call: &Call, j: u32, word: &Word) -> Call
    ensures { result ≡ with_operand_of call.now j word.now }
{
    let mut other = *call;
    match j {
        0 => other.a = *word,
        1 => other.b = *word,
        _ => other.c = *word,
    }
    other
}

/// The call that is done in place of a call, where the act takes this word.
#[tactic(auto, using(crate::proofs::Carrying::one_call))]
pub fn changed(act: &Act, word: &Word, call: &Call) -> Call
    ensures call { result ≡ changed_of act.now word.now call.now }
    ensures asked { Asked call.now → Asked result }
{
    match *act {
        Act::OperandAdd { j, e } => with_operand(call, j, &operand_word(call, j).shift(e)),
        Act::OperandFrom { j, r: _ } | Act::OperandStale { j } => with_operand(call, j, word),
        Act::Operator { kind } => Call { kind, ..*call },
        Act::ResultAdd { e: _ } | Act::Skip => *call,
    }
}

/// The answer that is handed back in place of an answer, where the act takes this word. A stop to which something is added stays as it is.
pub fn answered(act: &Act, word: &Word, given: &Answer) -> Answer
    ensures { result ≡ answered_of act.now word.now given.now }
{
    match *act {
        Act::ResultAdd { e } => match given {
            Answer::Word(word) => Answer::Word(word.shift(e)),
            Answer::Range | Answer::DivZero | Answer::Operand => *given,
        },
        Act::Skip => Answer::Word(*word),
        Act::OperandAdd { j: _, e: _ }
        | Act::OperandFrom { j: _, r: _ }
        | Act::OperandStale { j: _ }
        | Act::Operator { kind: _ } => *given,
    }
}

/// The word that a fault has kept after a call with this answer.
fn kept_by(fault: &Fault, kept: &Option<Word>, call: &Call, given: &Answer) -> Option<Word>
    ensures { result ≡ kept_by_of fault.now fault.now.act kept.now call.now given.now }
{
    match fault.act {
        Act::OperandFrom { j: _, r } => {
            kept_if(
                is_call_of(fault.cycle, r, call),
                &answer_word(given, kept),
                kept,
            )
        }
        Act::OperandStale { j } => kept_if(
            is_call_before(fault.cycle, fault.op, call),
            &Some(operand_word(call, j)),
            kept,
        ),
        Act::Skip => kept_if(
            is_call_before(fault.cycle, fault.op, call),
            &answer_word(given, kept),
            kept,
        ),
        Act::OperandAdd { j: _, e: _ } | Act::ResultAdd { e: _ } | Act::Operator { kind: _ } => {
            *kept
        }
    }
}

/// A new word where the call is the one that has it, else the word that was kept before.
fn kept_if(has_it: bool, new: &Option<Word>, before: &Option<Word>) -> Option<Word>
    ensures { result ≡ cond has_it new.now before.now }
{
    if has_it { *new } else { *before }
}

/// The word of an answer, or the one that was there before.
fn answer_word(given: &Answer, before: &Option<Word>) -> Option<Word>
    ensures { result ≡ word_of given.now before.now }
{
    match given {
        Answer::Word(word) => Some(*word),
        Answer::Range | Answer::DivZero | Answer::Operand => *before,
    }
}

/// A count of wrong answers after one more answer.
fn counted(wrong: u64, given: &Answer, right: &Answer) -> u64
    ensures { Counts given.now right.now wrong result }
{
    if *given == *right {
        wrong
    } else {
        wrong.saturating_add(1)
    }
}
