//! A unit that gives some answers that were chosen.

ghost use Rattle.std.specs.Prelude.{◌≡◌, ◌≢◌, ℕ, ◌<◌, ◌≤◌, ◌-◌, ◌^◌, ◌↔◌, ◌∷◌, [], Some, IfOk, OnOk, OnErr, IsNone, length, slice_get, unwrap_or};
ghost use Rattle.coded_unit.specs.Asked.{Asked};
ghost use Rattle.coded_unit.specs.Right.{Right};
ghost use Rattle.coded_unit.specs.Log.{GrowsBy, Counts, one_more, told, after_call};
ghost use Rattle.coded_unit.specs.Faulty.{nothing_replaced, replacement, next_answer};

use crate::call::{Answer, Call};
use crate::call_log::CallLog;
use crate::table;
use crate::unit::Unit;
use std::alloc::Global;
use std::collections::BTreeMap;
use std::marker::Model;
use vcp_base::Memory;

/// A unit that gives chosen answers, each at the call of its number, and the
/// right answers at all other calls.
///
/// It keeps its first calls, and tells its log until it does a call for which there is no room.
#[derive(Drop)]
pub struct BadUnit {
    kept: CallLog,
    calls: u64,
    replacements: BTreeMap<u64, Answer>,
    wrong: u64,
}

impl Model for BadUnit {
    ghost use Rattle.coded_unit.specs.Faulty.{Faulty};

    ghost Value = { Faulty };

    ghost view = { λ u. record { kept = u.kept; calls = u.calls; replacements = u.replacements.entries; wrong = u.wrong } };
}

impl BadUnit {
    /// A unit with room for `room` calls, before its first call, with no answer replaced. The memory
    /// of its log is taken here, and `Memory` comes where there is not so much; that of the answers
    /// is taken by `replace`, and no call takes any.
    pub fn new(alloc: Global, room: u32) -> Result<BadUnit, Memory>
        ensures unit { IfOk result (λ unit. unit ≡ nothing_replaced room) }
        ensures log { IfOk result (λ unit. (⟦<BadUnit as Unit>⟧.seen unit).log ≡ Some []) }
        ensures wrong { IfOk result (λ unit. (⟦<BadUnit as Unit>⟧.seen unit).wrong ≡ 0) }
    {
        Ok(BadUnit {
            kept: CallLog::new(alloc, room)?,
            calls: 0,
            replacements: BTreeMap::new(alloc),
            wrong: 0,
        })
    }

    /// Makes `answer` the answer to the call of a number, counted from 0 over all calls that the
    /// unit does; it takes the place of an answer that was set for that number before. After
    /// `Memory` nothing has changed.
    ///
    /// A number whose call was done already changes no answer.
    pub fn replace(&mut self, number: u64, answer: Answer) -> Result<(), Memory>
        requires { number < 2 ^ 64 - 1 }
        ensures set { OnOk result (replacement self.new.replacements number ≡ Some answer) }
        ensures others { OnOk result ((n : ℕ) → n ≢ number → replacement self.new.replacements n ≡ replacement self.old.replacements n) }
        ensures rest { OnOk result (self.new ≡ record self.old { replacements = self.new.replacements }) }
        ensures err { OnErr result (self.new ≡ self.old) }
    {
        set(&mut self.replacements, number, answer)
    }

    /// The call that was done as number `i`, counted from 0, with its answer; `None` past the kept
    /// ones.
    pub fn entry(&self, i: u32) -> Option<(Call, Answer)>
        ensures entry { result ≡ slice_get self.now.kept.entries i }
        ensures none { IsNone result ↔ (length self.now.kept.entries ≤ i) }
    {
        self.kept.entry(i)
    }

    /// How many answers so far were not the right ones, up to 2^64 - 1. An answer that was set and is the
    /// right one doesn't count.
    pub fn wrong(&self) -> u64
        ensures value { result ≡ self.now.wrong }
        ensures wrong { result ≡ (⟦<BadUnit as Unit>⟧.seen self.now).wrong }
    {
        self.wrong
    }
}

impl Unit for BadUnit {
    ghost use Rattle.coded_unit.specs.Log.{told};

    ghost seen = { λ unit. record { log = told unit.kept; wrong = unit.wrong } };

    fn perform(&mut self, call: &Call) -> Answer
        requires { Asked call.now }
        ensures log { GrowsBy (told self.old.kept) (told self.new.kept) ((call.now, result) ∷ []) }
        ensures wrong { Counts result (Right call.now) self.old.wrong self.new.wrong }
        ensures answer { result ≡ next_answer self.old call.now }
        ensures kept { self.new.kept ≡ after_call self.old.kept (call.now, result) }
        ensures calls { self.new.calls ≡ one_more self.old.calls }
        ensures replacements { self.new.replacements ≡ self.old.replacements }
    {
        let right = table::answer(call);
        let given = replaced(&self.replacements, self.calls, &right);
        self.kept.append(call, &given);
        self.calls = next(self.calls);
        self.wrong = counted(self.wrong, &given, &right);
        given
    }
}

/// Sets the answer of a number.
fn set(replacements: &mut BTreeMap<u64, Answer>, number: u64, answer: Answer) -> Result<(), Memory>
    ensures set { OnOk result (replacement replacements.new.entries number ≡ Some answer) }
    ensures others { OnOk result ((n : ℕ) → n ≢ number → replacement replacements.new.entries n ≡ replacement replacements.old.entries n) }
    ensures err { OnErr result (replacements.new.entries ≡ replacements.old.entries) }
{
    replacements.insert(number, answer)?;
    Ok(())
}

/// The chosen answer at the call of a number, where there is one, else the right one.
fn replaced(replacements: &BTreeMap<u64, Answer>, number: u64, right: &Answer) -> Answer
    ensures { result ≡ unwrap_or (replacement replacements.now.entries number) right.now }
{
    match replacements.get(&number) {
        Some(answer) => *answer,
        None => *right,
    }
}

/// The next count; a count stays at its last value.
fn next(count: u64) -> u64
    ensures { result ≡ one_more count }
{
    if count < u64::MAX { count + 1 } else { count }
}

/// A count of wrong answers after one more answer.
fn counted(wrong: u64, given: &Answer, right: &Answer) -> u64
    ensures { Counts given.now right.now wrong result }
{
    if *given == *right { wrong } else { next(wrong) }
}
