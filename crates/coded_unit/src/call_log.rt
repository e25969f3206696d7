//! The first calls of a unit, with their answers.

ghost use Rattle.std.specs.Prelude.{◌≡◌, ◌<◌, ◌≤◌, ◌∷◌, [], ◌++◌, true, false, IfOk, length, slice_get, nat_lt, vec_capacity};
ghost use Rattle.coded_unit.specs.Log.{nothing_kept, after_call};

use crate::call::{Answer, Call};
use std::alloc::Global;
use std::marker::Model;
use vcp_base::Memory;

/// The first calls of a unit, as many as there is room for, and whether there were more.
#[derive(Drop)]
pub(crate) struct CallLog {
    entries: Vec<(Call, Answer)>,
    room: u32,
    past: bool,
}

impl Model for CallLog {
    ghost use Rattle.std.specs.Prelude.{◌≤◌, vec_capacity};
    ghost use Rattle.coded_unit.specs.Log.{Kept};

    ghost Value = { Kept };

    ghost view = { λ u. record { room = u.room; entries = u.entries.items; past = u.past } };

    ghost invariant = { λ u. u.room ≤ vec_capacity u.entries };
}

impl CallLog {
    /// A log with room for `room` calls, before the first. All memory that it ever takes is taken
    /// here.
    pub(crate) fn new(alloc: Global, room: u32) -> Result<CallLog, Memory>
        ensures { IfOk result (λ calls. calls ≡ nothing_kept room) }
    {
        Ok(CallLog {
            entries: Vec::with_capacity(alloc, room as usize)?,
            room,
            past: false,
        })
    }

    /// The kept call of a number with its answer.
    pub(crate) fn entry(&self, i: u32) -> Option<(Call, Answer)>
        ensures { result ≡ slice_get self.now.entries i }
    {
        self.entries.get(i as usize).copied()
    }

    /// Keeps a call where there is room, and else that there was a call past it.
    pub(crate) fn append(&mut self, call: &Call, given: &Answer)
        ensures { self.new ≡ after_call self.old (call.now, given.now) }
    {
        if !keep(&mut self.entries, self.room, call, given) {
            self.past = true;
        }
    }
}

/// Appends a call where there is room, and says whether it did.
fn keep(entries: &mut Vec<(Call, Answer)>, room: u32, call: &Call, given: &Answer) -> bool
    requires { room ≤ vec_capacity entries.old }
    ensures kept { result ≡ true → entries.new.items ≡ entries.old.items ++ (call.now, given.now) ∷ [] }
    ensures past { result ≡ false → entries.new.items ≡ entries.old.items }
    ensures room { result ≡ nat_lt (length entries.old.items) room }
    ensures capacity { room ≤ vec_capacity entries.new }
{
    entries.len() < room as usize && entries.push((*call, *given)).is_ok()
}
