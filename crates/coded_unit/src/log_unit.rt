//! A unit that tells its log.

ghost use Rattle.std.specs.Prelude.{◌≡◌, ◌≤◌, ◌↔◌, ◌∷◌, [], Some, IfOk, IsNone, length, slice_get};
ghost use Rattle.coded_unit.specs.Asked.{Asked};
ghost use Rattle.coded_unit.specs.Right.{Right};
ghost use Rattle.coded_unit.specs.Log.{GrowsBy, Counts, nothing_kept, told, after_call};

use crate::call::{Answer, Call};
use crate::call_log::CallLog;
use crate::table;
use crate::unit::Unit;
use std::alloc::Global;
use std::marker::Model;
use vcp_base::Memory;

/// A unit that gives the right answers and keeps its first calls.
///
/// It tells its log until it does a call for which there is no room; that call and the later ones
/// are answered all the same.
#[derive(Drop)]
pub struct LogUnit {
    calls: CallLog,
}

impl Model for LogUnit {
    ghost use Rattle.coded_unit.specs.Log.{Kept};

    ghost Value = { Kept };

    ghost view = { λ u. u.calls };
}

impl LogUnit {
    /// A unit with room for `room` calls, before its first call. All memory that it ever takes is
    /// taken here; `Memory` where there is not so much.
    pub fn new(alloc: Global, room: u32) -> Result<LogUnit, Memory>
        ensures kept { IfOk result (λ unit. unit ≡ nothing_kept room) }
        ensures log { IfOk result (λ unit. (⟦<LogUnit as Unit>⟧.seen unit).log ≡ Some []) }
        ensures wrong { IfOk result (λ unit. (⟦<LogUnit as Unit>⟧.seen unit).wrong ≡ 0) }
    {
        Ok(LogUnit {
            calls: CallLog::new(alloc, room)?,
        })
    }

    /// The call that was done as number `i`, counted from 0, with its answer; `None` past the kept
    /// ones.
    pub fn entry(&self, i: u32) -> Option<(Call, Answer)>
        ensures entry { result ≡ slice_get self.now.entries i }
        ensures none { IsNone result ↔ (length self.now.entries ≤ i) }
    {
        self.calls.entry(i)
    }
}

impl Unit for LogUnit {
    ghost use Rattle.coded_unit.specs.Log.{told};

    ghost seen = { λ unit. record { log = told unit; wrong = 0 } };

    fn perform(&mut self, call: &Call) -> Answer
        requires { Asked call.now }
        ensures log { GrowsBy (told self.old) (told self.new) ((call.now, result) ∷ []) }
        ensures wrong { Counts result (Right call.now) 0 0 }
        ensures right { result ≡ Right call.now }
        ensures kept { self.new ≡ after_call self.old (call.now, result) }
    {
        let given = table::answer(call);
        self.calls.append(call, &given);
        given
    }
}
