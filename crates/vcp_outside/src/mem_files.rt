//! Files in memory.

ghost use Rattle.std.specs.Prelude.{◌≡◌, ◌+◌, ◌<◌, ◌≤◌, ◌-◌, ◌^◌, ◌⊎◌, ◌↔◌, ◌∷◌, ◌++◌, [], None, Some, min, length, take, drop, option_and_then};
ghost use Rattle.std.specs.Prelude.{slice_get, IsErr, IfOk, IfSome, OnOk, OnErr};
ghost use Rattle.std.specs.Io.{ReadsAtMost};
ghost use Rattle.std.specs.Io.KnownBytes.{ReadConsumes};
ghost use Rattle.vcp_outside.specs.Counts.{HasCause, count_after, last_count, next_count};
ghost use Rattle.vcp_outside.specs.FailingCalls.{no_calls, one_more, broken_after, NextFails, FailsAlso};
ghost use Rattle.vcp_outside.specs.Held.{Begins, OnlyLackingOrBroken, OnlyBroken};
ghost use Rattle.vcp_outside.specs.MemFiles.{latest, last_named};

use crate::failed::Failed;
use crate::failing_calls::FailingCalls;
use crate::files::Files;
use std::alloc::Global;
use std::marker::Model;
use vcp_base::{Memory, Text};

/// A file that was put.
#[derive(Drop)]
pub struct Entry {
    /// The name, which is compared byte by byte. Of entries with one name the last holds.
    pub name: Text,
    /// The whole content of the file.
    pub bytes: Text,
}

// The place of the begun entry, and how many of its bytes were read.
#[derive(Clone, Copy)]
struct Begun {
    entry: usize,
    at: usize,
}

/// Files in memory, which tell all of their bytes. They are seen as the entries that were put, in order, the
/// unread bytes of the begun file, the two counts, and the calls so far with those that are made to fail. A
/// call fails exactly where it was made to fail, or begins a lacking name. `faults` rises by one at each of
/// these, `broken` exactly at a call that was made to fail.
#[derive(Drop)]
pub struct MemFiles {
    alloc: Global,
    entries: Vec<Entry>,
    begun: Option<Begun>,
    faults: u64,
    broken: u64,
    calls: FailingCalls,
}

impl Model for MemFiles {
    ghost use Rattle.vcp_outside.specs.MemFiles.{FilesInMemory, unread_at, IsPlace};

    ghost Value = { FilesInMemory };

    ghost view = { λ s. record {
      entries = s.entries.items;
      unread = unread_at s.entries.items s.begun;
      faults = s.faults;
      broken = s.broken;
      calls = s.calls;
    } };

    ghost invariant = { λ s. IsPlace s.entries.items s.begun };
}

// The entry that was put last under a name.
fn find_latest(entries: &[Entry], name: &[u8]) -> Option<usize>
    ensures within { IfSome result (λ i. i < length entries.now) }
    ensures entry { option_and_then (slice_get entries.now) result ≡ last_named entries.now name.now }
{
    let mut found = None;
    'entries: for i in 0..entries.len() {
        if entries[i].name.bytes() == name {
            found = Some(i);
        }
    }
    found
}

// Copies as much as there is room for to the front of a buffer.
fn copy_front(buf: &mut [u8], bytes: &[u8]) -> usize
    ensures count { result ≡ min (length buf.old) (length bytes.now) }
    ensures front { take result buf.new ≡ take result bytes.now }
{
    let count = buf.len().min(bytes.len());
    buf[..count].copy_from_slice(&bytes[..count]);
    count
}

impl MemFiles {
    /// No files, none begun, and no call that is made to fail.
    pub fn new(alloc: Global) -> MemFiles
        ensures { result ≡ record { entries = []; unread = []; faults = 0; broken = 0; calls = no_calls } }
    {
        MemFiles {
            alloc,
            entries: Vec::new(alloc),
            begun: None,
            faults: 0,
            broken: 0,
            calls: FailingCalls::new(alloc),
        }
    }

    /// Sets the file of a name: of several, the one that was put last holds. A file that was begun
    /// is read on as it was, and the counts stay. After `Memory` nothing has changed.
    pub fn put(&mut self, name: &[u8], bytes: &[u8]) -> Result<(), Memory>
        ensures ok { OnOk result (self.new ≡ record self.old {
          entries = self.old.entries ++ record { name = name.now; bytes = bytes.now } ∷ [];
        }) }
        ensures err { OnErr result (self.new ≡ self.old) }
    {
        let name = Text::copy_of(self.alloc, name)?;
        let bytes = Text::copy_of(self.alloc, bytes)?;
        self.entries.push(Entry { name, bytes })?;
        Ok(())
    }

    /// Makes the call of a number fail, counted from 0 over all calls of `begin` and `read`. Such a
    /// call does nothing else: after a `begin` nothing is unread, after a `read` the same bytes are.
    /// After `Memory` nothing has changed.
    ///
    /// A number whose call was made already changes nothing.
    pub fn fail_call(&mut self, number: u64) -> Result<(), Memory>
        requires { number < 2 ^ 64 - 1 }
        ensures set { OnOk result (FailsAlso number self.old.calls self.new.calls) }
        ensures rest { OnOk result (self.new ≡ record self.old { calls = self.new.calls }) }
        ensures err { OnErr result (self.new ≡ self.old) }
    {
        self.calls.add(number)
    }

    // Counts that a call that was made to fail failed.
    fn count_break(&mut self)
        ensures { self.new ≡ record self.old { faults = next_count self.old.faults; broken = next_count self.old.broken } }
    {
        self.faults = self.faults.saturating_add(1);
        self.broken = self.broken.saturating_add(1);
    }
}

impl Files for MemFiles {
    ghost seen = { λ s. record { held = Some (latest s.entries); rest = Some s.unread; faults = s.faults; broken = s.broken } };

    fn begin(&mut self, name: &[u8]) -> Result<(), Failed>
        ensures held { latest self.new.entries ≡ latest self.old.entries }
        ensures begins { Begins (Some (latest self.old.entries)) name.now result (Some self.new.unread) }
        ensures cause { HasCause self.old.faults self.new.faults result }
        ensures broken_later { self.old.broken ≤ self.new.broken }
        ensures broken_capped { self.old.broken ≤ last_count → self.new.broken ≤ last_count }
        ensures lacking { OnlyLackingOrBroken (Some (latest self.old.entries)) name.now self.old.broken self.new.broken result }

        // It fails exactly where it is made to fail or the name is lacking, and then nothing is
        // unread and the faults rise by one; the breaks rise exactly where it is made to fail.
        ensures fails { IsErr result ↔ (NextFails self.old.calls ⊎ (latest self.old.entries name.now ≡ None)) }
        ensures found { OnOk result (IfSome (latest self.old.entries name.now) (λ bytes.
            self.new ≡ record self.old { unread = bytes; calls = one_more self.old.calls })) }
        ensures lost { OnErr result (self.new ≡ record self.old {
          unread = [];
          faults = count_after result self.old.faults;
          broken = broken_after self.old.calls self.old.broken;
          calls = one_more self.old.calls;
        }) }
        ensures broke { self.new.broken ≡ broken_after self.old.calls self.old.broken }
    {
        if self.calls.next() {
            self.begun = None;
            self.count_break();
            return Err(Failed);
        }
        match find_latest(&self.entries, name) {
            Some(entry) => {
                self.begun = Some(Begun { entry, at: 0 });
                Ok(())
            }
            None => {
                self.begun = None;
                self.faults = self.faults.saturating_add(1);
                Err(Failed)
            }
        }
    }

    fn read(&mut self, buf: &mut [u8]) -> Result<usize, Failed>
        requires { 0 < length buf.old }
        ensures held { latest self.new.entries ≡ latest self.old.entries }
        ensures bound { ReadsAtMost result buf.new }
        ensures bytes { ReadConsumes (Some self.old.unread) (Some self.new.unread) result buf.new }
        ensures cause { HasCause self.old.faults self.new.faults result }
        ensures broken_later { self.old.broken ≤ self.new.broken }
        ensures broken_capped { self.old.broken ≤ last_count → self.new.broken ≤ last_count }
        ensures only_broken { OnlyBroken (Some (latest self.old.entries)) self.old.broken self.new.broken result }

        // It fails exactly where it is made to fail, and then the two counts alone rise, by one;
        // else it reads as much as there is room for.
        ensures fails { IsErr result ↔ NextFails self.old.calls }
        ensures count { IfOk result (λ n. n ≡ min (length buf.old) (length self.old.unread)) }
        ensures front { IfOk result (λ n. take n buf.new ≡ take n self.old.unread) }
        ensures after { IfOk result (λ n. self.new ≡ record self.old {
          unread = drop n self.old.unread;
          calls = one_more self.old.calls;
        }) }
        ensures broke { OnErr result (self.new ≡ record self.old {
          faults = count_after result self.old.faults;
          broken = count_after result self.old.broken;
          calls = one_more self.old.calls;
        }) }
    {
        if self.calls.next() {
            self.count_break();
            return Err(Failed);
        }
        let Some(begun) = self.begun else {
            return Ok(0);
        };
        let unread = &self.entries[begun.entry].bytes.bytes()[begun.at..];
        let count = copy_front(buf, unread);
        self.begun = Some(Begun {
            at: begun.at + count,
            ..begun
        });
        Ok(count)
    }
}
