//! The host's files.

ghost use Rattle.std.specs.Prelude.{◌≡◌, ◌<◌, ◌≤◌, ◌↔◌, None, Ok, false, length, IsTrue, IsOk, IfSome, OnOk, IsUtf8};
ghost use Rattle.std.specs.Io.{ReadsAtMost};
ghost use Rattle.std.specs.Io.KnownBytes.{ReadConsumes};
ghost use Rattle.vcp_outside.specs.Held.{Begins};
ghost use Rattle.vcp_outside.specs.Counts.{HasCause, count_after, last_count};

use crate::failed::Failed;
use crate::files::Files;
use std::io::Read;
use std::marker::Model;
use std::{fs, rt};

/// The files of a runtime, by their paths. A path that isn't UTF-8 is a fault. As `Files` they tell
/// no bytes. They are seen as whether a file is begun, the bytes that it still gives, where that is
/// known of the runtime, and the count of faults, which is both numbers of `Files`.
///
/// A file is begun exactly after `Ok`, under a name in UTF-8. Without a begun file a read is at the end. The
/// count rises by one at each failure, up to its last value, and at nothing else; all that it fails for
/// counts as broken.
pub struct HostFiles<'a, R: rt::Files> {
    runtime: &'a R,
    file: Option<R::File>,
    faults: u64,
}

impl<'a, R: rt::Files> Model for HostFiles<'a, R> {
    ghost use Rattle.std.specs.Prelude.{is_some, option_and_then};
    ghost use Rattle.vcp_outside.specs.HostFiles.{FilesOnHost};

    ghost Value = { FilesOnHost };

    ghost view = { λ s. record {
      is_begun = is_some s.file;
      unread = option_and_then (λ file. R.File.remaining file) s.file;
      faults = s.faults;
    } };
}

impl<R: rt::Files> Drop for HostFiles<'_, R> {
    fn drop(self) {
        let HostFiles {
            runtime: _,
            file: _,
            faults: _,
        } = self;
    }
}

impl<'a, R: rt::Files> HostFiles<'a, R> {
    /// The files of a runtime, of which none is begun.
    pub fn new(runtime: &'a R) -> Self
        ensures { result ≡ record { is_begun = false; unread = None; faults = 0 } }
    {
        HostFiles {
            runtime,
            file: None,
            faults: 0,
        }
    }
}

// Opens the file of a path, which is in UTF-8.
fn open_path<R: rt::Files>(runtime: &R, name: &[u8]) -> Option<R::File>
    ensures { IfSome result (λ file. IsUtf8 name.now) }
{
    let Ok(path) = str::from_utf8(name) else {
        return None;
    };
    match fs::open(runtime, path) {
        Ok(file) => Some(file),
        Err(_) => None,
    }
}

impl<R: rt::Files> Files for HostFiles<'_, R> {
    ghost seen = { λ s. record { held = None; rest = None; faults = s.faults; broken = s.faults } };

    fn begin(&mut self, name: &[u8]) -> Result<(), Failed>
        ensures begins { Begins None name.now result None }
        ensures cause { HasCause self.old.faults self.new.faults result }
        ensures broken_later { self.old.faults ≤ self.new.faults }
        ensures broken_capped { self.old.faults ≤ last_count → self.new.faults ≤ last_count }

        // A file is begun exactly after `Ok`, under a name in UTF-8, and each failure counts.
        ensures begun { IsTrue self.new.is_begun ↔ IsOk result }
        ensures utf8 { OnOk result (IsUtf8 name.now) }
        ensures faults { self.new.faults ≡ count_after result self.old.faults }
    {
        self.file = open_path(self.runtime, name);
        if self.file.is_some() {
            return Ok(());
        }
        self.faults = self.faults.saturating_add(1);
        Err(Failed)
    }

    fn read(&mut self, buf: &mut [u8]) -> Result<usize, Failed>
        requires { 0 < length buf.old }
        ensures bound { ReadsAtMost result buf.new }
        ensures bytes { ReadConsumes None None result buf.new }
        ensures cause { HasCause self.old.faults self.new.faults result }
        ensures broken_later { self.old.faults ≤ self.new.faults }
        ensures broken_capped { self.old.faults ≤ last_count → self.new.faults ≤ last_count }

        // Where no file is begun it stands at the end, else it gives what the file gives, and each
        // failure counts.
        ensures at_end { self.old.is_begun ≡ false → result ≡ Ok 0 }
        ensures begun { self.new.is_begun ≡ self.old.is_begun }
        ensures consumed { ReadConsumes self.old.unread self.new.unread result buf.new }
        ensures faults { self.new.faults ≡ count_after result self.old.faults }
    {
        let Some(file) = &mut self.file else {
            return Ok(0);
        };
        match file.read(buf) {
            Ok(count) => Ok(count),
            Err(_) => {
                self.faults = self.faults.saturating_add(1);
                Err(Failed)
            }
        }
    }
}
