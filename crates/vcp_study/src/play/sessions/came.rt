//! What came of a call, and what of it is otherwise than it has to be.

use crate::play::calls::{single_call, tell_answer};
use crate::play::sessions::setting::{Outside, Setting};
use crate::play::texts::{behind, part, parts_of, place_in, spelled, word};
use crate::play::told::Told;
use coded_unit::BadUnit;
use std::alloc::Global;
use vcp_base::{Memory, Words, kind_name, same_bytes};
use vcp_core::vcp;
use vcp_outside::{MemFiles, MemSink};
use vcp_study_core::vcp_study;

/// What a call of a program is handed, and what came of it.
pub struct Came {
    pub alloc: Global,
    pub files: MemFiles,
    pub unit: BadUnit,
    pub out: MemSink,
    pub err: MemSink,
    pub status: u8,
}

impl Drop for Came {
    fn drop(self) {
        let Came {
            alloc: _,
            files: _,
            unit: _,
            out: _,
            err: _,
            status: _,
        } = self;
    }
}

impl Came {
    /// Makes the call of a number of an object fail.
    pub fn fail(&mut self, outside: Outside, number: u32) -> Result<(), Memory> {
        match outside {
            Outside::Files => self.files.fail_call(number as u64),
            Outside::Output => self.out.fail_call(number as u64),
            Outside::Errors => self.err.fail_call(number as u64),
            _ => Ok(()),
        }
    }

    /// Makes a call of these words, before which the name of another program than `vcp` stands. The status is what it gives.
    pub fn call(&mut self, words: &[u8]) {
        let rest = behind(words, 1);
        self.status = match place_in(b"call vcp_study", word(words, 0)) {
            0 => single_call(self, rest),
            1 => vcp_study(
                self.alloc,
                &words_of(self.alloc, rest),
                &mut self.files,
                &mut self.out,
                &mut self.err,
            ),
            _ => vcp(
                self.alloc,
                &words_of(self.alloc, words),
                &mut self.files,
                &mut self.unit,
                &mut self.out,
                &mut self.err,
            ),
        };
    }

    /// Tells where something else came than a line wants, which says how often a text stands in the output or what the unit was asked in its call of this
    /// number; a call may end before its last fields.
    pub fn compare(&self, line: &[u8], asked: u32, told: Told) -> Told {
        let wanted = behind(line, 1);
        let came = if line.starts_with(b"*") {
            self.times(behind(wanted, 1))
        } else if wanted.starts_with(b"wrong") {
            Told::new(self.alloc)
                .say(b"wrong")
                .number(self.unit.wrong() as i128)
        } else {
            self.answered(asked)
        };
        if came.text.starts_with(wanted)
            && matches!(came.text.get(wanted.len()), None | Some(b' '))
        {
            return told;
        }
        told.instead(wanted, &came.text)
    }

    /// How often a text, which is spelled, stands in the output, and the text behind that.
    fn times(&self, text: &[u8]) -> Told {
        let parts = parts_of(self.alloc, self.out.bytes(), &spelled(self.alloc, text));
        Told::new(self.alloc)
            .number(parts.len() as i128 - 1)
            .say(b" ")
            .say(text)
    }

    /// The call of a number of the unit, as a session writes it.
    fn answered(&self, asked: u32) -> Told {
        let told = Told::new(self.alloc);
        match self.unit.entry(asked) {
            Some((call, answer)) => tell_answer(
                &answer,
                told.number(call.cycle as i128)
                    .number(call.op as i128)
                    .item(kind_name(call.kind)),
            )
            .number(call.corr as i128)
            .number(call.stamp as i128)
            .number(call.a.get())
            .number(call.b.get())
            .number(call.c.get()),
            None => told.say(b"end"),
        }
    }

    /// Tells the first line of what came that differs from what is wanted: of the output, where it is compared, and of this end, as a session writes it
    /// behind `=`. Of the line of error that comes which there is room for.
    pub fn tell_difference(
        &self,
        setting: &Setting,
        end: &[u8],
        is_compared: bool,
        told: Told,
    ) -> Told {
        let error = self.err.bytes();
        let came = Told::new(self.alloc);
        let came = if is_compared {
            came.say(self.out.bytes())
        } else {
            came
        };
        let came = came.say(b"= ").number(self.status as i128);
        let came = if error.is_empty() {
            came.say(b"\n")
        } else {
            came.say(b" ").say(error)
        };
        let wanted = Told::new(self.alloc)
            .say(&setting.output)
            .say(b"= ")
            .say(end);
        let wanted = if error.len() < setting.rooms[1] as usize {
            wanted.say(b"\n")
        } else {
            wanted
        };
        told.unless_same(self.alloc, &wanted.text, &came.text)
    }

    /// Whether a call in which a call of an object fails ended as it has to, where the whole one ended so: where the files fail with 5, a front of the
    /// output and the line of a read fault; where the output fails with 6, a part of it and the line of a write fault; where the errors fail with 6, all
    /// of the output and a part of the line. Where none fails the same came.
    pub fn is_broken_of(&self, whole: &Came, outside: Outside) -> bool {
        let err = self.err.bytes();
        let line = whole.err.bytes();
        let out = self.out.bytes();
        let all = whole.out.bytes();
        let is_all = out.len() == all.len();
        let is_ended = match outside {
            Outside::Files => self.status == 5 && err.ends_with(b" read fault\n"),
            Outside::Output => self.status == 6 && !is_all && same_bytes(err, b"write fault\n"),
            Outside::Errors => self.status == 6
                && is_all
                && err.len() < line.len()
                && line.starts_with(err),
            _ => self.status == whole.status && is_all && same_bytes(err, line),
        };
        is_ended && all.starts_with(out)
    }
}

/// The words of a text, with a blank between them; `''` is an empty word.
fn words_of(alloc: Global, text: &[u8]) -> Words {
    let mut words = Words::new(alloc);
    let parts = parts_of(alloc, text, b" ");
    for i in 0..parts.len() {
        let word = part(&parts, i);
        if same_bytes(word, b"''") {
            let _ = words.push(b"");
        } else if !word.is_empty() {
            let _ = words.push(word);
        }
    }
    words
}
