//! What a call is made with, and what it has to give.

use crate::play::sessions::came::Came;
use crate::play::sessions::files::SessionFiles;
use crate::play::texts::{behind, count, integer, place_in, put, word};
use crate::play::told::Told;
use coded_unit::{Answer, BadUnit, Word};
use std::alloc::Global;
use vcp_base::Words;
use vcp_outside::MemSink;

/// What a call of a program is handed and that can fail.
#[derive(Clone, Copy)]
pub enum Outside {
    /// The files, of which each `begin` and each `read` is a call.
    Files,
    /// The sink of the output, of which each write is a call.
    Output,
    /// The sink of the errors.
    Errors,
    /// Nothing: none fails.
    Nothing,
    /// Each of them: every call of each fails in a call of its own.
    Each,
}

/// What a call is made with, beside the files, and what it has to give.
pub struct Setting {
    /// What the unit answers: the number of its call, and the answer.
    pub answers: Words,
    /// For how many bytes of output and of errors there is room, and how many of the unit's calls are kept.
    pub rooms: [u32; 3],
    /// Which object has a call that is made to fail, and that call's number; of each, how many calls the files, the output and the errors have.
    pub outside: Outside,
    pub counts: [u32; 3],
    /// Whether the call is open, whose end hasn't come; its words.
    pub is_open: bool,
    pub words: Vec<u8>,
    /// The output that is wanted, and the lines with texts that have to occur in it and with calls of the unit.
    pub output: Vec<u8>,
    pub others: Words,
}

impl Drop for Setting {
    fn drop(self) {
        let Setting {
            answers: _,
            rooms: _,
            outside: _,
            counts: _,
            is_open: _,
            words: _,
            output: _,
            others: _,
        } = self;
    }
}

impl Setting {
    /// No call so far, right answers, room for a megabyte each and for 4,096 calls, and no call that is made to fail.
    pub fn new(alloc: Global) -> Setting {
        Setting {
            answers: Words::new(alloc),
            rooms: [1 << 20, 1 << 20, 4096],
            outside: Outside::Nothing,
            counts: [0; 3],
            is_open: false,
            words: Vec::new(alloc),
            output: Vec::new(alloc),
            others: Words::new(alloc),
        }
    }

    /// Has a call of an object fail, or each, with how many there are of each kind.
    pub fn fail(&mut self, line: &[u8]) {
        let which = word(line, 0);
        self.counts = three(behind(line, 1));
        self.outside = match place_in(b"files output errors", which) {
            0 => Outside::Files,
            1 => Outside::Output,
            2 => Outside::Errors,
            _ => Outside::Each,
        };
    }

    /// Wants a line of the output.
    pub fn want(&mut self, line: &[u8]) {
        put(&mut self.output, line);
        put(&mut self.output, b"\n");
    }

    /// What comes of a call of these words in which the call of a number of an object fails. Nothing where there is no memory for it.
    pub fn came(
        &self,
        files: &SessionFiles,
        words: &[u8],
        outside: Outside,
        number: u32,
    ) -> Option<Came> {
        if let Ok(out) = MemSink::new(files.alloc, self.rooms[0])
            && let Ok(err) = MemSink::new(files.alloc, self.rooms[1])
            && let Ok(unit) = BadUnit::new(files.alloc, self.rooms[2])
        {
            let mut came = Came {
                alloc: files.alloc,
                files: files.in_memory(),
                unit,
                out,
                err,
                status: 0,
            };
            self.replace(&mut came.unit);
            let _ = came.fail(outside, number);
            came.call(words);
            return Some(came);
        }
        None
    }

    /// Has a unit give the answers.
    fn replace(&self, unit: &mut BadUnit) {
        for i in 0..self.answers.len() {
            let line = self.answers.at(i).bytes();
            let _ = unit.replace(count(word(line, 0)) as u64, answer_in(word(line, 1)));
        }
    }

    /// Makes a call once for each call of each object, where that is wanted, and tells what came otherwise.
    pub fn each_otherwise(
        &self,
        files: &SessionFiles,
        words: &[u8],
        whole: &Came,
        told: Told,
    ) -> Told {
        if !matches!(self.outside, Outside::Each) {
            return told;
        }
        let told = self.failing(files, words, whole, Outside::Files, self.counts[0], told);
        let told = self.failing(files, words, whole, Outside::Output, self.counts[1], told);
        self.failing(files, words, whole, Outside::Errors, self.counts[2], told)
    }

    /// Makes a call once for each call of an object, which is made to fail, and once where none does. Tells what came otherwise: a call that failed and
    /// did not end as it has to, or another number of calls than is wanted: those of the numbers below that fail, and that of this number isn't made.
    fn failing(
        &self,
        files: &SessionFiles,
        words: &[u8],
        whole: &Came,
        outside: Outside,
        wanted: u32,
        told: Told,
    ) -> Told {
        let mut told = told;
        for number in 0..=wanted {
            let failed = if number < wanted {
                outside
            } else {
                Outside::Nothing
            };
            let is_right = match self.came(files, words, outside, number) {
                Some(came) => came.is_broken_of(whole, failed),
                None => false,
            };
            if !is_right {
                told = told
                    .item(b"otherwise where call")
                    .number(number as i128)
                    .say(b" of a kind fails, in");
            }
        }
        told
    }
}

/// The first three words as numbers.
pub fn three(words: &[u8]) -> [u32; 3] {
    [
        count(word(words, 0)),
        count(word(words, 1)),
        count(word(words, 2)),
    ]
}

/// The answer that is written so: the name of a stop, or else the integer of its word, which is 0 where it is none.
fn answer_in(text: &[u8]) -> Answer {
    match place_in(b"RANGE DIVZERO OPERAND", text) {
        0 => Answer::Range,
        1 => Answer::DivZero,
        2 => Answer::Operand,
        _ => Answer::Word(Word::new(integer(text)).unwrap_or(Word::ZERO)),
    }
}
