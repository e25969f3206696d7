//! Playing sessions.

use crate::play::sessions::came::Came;
use crate::play::sessions::files::SessionFiles;
use crate::play::sessions::setting::{Setting, three};
use crate::play::sessions::words::{program_of, whole_end};
use crate::play::texts::{behind, copy_of, part, parts_of, put, spelled, word};
use crate::play::told::Told;
use std::alloc::Global;

/// A player of sessions, one after another.
pub struct Player {
    alloc: Global,
    /// A line for each session, which says how many calls it has.
    pub told: Vec<u8>,
    /// What came otherwise in the calls of sessions, and their lines without a meaning.
    pub faults: Vec<u8>,
    /// The name of the session's file, the number of its line, and how many calls were made.
    name: Vec<u8>,
    number: u32,
    made: u32,
    files: SessionFiles,
    /// The call that is open, whose end hasn't come, or else the next one.
    setting: Setting,
}

impl Drop for Player {
    fn drop(self) {
        let Player {
            alloc: _,
            told: _,
            faults: _,
            name: _,
            number: _,
            made: _,
            files: _,
            setting: _,
        } = self;
    }
}

impl Player {
    /// A player before its first session.
    pub fn new(alloc: Global) -> Player {
        Player {
            alloc,
            told: Vec::new(alloc),
            faults: Vec::new(alloc),
            name: Vec::new(alloc),
            number: 0,
            made: 0,
            files: SessionFiles::new(alloc),
            setting: Setting::new(alloc),
        }
    }

    /// Begins the session of a name, without files.
    pub fn begin(&mut self, name: &[u8]) {
        self.name = copy_of(self.alloc, name);
        self.number = 0;
        self.made = 0;
        self.files = SessionFiles::new(self.alloc);
        self.setting = Setting::new(self.alloc);
    }

    /// Plays the lines of a session, and tells how many calls it has.
    pub fn play(&mut self, text: &[u8]) {
        let lines = parts_of(self.alloc, text, b"\n");
        for i in 0..lines.len() {
            self.line(part(&lines, i));
        }
        if self.setting.is_open {
            self.note(b"no end of a call at the end of", b"the session");
        }
        let line = Told::new(self.alloc)
            .say(&self.name)
            .say(b": ")
            .number(self.made as i128)
            .say(b" calls\n");
        put(&mut self.told, &line.text);
    }

    /// Notes what is said of a text in this line.
    pub fn note(&mut self, said: &[u8], text: &[u8]) {
        let line = Told::new(self.alloc)
            .say(&self.name)
            .say(b", line")
            .number(self.number as i128)
            .say(b": ")
            .say(said)
            .say(b" `")
            .say(text)
            .say(b"`\n");
        put(&mut self.faults, &line.text);
    }

    /// Does what the next line says. A line that sets something for a call, or begins one, has its place where none is open; each other where one is. An
    /// empty one says something only where a call is open.
    fn line(&mut self, line: &[u8]) {
        self.number = self.number.saturating_add(1);
        let mark = match line {
            [mark] => *mark,
            [mark, b' ', ..] => *mark,
            _ => 0,
        };
        let is_open = self.setting.is_open;
        let is_before = matches!(mark, b'<' | b'+' | b'~' | b'@' | b'%' | b'!' | b'$');
        if mark == b'#' || line.is_empty() && !is_open {
            return;
        }
        if is_before == is_open {
            self.note(b"not the place of", line);
        } else if is_before {
            self.before_a_call(mark, behind(line, 1));
        } else {
            self.after_a_call(line, mark, behind(line, 1));
        }
    }

    /// Does what a line of this mark says, which sets something for the next call, or begins it.
    fn before_a_call(&mut self, mark: u8, rest: &[u8]) {
        match mark {
            b'<' => {
                let text = spelled(self.alloc, behind(rest, 1));
                self.files.set(word(rest, 0), &text);
            }
            b'+' => self.files.add(rest),
            b'~' => self.files.patch(rest),
            b'@' => {
                let _ = self.setting.answers.push(rest);
            }
            b'%' => self.setting.rooms = three(rest),
            b'!' => self.setting.fail(rest),
            _ => self.open(rest),
        }
    }

    /// Does what a line of this mark says, which wants something of the open call, or is its end.
    fn after_a_call(&mut self, line: &[u8], mark: u8, rest: &[u8]) {
        match mark {
            b'|' => self.setting.want(&spelled(self.alloc, rest)),
            b'&' => put(&mut self.setting.output, self.files.text(rest)),
            b'*' | b'?' => {
                let _ = self.setting.others.push(line);
            }
            b'=' => self.make(rest, b""),
            b'>' => self.make(behind(rest, 1), word(rest, 0)),
            _ => self.setting.want(line),
        }
    }

    /// Begins a call, which is its end as well where its one line of output stands behind ` => `.
    fn open(&mut self, line: &[u8]) {
        let parts = parts_of(self.alloc, line, b" => ");
        self.setting.is_open = true;
        self.setting.words = copy_of(self.alloc, part(&parts, 0));
        if parts.len() > 1 {
            self.setting.want(part(&parts, 1));
            self.make(b"", b"");
        }
    }

    /// Makes the open call, which ends so, for each of its commands, between which `,` stands.
    fn make(&mut self, end: &[u8], kept: &[u8]) {
        let whole = copy_of(self.alloc, &self.setting.words);
        let program = program_of(&whole);
        let words = whole.get(program.len()..).unwrap_or(b"");
        let commands = word(words, 0);
        let rest = words.get(commands.len()..).unwrap_or(b"");
        let commands = parts_of(self.alloc, commands, b",");
        for i in 0..commands.len() {
            let words = Told::new(self.alloc)
                .say(program)
                .say(part(&commands, i))
                .say(rest);
            self.make_one(&words.text, whole_end(program, end), kept);
        }
        self.setting = Setting::new(self.alloc);
    }

    /// Makes a call of these words, notes what came otherwise, and keeps its output as the file of a name where one is given.
    fn make_one(&mut self, words: &[u8], end: &[u8], kept: &[u8]) {
        self.made = self.made.saturating_add(1);
        let setting = &self.setting;
        let Some(came) = setting.came(&self.files, words, setting.outside, setting.counts[0]) else {
            self.note(b"no memory for", words);
            return;
        };
        let is_compared = kept.is_empty() || !self.setting.output.is_empty();
        let told = self.judged(words, &came, end, is_compared);
        if !told.text.is_empty() {
            self.note(&told.text, words);
        }
        if !kept.is_empty() {
            self.files.set(kept, came.out.bytes());
        }
    }

    /// Tells what came otherwise of a call of these words, which ends so, and whose output is compared or not.
    fn judged(&self, words: &[u8], came: &Came, end: &[u8], is_compared: bool) -> Told {
        let mut told = Told::new(self.alloc);
        let mut asked = 0u32;
        for i in 0..self.setting.others.len() {
            let line = self.setting.others.at(i).bytes();
            told = came.compare(line, asked, told);
            if line.starts_with(b"?") {
                asked = asked.saturating_add(1);
            }
        }
        let told = came.tell_difference(&self.setting, end, is_compared, told);
        self.setting.each_otherwise(&self.files, words, came, told)
    }
}
