//! The files of a session.

use crate::play::texts::{behind, count, part, spelled, word};
use crate::play::told::Told;
use std::alloc::Global;
use vcp_base::{Words, same_bytes};
use vcp_outside::MemFiles;

/// The files of a session: their names, and the text of each. Of several of a name the last holds.
pub struct SessionFiles {
    pub alloc: Global,
    names: Words,
    texts: Words,
}

impl Drop for SessionFiles {
    fn drop(self) {
        let SessionFiles {
            alloc: _,
            names: _,
            texts: _,
        } = self;
    }
}

impl SessionFiles {
    /// No files.
    pub fn new(alloc: Global) -> SessionFiles {
        SessionFiles {
            alloc,
            names: Words::new(alloc),
            texts: Words::new(alloc),
        }
    }

    /// What the file of a name has; nothing where there is none.
    pub fn text(&self, name: &[u8]) -> &[u8] {
        let mut place = self.names.len();
        for i in 0..self.names.len() {
            if same_bytes(self.names.at(i).bytes(), name) {
                place = i;
            }
        }
        part(&self.texts, place)
    }

    /// Sets the file of a name. Where there is no memory for it, it is lacking, and what it is wanted for comes otherwise.
    pub fn set(&mut self, name: &[u8], text: &[u8]) {
        let _ = self.names.push(name);
        let _ = self.texts.push(text);
    }

    /// Adds a text, which is spelled, so many times to the file of a name, or to none: `NAME TIMES TEXT`.
    pub fn add(&mut self, line: &[u8]) {
        let name = word(line, 0);
        let text = spelled(self.alloc, behind(line, 2));
        let mut whole = Told::new(self.alloc).say(self.text(name));
        for _i in 0..count(word(line, 1)) {
            whole = whole.say(&text);
        }
        self.set(name, &whole.text);
    }

    /// Makes a file of another with other bytes, which are spelled, from a place on: `NAME OTHER PLACE BYTES`.
    pub fn patch(&mut self, line: &[u8]) {
        let text = self.text(word(line, 1));
        let place = count(word(line, 2)) as usize;
        let bytes = spelled(self.alloc, behind(line, 3));
        let rest = place.saturating_add(bytes.len());
        let whole = Told::new(self.alloc)
            .say(text.get(..place).unwrap_or(text))
            .say(&bytes)
            .say(text.get(rest..).unwrap_or(b""));
        self.set(word(line, 0), &whole.text);
    }

    /// The files in memory, of which no call was made so far.
    pub fn in_memory(&self) -> MemFiles {
        let mut files = MemFiles::new(self.alloc);
        for i in 0..self.names.len() {
            let _ = files.put(self.names.at(i).bytes(), part(&self.texts, i));
        }
        files
    }
}
