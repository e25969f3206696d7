//! What is told: a text that grows. Where there is no memory for a part of it, that is lacking, so that the text is another one than what is wanted.

use crate::play::texts::{part, parts_of, put};
use itoa::Buffer;
use std::alloc::Global;
use vcp_base::same_bytes;

/// What is told so far.
pub struct Told {
    pub text: Vec<u8>,
}

impl Drop for Told {
    fn drop(self) {
        let Told { text: _ } = self;
    }
}

impl Told {
    /// Nothing.
    pub fn new(alloc: Global) -> Told {
        Told {
            text: Vec::new(alloc),
        }
    }

    /// Appends a text.
    pub fn say(self, more: &[u8]) -> Told {
        let Told { mut text } = self;
        put(&mut text, more);
        Told { text }
    }

    /// Appends a name as an item, with a blank before it where it stands behind a letter or a digit.
    pub fn item(self, name: &[u8]) -> Told {
        let Told { mut text } = self;
        if let Some(last) = text.last()
            && last.is_ascii_alphanumeric()
        {
            put(&mut text, b" ");
        }
        put(&mut text, name);
        Told { text }
    }

    /// Appends a number as an item.
    pub fn number(self, number: i128) -> Told {
        self.item(Buffer::new().format(number).as_bytes())
    }

    /// Appends what was wanted, and what came in its place.
    pub fn instead(self, wanted: &[u8], came: &[u8]) -> Told {
        self.item(b"wanted `")
            .say(wanted)
            .say(b"`, came `")
            .say(came)
            .say(b"` of")
    }

    /// Appends the first line of a text that differs from what was wanted, where one does.
    pub fn unless_same(self, alloc: Global, wanted: &[u8], came: &[u8]) -> Told {
        if same_bytes(wanted, came) {
            return self;
        }
        let wanted = parts_of(alloc, wanted, b"\n");
        let came = parts_of(alloc, came, b"\n");
        let mut same = 0usize;
        for i in 0..wanted.len() {
            if same == i && same_bytes(part(&wanted, i), part(&came, i)) {
                same = same.saturating_add(1);
            }
        }
        self.instead(part(&wanted, same), part(&came, same))
    }
}
