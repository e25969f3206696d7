//! Calls of files and of sinks, one after another.

use crate::play::sessions::came::Came;
use crate::play::texts::{behind, count, part, parts_of, place_in, word};
use crate::play::told::Told;
use std::alloc::Global;
use std::io::{self, Write};
use vcp_base::same_bytes;
use vcp_outside::{Failed, Files, MemFiles, ReadAll, Sink, read_all, write_all};

/// Tells what files in memory answer to these steps, between which `;` stands.
pub fn tell_files(came: &mut Came, steps: &[u8], told: Told) -> Told {
    let mut told = told;
    let steps = parts_of(came.alloc, steps, b";");
    for i in 0..steps.len() {
        told = tell_file_step(&mut came.files, part(&steps, i), told);
    }
    told
}

/// Tells what files answer to a step: to `begin NAME`, and to `read N` with room for 2 or 8 bytes. `put NAME TEXT` answers nothing.
fn tell_file_step(files: &mut MemFiles, step: &[u8], told: Told) -> Told {
    let name = word(step, 1);
    match place_in(b"read put", word(step, 0)) {
        0 => tell_read(files, name, told),
        1 => {
            let _ = files.put(name, behind(step, 2));
            told
        }
        _ => match files.begin(name) {
            Ok(()) => told.item(b"begun"),
            Err(Failed) => told.item(b"failed"),
        },
    }
}

/// Tells what is read and how many bytes it has, where there is room for 2 or for 8.
fn tell_read(files: &mut MemFiles, room: &[u8], told: Told) -> Told {
    let mut buf = [0u8; 8];
    let read = if same_bytes(room, b"2") {
        files.read(&mut buf[..2])
    } else {
        files.read(&mut buf)
    };
    match read {
        Ok(count) => told
            .item(buf.get(..count).unwrap_or(b""))
            .number(count as i128),
        Err(Failed) => told.item(b"failed"),
    }
}

/// Tells how many bytes a file has that is read up to a limit, or why it isn't: `NAME LIMIT`.
pub fn tell_read_all(came: &mut Came, words: &[u8], told: Told) -> Told {
    let limit = count(word(words, 1)) as u64;
    match read_all(came.alloc, &mut came.files, word(words, 0), limit) {
        Ok(text) => told.number(text.len() as i128),
        Err(ReadAll::TooLong) => told.say(b"too long"),
        Err(_) => told.say(b"failed"),
    }
}

/// Tells how many bytes a sink writes at each of these steps, between which `;` stands: `write TEXT` or `write_all TEXT`.
pub fn tell_writes<O: Sink>(alloc: Global, sink: &mut O, steps: &[u8], told: Told) -> Told {
    let mut told = told;
    let steps = parts_of(alloc, steps, b";");
    for i in 0..steps.len() {
        let step = part(&steps, i);
        let text = behind(step, 1);
        let written = if same_bytes(word(step, 0), b"write") {
            sink.write(text)
        } else {
            match write_all(sink, text) {
                Ok(()) => Ok(text.len()),
                Err(Failed) => Err(Failed),
            }
        };
        told = match written {
            Ok(count) => told.number(count as i128),
            Err(Failed) => told.item(b"failed"),
        };
    }
    told
}

/// A writer that takes all bytes, and whose flush fails.
#[derive(Drop)]
pub struct NeverFlushed;

impl Write for NeverFlushed {
    fn write(&mut self, buf: &[u8]) -> io::Result<usize> {
        Ok(buf.len())
    }

    fn flush(&mut self) -> io::Result<()> {
        Err(io::Error::from(io::ErrorKind::StorageFull))
    }
}
