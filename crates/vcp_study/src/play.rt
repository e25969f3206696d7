//! The worked rows, which are sessions: a session says which files there are, which calls are made of `vcp`, of `vcp_study` or of a library, what each
//! call's unit answers, and what each call gives. `docs/dev/SESSIONS.md` has its lines.

mod calls;
mod host;
mod sessions;
mod texts;
mod told;

use host::play_file;
use sessions::Player;
use std::alloc::Global;
use vcp_base::Words;
use vcp_outside::{Files, Sink, write_all};

/// Plays the sessions that the words behind the first one name, and writes how many calls each has. Where some came out otherwise than the session says, it
/// tells each on the errors, with its file, its line, what was wanted and what came. The status is 0 where all is written and nothing came otherwise, else 1.
pub fn play_sessions<F: Files, O: Sink, E: Sink>(
    alloc: Global,
    files: &mut F,
    words: &Words,
    out: &mut O,
    err: &mut E,
) -> u8 {
    let mut player = Player::new(alloc);
    for i in 1..words.len() {
        play_file(alloc, files, words.at(i).bytes(), &mut player);
    }
    if write_all(out, &player.told).is_ok()
        && write_all(err, &player.faults).is_ok()
        && player.faults.is_empty()
    {
        0
    } else {
        1
    }
}
