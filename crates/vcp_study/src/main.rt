//! The program `vcp_study`: reads the words, and runs the top call over the runtime's files and streams. Behind the word `play` the words name sessions,
//! and it plays these, which is no command of the top call. The worked rows of both programs are such sessions: this program's `args` and `stdout`, which
//! `checks/count_rows.py --write` writes, have all of them played.
#![tactic(auto)]

mod own_unit;
mod play;

use play::play_sessions;
use std::process::ExitCode;
use vcp_base::same_bytes;
use vcp_outside::{HostFiles, HostSink, given_words, status_without_words};
use vcp_study_core::vcp_study;

fn main(rt: HostRuntime) -> ExitCode {
    let words = match given_words(&rt) {
        Ok(words) => words,
        Err(e) => return ExitCode::from(status_without_words(e.kind())),
    };
    // The words behind `play` name sessions.
    let is_play = words.len() > 0 && same_bytes(words.at(0).bytes(), b"play");
    let mut files = HostFiles::new(&rt);
    let mut out = HostSink::new(rt.stdout());
    let mut err = HostSink::new(rt.stderr());
    let status = if is_play {
        play_sessions(rt.alloc(), &mut files, &words, &mut out, &mut err)
    } else {
        vcp_study(rt.alloc(), &words, &mut files, &mut out, &mut err)
    };
    ExitCode::from(status)
}
