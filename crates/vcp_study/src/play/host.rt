//! Playing a file.

use crate::play::sessions::Player;
use std::alloc::Global;
use vcp_outside::{Files, read_all};

/// The most bytes of a file.
const MOST_BYTES: u64 = 1 << 24;

/// Whether files answer as those of the host have to, where one that is lacking is begun behind one that is there, whose rest is gone then.
fn is_lacking_told<F: Files>(files: &mut F, name: &[u8]) -> bool {
    let mut buf = [0u8; 1];
    files.begin(name).is_ok()
        && files.begin(b"lacking").is_err()
        && matches!(files.read(&mut buf), Ok(0))
        && files.begin(b"\xff").is_err()
}

/// Plays the file of a name.
pub fn play_file<F: Files>(alloc: Global, files: &mut F, name: &[u8], player: &mut Player) {
    player.begin(name);
    match read_all(alloc, files, name, MOST_BYTES) {
        Ok(text) if is_lacking_told(files, name) => player.play(text.bytes()),
        Ok(_) => player.note(
            b"the host's files don't answer as they have to behind",
            name,
        ),
        Err(_) => player.note(b"lacking, fails or is too long:", name),
    }
}
