//! Single calls of libraries, of what no command shows. Each answers a line, or more, or bytes, which a session compares as it does an output.

mod elements;
mod graphs;
mod images;
mod large_images;
mod machines;
mod made;
mod steps;
mod units;
mod values;
mod words;

use crate::play::sessions::came::Came;
use crate::play::texts::{behind, count, place_in, word};
use crate::play::told::Told;
use coded_unit::CpuUnit;
use steps::NeverFlushed;
use vcp_outside::{Failed, HostSink, write_all};
use words::numbers_in;
pub use words::tell_answer;

/// Makes the single call of these words, and writes what it answers: that of `sink` on the errors, since it writes its texts to the output. The status is
/// 0; 6 where there is no room.
pub fn single_call(came: &mut Came, words: &[u8]) -> u8 {
    let name = word(words, 0);
    let rest = behind(words, 1);
    let told = Told::new(came.alloc);
    let written = match place_in(b"element sink", name) {
        0 => elements::write_element(&mut came.out),
        1 => {
            let told = steps::tell_writes(came.alloc, &mut came.out, rest, told);
            write_all(&mut came.err, &told.say(b"\n").text)
        }
        _ => {
            let told = tell(came, name, rest, told);
            write_all(&mut came.out, &told.text)
        }
    };
    match written {
        Ok(()) => 0,
        Err(Failed) => 6,
    }
}

/// Tells what the call of a name answers, which has these words: an image, or lines.
fn tell(came: &mut Came, name: &[u8], words: &[u8], told: Told) -> Told {
    let n = numbers_in(words, &[]);
    match place_in(b"answer again names chain graph units", name) {
        0 => units::tell_answers(came.alloc, &mut CpuUnit::new(), words, told),
        1 => images::tell_again(came, words, told),
        2 => large_images::tell_names(count(words), told),
        3 => large_images::tell_chain(count(words), told),
        4 => graphs::tell_graph(came, &n, words, told),
        5 => units::tell_units(came, &n, words, told),
        _ => tell_line(came, name, &n, words, told).say(b"\n"),
    }
}

/// Tells what the call of a name answers that answers one line.
fn tell_line(came: &mut Came, name: &[u8], n: &[i128; 12], words: &[u8], told: Told) -> Told {
    match place_in(b"places files read_all unflushed filled made", name) {
        0 => images::tell_places(came, n, words, told),
        1 => steps::tell_files(came, words, told),
        2 => steps::tell_read_all(came, words, told),
        3 => steps::tell_writes(came.alloc, &mut HostSink::new(NeverFlushed), words, told),
        4 => graphs::tell_filled(came.alloc, told),
        5 => made::tell_made(came.alloc, count(words), told),
        _ => values::tell_value(came, name, n, words, told),
    }
}
