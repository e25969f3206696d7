//! What lies outside a program: files that it reads, sinks that it writes to, and the words that it is given.
//!
//! `Files` and `Sink` say in ghost members what is held, read and written, where that is known, and
//! count their faults. `MemFiles` and `MemSink` are in memory, show all, and fail at the calls that
//! are made to fail. `HostFiles` and `HostSink` are on the host and show no bytes. A call answers
//! `Failed` only where a count rose.
//!
//! `Line` gathers the pieces of a line on its way to a sink, so that a line of at most `ROOM` bytes is
//! handed over at once. It takes no memory.
#![tactic(auto)]

mod arguments;
mod failed;
mod failing_calls;
mod files;
mod host_files;
mod host_sink;
mod line;
mod line_pen;
mod mem_files;
mod mem_sink;
mod pen;
mod pending;
mod reading;
mod sink;
mod svg;
mod writing;

pub use arguments::{given_words, status_without_words, words_of};
pub use failed::Failed;
pub use files::Files;
pub use host_files::HostFiles;
pub use host_sink::HostSink;
pub use line::{Line, ROOM};
pub use line_pen::{LinePen, begin};
pub use mem_files::{Entry, MemFiles};
pub use mem_sink::MemSink;
pub use pen::Pen;
pub use reading::{ReadAll, read_all, read_all_counting};
pub use sink::Sink;
pub use svg::{
    Escaping, Name, Piece, Tag, begin_picture, end_picture, pictures_are_well_formed, then_element,
};
pub use writing::write_all;
