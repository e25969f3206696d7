//! The words of a call and of its end.

use vcp_base::same_bytes;

/// The end of a call of `vcp` whose words are none of the forms: status 4 and its line of error.
const USAGE: &[u8] =
    b"4 usage: vcp check P, format P, plain P ROWS, run P ROWS CODE, compile P CODE, list M, exec M ROWS, trace M ROWS CYCLE, inject M ROWS F, \
      audit M HORIZON, widen M, il P ROWS CODE, pair M ROWS SEED, pairs M ROWS SEED F, wire F or demo N";

/// That of `vcp_study`.
const STUDY_USAGE: &[u8] =
    b"4 usage: vcp_study graph M HORIZON, dot M HORIZON, waves FILE, waves FILE --cycle-time TIME, ranges M, ranges M --all, ranges M --inputs FILE, \
      ranges M --all --inputs FILE, cover M HORIZON CLASS, sites M CYCLES CLASS, sites M CYCLES CLASS FROM COUNT, \
      sites M CYCLES CLASS --count, sites M ROWS flips, sites M ROWS flips FROM COUNT, sites M ROWS flips --count, \
      sites M ROWS late, sites M ROWS late FROM COUNT, sites M ROWS late --count, sum M SCRIPT VERDICTS .., \
      sum M SCRIPT VERDICTS .. ROWS, faults M SCRIPT VERDICTS, script M NAMED, image P CODE or text P";

/// The name of another program than `vcp` that stands before a call's command, with the blank behind it.
pub fn program_of(words: &[u8]) -> &'static [u8] {
    if words.starts_with(b"vcp_study ") {
        b"vcp_study "
    } else if words.starts_with(b"call ") {
        b"call "
    } else {
        b""
    }
}

/// The end of a call of a program that is written so: status 0 where nothing is written, and the usage line for `usage`.
pub fn whole_end<'e>(program: &[u8], end: &'e [u8]) -> &'e [u8] {
    if end.is_empty() {
        b"0"
    } else if !same_bytes(end, b"usage") {
        end
    } else if program.is_empty() {
        USAGE
    } else {
        STUDY_USAGE
    }
}
