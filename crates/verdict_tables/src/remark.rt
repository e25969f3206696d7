//! Which image a script is for.

ghost use Rattle.std.specs.Prelude.{◌≡◌};
ghost use Rattle.verdict_tables.specs.Remark.{is_for as is_for_of};

use fault_sites::next_is;
use vcp_base::{WordsLeft, first_line};

/// Whether a script names the image with this digest, or none. It names one in the remark on its first line,
/// where that is a remark of sites.
pub fn is_for(digest: &[u8], script: &[u8]) -> bool
    ensures { result ≡ is_for_of digest.now script.now }
{
    if script.is_empty() {
        return true;
    }
    let (line, _) = first_line(script);
    let mut words = WordsLeft::new(line);
    if !next_is(&mut words, b"#") {
        return true;
    }
    if !next_is(&mut words, b"sites") {
        return true;
    }
    let Some(_) = words.next() else {
        return true;
    };
    if !next_is(&mut words, b"of") {
        return true;
    }
    match words.next() {
        Some(named) => named == digest,
        None => true,
    }
}
