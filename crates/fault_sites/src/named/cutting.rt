//! What single words write.

ghost use Rattle.std.specs.Prelude.{◌≡◌, option_map};
ghost use Rattle.fault_sites.specs.NamedWords.{cut, spot_of};

use fault_script::index_number;
use memchr::memchr;
use vcp_base::Spot;

/// What is before and behind the first such byte of a word.
#[tactic(auto, using(vcp_base::proofs::Firsts::first_place, crate::proofs::Cuts::cut_is, crate::proofs::Cuts::no_cut))]
pub(crate) fn cut_at(word: &[u8], byte: u8) -> Option<(&[u8], &[u8])>
    ensures { option_map (λ r. (r.0.now, r.1.now)) result ≡ cut byte word.now }
{
    let place = memchr(byte, word).unwrap_or(word.len());
    if place == word.len() {
        return None;
    }
    Some((&word[..place], &word[place + 1..]))
}

/// The place in a source that a word writes as LINE:COL.
pub(crate) fn spot(word: &[u8]) -> Option<Spot>
    ensures { result ≡ spot_of word.now }
{
    let Some((front, back)) = cut_at(word, b':') else {
        return None;
    };
    let Some(line) = index_number(front) else {
        return None;
    };
    match index_number(back) {
        Some(col) => Some(Spot { line, col }),
        None => None,
    }
}
