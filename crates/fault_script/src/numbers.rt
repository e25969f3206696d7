//! The numbers and the kinds that words write.

ghost use Rattle.std.specs.Prelude.{◌≡◌, ◌<◌, ◌≤◌, ◌^◌, true, IfSome};
ghost use Rattle.vcp_base.specs.Limits.{most_cycles};
ghost use Rattle.fault_script.specs.Forms.{number_below as number_below_of, cycle_of, index_of, addend_of, kind_of};
ghost use Rattle.vcp_base.specs.Integers.{is_addend as is_addend_of};

use vcp_base::{Kind, MOST_CYCLES, Ty, is_addend, kind_name, kind_of_code, number_in, numeral};

// The number that one to ten digits write, where it is below the bound.
fn number_below(bound: u64, word: &[u8]) -> Option<u32>
    requires { bound ≤ 2 ^ 32 }
    ensures value { result ≡ number_below_of bound word.now }
    ensures below { IfSome result (λ n. n < bound) }
{
    match numeral(word) {
        Some(number) if number < bound => Some(number as u32),
        _ => None,
    }
}

/// The number of a cycle, below 1,000,000.
pub fn cycle_number(word: &[u8]) -> Option<u32>
    ensures value { result ≡ cycle_of word.now }
    ensures below { IfSome result (λ n. n < most_cycles) }
{
    number_below(MOST_CYCLES as u64, word)
}

/// The number of an operation, an operand or a register, or of a line, a column or a bit.
pub fn index_number(word: &[u8]) -> Option<u32>
    ensures { result ≡ index_of word.now }
{
    number_below(1 << 32, word)
}

/// The number that is added: an optional sign and digits, at most 2^62 in size.
#[tactic(auto, using(crate::proofs::Written::cut_addend))]
pub fn addend(word: &[u8]) -> Option<i64>
    ensures value { result ≡ addend_of word.now }
    ensures moderate { IfSome result (λ e. is_addend_of e ≡ true) }
{
    let e = number_in(Ty::Lint, word)?;
    if is_addend(e) { Some(e) } else { None }
}

/// The kind with the name, which is in capitals.
#[tactic(auto, using(crate::proofs::Written::kind_at, crate::proofs::Written::no_kind_at))]
pub fn kind_named(word: &[u8]) -> Option<Kind>
    ensures { result ≡ kind_of word.now }
{
    'kinds: for code in 0..19u8 {
        let kind = kind_of_code(code)?;
        if word == kind_name(kind) {
            return Some(kind);
        }
    }
    None
}
