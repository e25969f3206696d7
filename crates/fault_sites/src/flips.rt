//! Flips of bits of words, whose signs are taken from a run without faults.

ghost use Rattle.std.specs.Prelude.{◌≡◌, ◌<◌, ◌/◌, ◌%◌, ◌^◌, ◌==◌};
ghost use Rattle.vcp_base.specs.Limits.{most_cycles};
ghost use Rattle.vcp_base.specs.Values.{at as at_of};
ghost use Rattle.fault_sites.specs.Flips.{bit_of, flip as flip_of, flipped_bits};
ghost use Rattle.fault_sites.specs.RunCycle.{expected_word as expected_word_of};

use crate::cycle_values::CycleValues;
use crate::graph_values::at;
use crate::values::power;
use coded_unit::Word;
use fault_script::Act;
use signature_table::{Table, expected};

/// How many bits of a word are flipped.
pub(crate) const BITS: u32 = 32;

/// The word of operation `k` in cycle `n` where nothing is amiss and its value is `v`.
pub(crate) fn expected_word(table: &Table, n: u32, k: u32, v: i64) -> Word
    requires { n < most_cycles }
    ensures { result ≡ expected_word_of table.now n k v }
{
    let residue = expected(table.profile(), table.seed(), table.step(), k, n);
    Word::packed(table.profile(), v as i128, residue)
}

/// Bit `b` of a number.
fn number_bit(n: u128, b: u32) -> bool
    requires { b < flipped_bits }
    ensures { result ≡ (n / 2 ^ b % 2 == 1) }
{
    (n >> b) % 2 == 1
}

/// Bit `b` of a word in two's complement.
#[tactic(auto, using(crate::proofs::Bits::plus_bit, crate::proofs::Bits::minus_bit))]
fn bit(w: Word, b: u32) -> bool
    requires { b < flipped_bits }
    ensures { result ≡ bit_of w b }
{
    let code = w.get();
    let size = code.unsigned_abs();
    if code < 0 {
        !number_bit(size - 1, b)
    } else {
        number_bit(size, b)
    }
}

/// Bit `b` of the result of operation `k` is flipped: minus 2^b is added where the bit is 1, and plus 2^b where it is 0.
pub(crate) fn flipped(c: &CycleValues<'_>, k: u32, b: u32) -> Act
    requires few { c.now.cycle < most_cycles }
    requires bit { b < flipped_bits }
    ensures { result ≡ Act.ResultAdd (flip_of (expected_word_of c.now.table.now c.now.cycle k (at_of c.now.values.now k)) b) }
{
    let word = expected_word(c.table, c.cycle, k, at(c.values, k as u64));
    let size = power(b);
    if bit(word, b) {
        return Act::ResultAdd { e: -size };
    }
    Act::ResultAdd { e: size }
}
