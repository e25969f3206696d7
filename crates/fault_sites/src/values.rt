//! The numbers that are added.

ghost use Rattle.std.specs.Prelude.{◌≡◌, ◌<◌, ◌^◌, pos};
ghost use Rattle.fault_sites.specs.Sites.{addend as addend_of, addend_count};
ghost use Rattle.fault_sites.specs.Acts.{addition};

use fault_script::Act;

/// How many numbers are added to a word.
pub(crate) const ADDENDS: u32 = 124;

/// A power of two, at most 2^61.
pub fn power(k: u32) -> i64
    requires { k < 62 }
    ensures { result ≡ pos (2 ^ k) }
{
    (1u64 << k) as i64
}

/// Number `v` of those that are added, the least first: from -2^61 to -1, and then from 1 to 2^61.
pub(crate) fn addend(v: u32) -> i64
    requires { v < addend_count }
    ensures { result ≡ addend_of v }
{
    if v < 62 {
        -power(61 - v)
    } else {
        power(v - 62)
    }
}

/// Number `v` is added to the result in the first row, and to an operand in each further one.
pub(crate) fn bit(row: u32, v: u32) -> Act
    requires { v < addend_count }
    ensures { result ≡ addition row (addend_of v) }
{
    let e = addend(v);
    if row == 0 {
        Act::ResultAdd { e }
    } else {
        Act::OperandAdd { j: row - 1, e }
    }
}
