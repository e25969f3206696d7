//! Inverses modulo the constant of a code, by Euclid's algorithm. Nothing rests on the constant being prime.

ghost use Rattle.std.specs.Prelude.{◌≡◌, ◌≢◌, ◌<◌, ◌≤◌, ◌^◌, pos, ◌*ℤ◌, ◌-ℤ◌, ◌≤ℤ◌, true, false};
ghost use Rattle.vcp_base.specs.Code.{modulus as modulus_of};
ghost use Rattle.coded_unit.specs.Words.{modulo};
ghost use Rattle.fault_cover.specs.Sources.{HasInverse, Refuses};
ghost use Rattle.fault_cover.specs.Euclid.{ComesTo, IsBezout};

use coded_unit::{remainder, words_split_in_one_way};
use signature_table::constants_are_in_range;
use vcp_base::{Profile, Residue, modulus};

/// A number, and a factor by which a residue becomes it, modulo the constant of the code.
#[derive(Clone, Copy)]
struct Division {
    divisor: Residue,
    factor: Residue,
}

/// A product of two residues.
pub(crate) fn product(a: Residue, b: Residue) -> i128
    requires first { a < 2 ^ 61 }
    requires second { b < 2 ^ 61 }
    ensures value { result ≡ pos a *ℤ pos b }
    ensures low { pos 0 ≤ℤ result }
    ensures high { result ≤ℤ pos (2 ^ 122) }
{
    a as i128 * b as i128
}

/// A residue less so often another, modulo the constant of the code.
fn less(profile: Profile, number: Residue, times: Residue, other: Residue) -> Residue
    requires number { number < 2 ^ 61 }
    requires times { times < 2 ^ 61 }
    requires other { other < 2 ^ 61 }
    ensures value { result ≡ modulo profile (pos number -ℤ pos times *ℤ pos other) }
    ensures below { result < modulus_of profile }
{
    remainder(profile, number as i128 - product(times, other))
}

/// Divides two numbers, to which a residue `z` comes by their factors, until nothing is left: what is left before is their greatest common divisor.
fn divided(profile: Profile, z: Residue, first: Division, second: Division) -> Division
    requires first { ComesTo profile z first.divisor first.factor }
    requires second { ComesTo profile z second.divisor second.factor }
    requires first_factor { first.factor < modulus_of profile }
    requires second_factor { second.factor < modulus_of profile }
    requires first_most { first.divisor ≤ modulus_of profile }
    requires second_most { second.divisor < modulus_of profile }
    ensures bezout { IsBezout profile z first.divisor second.divisor result.divisor result.factor }
    ensures below { result.factor < modulus_of profile }
{
    // The constant is below 2^61.
    constants_are_in_range();
    words_split_in_one_way();
    if second.divisor == 0 {
        return first;
    }
    let times = first.divisor / second.divisor;
    let divisor = first.divisor % second.divisor;
    let factor = less(profile, first.factor, times, second.factor);
    divided(profile, z, second, Division { divisor, factor })
}

/// Whether a residue has an inverse: the factor is found by which it becomes the greatest common divisor of the constant and it, and tried by one
/// multiplication.
pub(crate) fn has_inverse(profile: Profile, z: Residue) -> bool
    requires { z < modulus_of profile }
    ensures yes { result ≡ true → HasInverse profile (pos z) }
    ensures no { result ≡ false → HasInverse profile (pos z) → ⊥ }
{
    constants_are_in_range();
    words_split_in_one_way();
    let constant = Division {
        divisor: modulus(profile),
        factor: 0,
    };
    let residue = Division {
        divisor: z,
        factor: 1,
    };
    let found = divided(profile, z, constant, residue);
    remainder(profile, product(z, found.factor)) == 1
}

/// Whether a residue is other than 0.
fn differs(residue: Residue) -> bool
    ensures yes { result ≡ true → residue ≢ 0 }
    ensures no { result ≡ false → residue ≡ 0 }
{
    residue != 0
}

/// Whether an output refuses what arrives at it, where that is this, or this for each 1 of a number of which nothing is known.
pub(crate) fn refuses(profile: Profile, any: bool, comes: Residue) -> bool
    requires { comes < modulus_of profile }
    ensures yes { result ≡ true → Refuses profile any (pos comes) }
    ensures no { result ≡ false → Refuses profile any (pos comes) → ⊥ }
{
    words_split_in_one_way();
    if any {
        has_inverse(profile, comes)
    } else {
        differs(comes)
    }
}
