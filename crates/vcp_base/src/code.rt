//! The two codes, and what is counted modulo their constants.

ghost use Rattle.std.specs.Prelude.{◌≡◌, ◌<◌, ◌^◌};
ghost use Rattle.vcp_base.specs.Code.{modulus as modulus_of, admits as admits_of};

use crate::ty::Ty;

/// A residue modulo the constant of a code: of a word, or a signature, a correction or a weight. It
/// is 0 to the constant less 1.
pub type Residue = u64;

/// A code. Each graph has one.
#[derive(Clone, Copy, PartialEq, Eq)]
pub enum Profile {
    /// The code with the constant 2^31 - 1, which has no words of LINT.
    Narrow,
    /// The code with the constant 2^61 - 1.
    Wide,
}

/// The constant of a code, modulo which residues are counted. No promise rests on its being prime. There are
/// two codes, narrow and wide; the constant of each is positive and below 2^61.
pub fn modulus(profile: Profile) -> Residue
    ensures value { result ≡ modulus_of profile }
    ensures positive { 0 < result }
    ensures below { result < 2 ^ 61 }
{
    match profile {
        Profile::Narrow => 2147483647,
        Profile::Wide => 2305843009213693951,
    }
}

/// Whether the code has words of the type: the narrow one has none of LINT. The wide one has words of all.
pub fn admits(profile: Profile, ty: Ty) -> bool
    ensures { result ≡ admits_of profile ty }
{
    match ty {
        Ty::Bool | Ty::Int | Ty::Dint => true,
        Ty::Lint => matches!(profile, Profile::Wide),
    }
}
