//! The elementary types of the language.

ghost use Rattle.std.specs.Prelude.{◌≡◌, true, FitsSigned};
ghost use Rattle.std.specs.Int.{w64};
ghost use Rattle.vcp_base.specs.Types.{least as least_of, greatest as greatest_of, fits as fits_of, within as within_of};
ghost use Rattle.vcp_base.specs.Types.{same_type as same_type_of, is_bool as is_bool_of, is_number as is_number_of};

/// An elementary type of IEC 61131-3, which is a range of integers.
#[derive(Clone, Copy, PartialEq, Eq)]
pub enum Ty {
    /// 0 and 1.
    Bool,
    /// -32768 to 32767.
    Int,
    /// -2147483648 to 2147483647.
    Dint,
    /// -9223372036854775808 to 9223372036854775807.
    Lint,
}

/// The least value of the type.
pub fn least(ty: Ty) -> i64
    ensures { result ≡ least_of ty }
{
    match ty {
        Ty::Bool => 0,
        Ty::Int => -32768,
        Ty::Dint => -2147483648,
        Ty::Lint => i64::MIN,
    }
}

/// The greatest value of the type.
pub fn greatest(ty: Ty) -> i64
    ensures { result ≡ greatest_of ty }
{
    match ty {
        Ty::Bool => 1,
        Ty::Int => 32767,
        Ty::Dint => 2147483647,
        Ty::Lint => i64::MAX,
    }
}

/// Whether `v` is a value of the type, from its least to its greatest. Each value of a type has 64 bits.
#[inline(always)]
pub fn fits(ty: Ty, v: i128) -> bool
    ensures value { result ≡ fits_of ty v }
    ensures width { result ≡ true → FitsSigned w64 v }
{
    match ty {
        Ty::Bool => 0 <= v && v <= 1,
        Ty::Int => -32768 <= v && v <= 32767,
        Ty::Dint => -2147483648 <= v && v <= 2147483647,
        Ty::Lint => i64::MIN as i128 <= v && v <= i64::MAX as i128,
    }
}

/// Whether each value of the first type is accepted where the second is wanted, without conversion: the
/// types are equal, or both are among INT, DINT and LINT and the first comes before the second.
pub fn within(small: Ty, wide: Ty) -> bool
    ensures { result ≡ within_of small wide }
{
    match (small, wide) {
        (Ty::Bool, Ty::Bool) => true,
        (Ty::Bool, Ty::Int | Ty::Dint | Ty::Lint) => false,
        (Ty::Int, Ty::Int | Ty::Dint | Ty::Lint) => true,
        (Ty::Int, Ty::Bool) => false,
        (Ty::Dint, Ty::Dint | Ty::Lint) => true,
        (Ty::Dint, Ty::Bool | Ty::Int) => false,
        (Ty::Lint, Ty::Lint) => true,
        (Ty::Lint, Ty::Bool | Ty::Int | Ty::Dint) => false,
    }
}

/// Whether two types are one.
pub fn same_type(one: Ty, other: Ty) -> bool
    ensures { result ≡ same_type_of one other }
{
    match (one, other) {
        (Ty::Bool, Ty::Bool) => true,
        (Ty::Int, Ty::Int) => true,
        (Ty::Dint, Ty::Dint) => true,
        (Ty::Lint, Ty::Lint) => true,
        _ => false,
    }
}

/// Whether the type is BOOL.
pub fn is_bool(ty: Ty) -> bool
    ensures { result ≡ is_bool_of ty }
{
    matches!(ty, Ty::Bool)
}

/// Whether the type is INT, DINT or LINT.
pub fn is_number(ty: Ty) -> bool
    ensures { result ≡ is_number_of ty }
{
    !is_bool(ty)
}
