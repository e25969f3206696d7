//! The functions of the language: their names, their arguments and their types.

ghost use Rattle.std.specs.Prelude.{◌≡◌, map};
ghost use Rattle.vcp_typed.specs.TExprViews.{texpr_tree};
ghost use Rattle.vcp_typed.specs.Checked.{ty_of as type_of_value};
ghost use Rattle.st_types.specs.ExprSteps.{first_wanted as first_wanted_of};
ghost use Rattle.st_types.specs.ExprTyping.{conversion_named as conversion_named_of, function as function_of, called as called_of};
ghost use Rattle.st_types.specs.ExprTyping.{function_type as function_type_of};

use crate::operator::{joined, joined_or_bool};
use vcp_base::{Ty, within};
use vcp_typed::{Fun, TExpr, conversion, ty_of};

// The conversion of a name.
fn conversion_named(name: &[u8]) -> Option<Fun>
    ensures { result ≡ conversion_named_of name.now }
{
    if name.eq_ignore_ascii_case(b"INT_TO_DINT") {
        Some(Fun::IntToDint)
    } else if name.eq_ignore_ascii_case(b"INT_TO_LINT") {
        Some(Fun::IntToLint)
    } else if name.eq_ignore_ascii_case(b"DINT_TO_INT") {
        Some(Fun::DintToInt)
    } else if name.eq_ignore_ascii_case(b"DINT_TO_LINT") {
        Some(Fun::DintToLint)
    } else if name.eq_ignore_ascii_case(b"LINT_TO_INT") {
        Some(Fun::LintToInt)
    } else if name.eq_ignore_ascii_case(b"LINT_TO_DINT") {
        Some(Fun::LintToDint)
    } else if name.eq_ignore_ascii_case(b"BOOL_TO_INT") {
        Some(Fun::BoolToInt)
    } else {
        None
    }
}

// The function of a name.
fn function(name: &[u8]) -> Option<Fun>
    ensures { result ≡ function_of name.now }
{
    if name.eq_ignore_ascii_case(b"ABS") {
        Some(Fun::Abs)
    } else if name.eq_ignore_ascii_case(b"MIN") {
        Some(Fun::Min)
    } else if name.eq_ignore_ascii_case(b"MAX") {
        Some(Fun::Max)
    } else if name.eq_ignore_ascii_case(b"LIMIT") {
        Some(Fun::Limit)
    } else if name.eq_ignore_ascii_case(b"SEL") {
        Some(Fun::Sel)
    } else {
        conversion_named(name)
    }
}

/// The function of that name, where it has that number of arguments.
pub(crate) fn called(name: &[u8], count: usize) -> Option<Fun>
    ensures { result ≡ called_of name.now count }
{
    let Some(fun) = function(name) else {
        return None;
    };
    let arity = match fun {
        Fun::Min | Fun::Max => 2,
        Fun::Limit | Fun::Sel => 3,
        _ => 1,
    };
    if count == arity { Some(fun) } else { None }
}

/// The type of a function's value, where it takes these arguments.
pub(crate) fn function_type(fun: Fun, args: &[TExpr]) -> Option<Ty>
    ensures { result ≡ function_type_of fun (map type_of_value (map texpr_tree args.now)) }
{
    match args {
        [a] => match fun {
            Fun::Abs => joined(ty_of(a), ty_of(a)),
            _ => {
                let Some((source, ty)) = conversion(fun) else {
                    return None;
                };
                if within(ty_of(a), source) {
                    Some(ty)
                } else {
                    None
                }
            }
        },
        [a, b] => match fun {
            Fun::Min | Fun::Max => joined(ty_of(a), ty_of(b)),
            _ => None,
        },
        [a, b, c] => match (fun, ty_of(a)) {
            (Fun::Limit, a) => match joined(a, ty_of(b)) {
                None => None,
                Some(ty) => joined(ty, ty_of(c)),
            },
            (Fun::Sel, Ty::Bool) => joined_or_bool(ty_of(b), ty_of(c)),
            _ => None,
        },
        _ => None,
    }
}

/// The type that is wanted of the first argument of a function whose value has the type `ty`; of each further one
/// this type itself is wanted.
pub(crate) fn first_wanted(fun: Fun, ty: Ty) -> Ty
    ensures { result ≡ first_wanted_of fun ty }
{
    match fun {
        Fun::Abs | Fun::Min | Fun::Max | Fun::Limit => ty,
        Fun::Sel | Fun::BoolToInt => Ty::Bool,
        Fun::IntToDint | Fun::IntToLint => Ty::Int,
        Fun::DintToInt | Fun::DintToLint => Ty::Dint,
        Fun::LintToInt | Fun::LintToDint => Ty::Lint,
    }
}
