//! Initial values: literals, `-` before a literal without a type, and names of constants that are declared before.

ghost use Rattle.std.specs.Prelude.{◌≡◌, None, Some, neg_ℤ, option_and_then};
ghost use Rattle.st_tree.specs.ExprTree.{name as name_tree};
ghost use Rattle.st_tree.specs.ExprViews.{expr_tree};
ghost use Rattle.st_types.specs.declared.fault.Rule.TheVariants as rule_;
ghost use Rattle.st_types.specs.DeclSteps.{Judges};
ghost use Rattle.st_types.specs.ExprTyping.{both, sized as sized_of, literal_type as type_of_literal};
ghost use Rattle.st_types.specs.Faults.{fault};
ghost use Rattle.st_types.specs.Notes.{Notes};
ghost use Rattle.st_types.specs.Scope.{find};
ghost use Rattle.st_types.specs.StmtTyping.{form_of_entry, form_of_negated, known_form};

use crate::constants::Known;
use crate::fault::{Fault, Rule};
use crate::literal::{Untyped, literal_type, negated, sized};
use crate::names::Names;
use crate::note::note;
use crate::variable::is_constant;
use st_tree::Expr;
use vcp_base::{Spot, Ty};

// The constant that a literal is.
fn of_literal(ty: Option<Ty>, value: i64) -> Option<Known>
    ensures { result ≡ both known_form (Some (record { ty = ty; value = value })) (type_of_literal ty value) }
{
    match literal_type(ty, value) {
        None => None,
        Some(ty) => Some(Known { ty, value }),
    }
}

// The constant that a name is, by what was declared before; a variable is none.
fn of_name(names: &Names, name: &[u8]) -> Option<Known>
    ensures { result ≡ option_and_then (λ e. both known_form (form_of_entry e) (Some e.ty)) (find names.now name.now) }
{
    let Some(e) = names.find(name) else {
        return None;
    };
    if !is_constant(e.section) {
        return None;
    }
    Some(Known {
        ty: e.ty,
        value: e.value,
    })
}

// A `-` as an initial value: only a literal without a type may stand behind it.
fn negative(l: Option<Untyped>, spot: Spot, first: &mut Option<Fault>) -> Option<Known>
    ensures notes { Notes first.old first.new (λ f. (f ≡ fault rule_.Bound spot) × (l ≡ None)) }
    ensures gives { result ≡ option_and_then (λ x. both known_form (Some (form_of_negated x)) (sized_of (neg_ℤ x.value))) l }
{
    match l {
        None => {
            note(first, Rule::Bound, spot);
            None
        }
        Some(l) => {
            let Some(value) = l.value.checked_neg() else {
                return None;
            };
            Some(Known {
                ty: sized(value),
                value,
            })
        }
    }
}

// A name as an initial value.
fn name(names: &Names, name: &[u8], spot: Spot, first: &mut Option<Fault>) -> Option<Known>
    ensures { Judges names.now (name_tree name.now spot) first.old first.new result }
{
    match of_name(names, name) {
        None => {
            note(first, Rule::Bound, spot);
            None
        }
        Some(known) => Some(known),
    }
}

/// Judges an initial value by the names declared before it: notes that it is no constant form, and gives the constant
/// that it is, none where it is none. The faults inside it are not noted here.
pub(crate) fn initial(names: &Names, e: &Expr, first: &mut Option<Fault>) -> Option<Known>
    ensures { Judges names.now (expr_tree e.now) first.old first.new result }
{
    match e {
        Expr::Lit { ty, value, .. } => of_literal(*ty, *value),
        Expr::Name { name: n, spot } => name(names, n.bytes(), *spot, first),
        Expr::Unary { op, arg, spot } => negative(negated(*op, arg), *spot, first),
        Expr::Binary { spot, .. } => {
            note(first, Rule::Bound, *spot);
            None
        }
        Expr::Call { spot, .. } => {
            note(first, Rule::Bound, *spot);
            None
        }
    }
}
