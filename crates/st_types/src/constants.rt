//! Constants: the bounds and steps of FORs, and the ends of labels.

ghost use Rattle.std.specs.Prelude.{◌≡◌, ◌≢◌, pos, IfSome, None, Some, option_and_then};
ghost use Rattle.st_tree.specs.ExprViews.{expr_tree, expr_tree_or_none};
ghost use Rattle.st_types.specs.declared.fault.Rule.TheVariants as rule_;
ghost use Rattle.st_types.specs.ExprTyping.{both};
ghost use Rattle.st_types.specs.Faults.{fault};
ghost use Rattle.st_types.specs.Notes.{Notes};
ghost use Rattle.st_types.specs.Full.{UnlessFull};
ghost use Rattle.st_types.specs.Scope.{find};
ghost use Rattle.st_types.specs.StmtTyping.{spot_of as spot_of_tree, form_of_entry, form as form_of_tree};
ghost use Rattle.st_types.specs.StmtTyping.{is_form_bool as is_form_bool_of, form_number as form_number_of, not_zero as not_zero_of};
ghost use Rattle.st_types.specs.StmtSteps.{Numbers, Bounds, Steps};

use crate::environment::Environment;
use crate::fault::{Fault, Rule};
use crate::literal::negated;
use crate::names::Names;
use crate::note::{Noted, note};
use crate::operator::type_of;
use crate::refusals::discard_some;
use crate::variable::is_constant;
use st_tree::Expr;
use vcp_base::{Spot, Ty, fits, is_bool};

/// The value of a constant form, with its type.
#[derive(Clone, Copy, Drop)]
pub struct Known {
    pub ty: Ty,
    pub value: i64,
}

/// A constant form: its value, and its type where one is written or declared. A literal may be outside its type.
#[derive(Clone, Copy, Drop)]
pub struct Form {
    pub ty: Option<Ty>,
    pub value: i128,
}

/// What is put where a number of a type is wanted: the number of the constant form, and the same where there is a type
/// and no fault inside the expression.
#[derive(Clone, Copy, Drop)]
pub struct Number {
    pub form: Option<i128>,
    pub value: Option<i64>,
}

/// The spot of an expression.
pub(crate) fn spot_of(e: &Expr) -> Spot
    ensures { result ≡ spot_of_tree (expr_tree e.now) }
{
    match e {
        Expr::Lit { spot, .. } => *spot,
        Expr::Name { spot, .. } => *spot,
        Expr::Unary { spot, .. } => *spot,
        Expr::Binary { spot, .. } => *spot,
        Expr::Call { spot, .. } => *spot,
    }
}

// The constant form that an expression is. The name of a variable has none.
fn form_of(names: &Names, e: &Expr) -> Option<Form>
    ensures { result ≡ form_of_tree names.now (expr_tree e.now) }
{
    match e {
        Expr::Lit { ty, value, .. } => Some(Form {
            ty: *ty,
            value: i128::from(*value),
        }),
        Expr::Name { name, .. } => {
            let Some(entry) = names.find(name.bytes()) else {
                return None;
            };
            if !is_constant(entry.section) {
                return None;
            }
            Some(Form {
                ty: Some(entry.ty),
                value: i128::from(entry.value),
            })
        }
        Expr::Unary { op, arg, .. } => match negated(*op, arg) {
            None => None,
            Some(l) => Some(Form {
                ty: None,
                value: -i128::from(l.value),
            }),
        },
        Expr::Binary { .. } | Expr::Call { .. } => None,
    }
}

// Whether a form of the type is BOOL; without a type it is a number.
fn is_form_bool(ty: Option<Ty>) -> bool
    ensures { result ≡ is_form_bool_of ty }
{
    match ty {
        None => false,
        Some(ty) => is_bool(ty),
    }
}

// The number of the type that a form is.
fn number_of(ty: Ty, form: Form) -> Option<i64>
    ensures { result ≡ form_number_of (Some ty) (Some form) }
{
    if is_form_bool(form.ty) {
        return None;
    }
    if fits(ty, form.value) {
        Some(form.value as i64)
    } else {
        None
    }
}

// The number that a form is, where it is no BOOL, and is in the type where there is one.
fn form_number(ty: Option<Ty>, form: Option<Form>) -> Option<i128>
    ensures { result ≡ form_number_of ty form }
{
    let Some(form) = form else {
        return None;
    };
    match ty {
        None => {
            if is_form_bool(form.ty) {
                None
            } else {
                Some(form.value)
            }
        }
        Some(ty) => match number_of(ty, form) {
            None => None,
            Some(value) => Some(i128::from(value)),
        },
    }
}

// The same of an expression of the type `found`, where both types are there.
fn number_in(ty: Option<Ty>, found: Option<Ty>, form: Option<Form>) -> Option<i64>
    ensures { result ≡ both (λ t u. form_number_of (Some t) form) ty found }
{
    match (ty, found, form) {
        (Some(ty), Some(_), Some(form)) => number_of(ty, form),
        _ => None,
    }
}

// The value, unless it is 0 or none.
fn not_zero(value: Option<i64>) -> Option<i64>
    ensures { result ≡ option_and_then not_zero_of value }
{
    let Some(value) = value else {
        return None;
    };
    if value == 0 { None } else { Some(value) }
}

// The same of the number of a form.
fn form_not_zero(value: Option<i128>) -> Option<i128>
    ensures { result ≡ option_and_then not_zero_of value }
{
    let Some(value) = value else {
        return None;
    };
    if value == 0 { None } else { Some(value) }
}

// Notes that a bound or step is none.
fn bound_fault(form: Option<i128>, spot: Spot, first: &mut Option<Fault>)
    ensures { Notes first.old first.new (λ f. (f ≡ fault rule_.Bound spot) × (form ≡ None)) }
{
    match form {
        None => note(first, Rule::Bound, spot),
        Some(_) => {}
    }
}

impl Environment<'_> {
    /// The number that an expression is, in the type where there is one: notes the faults inside it.
    pub(crate) fn read_number(&self, ty: Option<Ty>, e: &Expr, noted: &mut Noted) -> Number
        ensures { UnlessFull noted.old.full noted.new.full
            (Numbers self.now.names.now ty (expr_tree e.now) noted.old.first noted.new.first result) }
    {
        let x = self.type_expression(e, noted);
        let found = type_of(&x);
        discard_some(x);
        let form = form_of(self.names, e);
        Number {
            form: form_number(ty, form),
            value: number_in(ty, found, form),
        }
    }

    /// The bound of a FOR that an expression is, over a variable of the type: notes its faults, and where it
    /// is none.
    pub(crate) fn bound(&self, ty: Option<Ty>, e: &Expr, noted: &mut Noted) -> Option<i64>
        ensures { UnlessFull noted.old.full noted.new.full
            (Bounds self.now.names.now ty (expr_tree e.now) noted.old.first noted.new.first result) }
    {
        let found = self.read_number(ty, e, noted);
        bound_fault(found.form, spot_of(e), &mut noted.first);
        found.value
    }

    /// The step of a FOR, 1 where none is given: notes its faults, and where it is none.
    pub(crate) fn step(&self, ty: Option<Ty>, e: &Option<Expr>, noted: &mut Noted) -> Option<i64>
        ensures is { UnlessFull noted.old.full noted.new.full
            (Steps self.now.names.now ty (expr_tree_or_none e.now) noted.old.first noted.new.first result) }
        ensures some { IfSome result (λ v. v ≢ pos 0) }
    {
        match e {
            None => Some(1),
            Some(e) => {
                let found = self.read_number(ty, e, noted);
                bound_fault(form_not_zero(found.form), spot_of(e), &mut noted.first);
                not_zero(found.value)
            }
        }
    }
}
