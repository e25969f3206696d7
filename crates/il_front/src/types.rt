//! The types of results and operands.

ghost use Rattle.std.specs.Prelude.{◌≡◌};
ghost use Rattle.il_front.specs.Accumulator.{operand_type as type_of_operand};
ghost use Rattle.il_front.specs.Judging.{if_bool as if_bool_of, type_behind as type_behind_of};
ghost use Rattle.il_front.specs.Judging.{slot_in as slot_in_of, action_of as action_of_operator};
ghost use Rattle.il_front.specs.TypedForm.{next_type as next_type_of};

use crate::instruction::{Action, Operand};
use crate::operator::Operator;
use st_types::common;
use vcp_base::{Ty, is_bool, within};
use vcp_typed::result;

/// The type of an operand.
pub fn operand_type(operand: Operand) -> Ty
    ensures { result ≡ type_of_operand operand }
{
    match operand {
        Operand::Variable { ty, .. } => ty,
        Operand::Number { ty, .. } => ty,
    }
}

// The slot of a variable; 0 of a number.
fn slot_in(operand: Operand) -> u32
    ensures { result ≡ slot_in_of operand }
{
    match operand {
        Operand::Variable { slot, .. } => slot,
        Operand::Number { .. } => 0,
    }
}

/// What the operator does with the operand.
pub fn action_of(operator: Operator, operand: Operand) -> Action
    ensures { result ≡ action_of_operator operator operand }
{
    match operator {
        Operator::Load { negated } => Action::Load { negated, operand },
        Operator::Store { negated } => Action::Store {
            negated,
            slot: slot_in(operand),
            ty: operand_type(operand),
        },
        Operator::Put { to } => Action::Put {
            to,
            slot: slot_in(operand),
            ty: operand_type(operand),
        },
        Operator::Complement => Action::Complement,
        Operator::Combine { op, negated } => Action::Combine {
            op,
            negated,
            operand,
        },
    }
}

// The type `then`, where `ty` is BOOL if it must be.
fn if_bool(must: bool, ty: Ty, then: Option<Ty>) -> Option<Ty>
    ensures { result ≡ if_bool_of must ty then }
{
    if must && !is_bool(ty) { None } else { then }
}

/// The type of the result behind an action; none where the action doesn't take the types.
pub fn type_behind(ty: Ty, action: Action) -> Option<Ty>
    ensures { result ≡ type_behind_of ty action }
{
    match action {
        Action::Load { negated, operand } => {
            if_bool(negated, operand_type(operand), Some(operand_type(operand)))
        }
        Action::Store {
            negated,
            ty: to,
            ..
        } => {
            let kept = if within(ty, to) { Some(ty) } else { None };
            if_bool(negated, ty, kept)
        }
        Action::Put { ty: to, .. } => if_bool(true, ty, if_bool(true, to, Some(ty))),
        Action::Complement => if_bool(true, ty, Some(ty)),
        Action::Combine {
            op,
            negated,
            operand,
        } => {
            let of = operand_type(operand);
            let combined = match common(op, ty, of) {
                None => None,
                Some(wide) => Some(result(op, wide)),
            };
            if_bool(negated, of, combined)
        }
    }
}

/// The type of the result behind an action that takes the types.
pub fn next_type(ty: Ty, action: Action) -> Ty
    ensures { result ≡ next_type_of ty action }
{
    match action {
        Action::Load { operand, .. } => operand_type(operand),
        Action::Store { .. } => ty,
        Action::Put { .. } => ty,
        Action::Complement => ty,
        Action::Combine { op, operand, .. } => match common(op, ty, operand_type(operand)) {
            None => ty,
            Some(wide) => result(op, wide),
        },
    }
}
