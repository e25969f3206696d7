//! The statements of instructions.

ghost use Rattle.std.specs.Prelude.{◌≡◌, ◌<◌, ◌≤◌, IfOk, Some};
ghost use Rattle.vcp_base.specs.Limits.{most_names};
ghost use Rattle.vcp_base.specs.declared.ty.Ty.TheVariants as ty_;
ghost use Rattle.vcp_typed.specs.TExprViews.{texpr_tree};
ghost use Rattle.vcp_typed.specs.TStmtViews.{tstmt_tree, tstmt_trees, tstmts_and};
ghost use Rattle.vcp_typed.specs.TStmtTree.{assign as assign_tree, if_ as if_tree, no_tstmts, and_tstmt, no_tarms, and_tarm, no_tother};
ghost use Rattle.vcp_typed.specs.TExprTree.{TExprTree, literal as literal_tree};
ghost use Rattle.vcp_base.specs.Kinds.{truth};
ghost use Rattle.vcp_typed.specs.Rules.{common as common_of};
ghost use Rattle.st_types.specs.ExprTyping.{widened as widened_of};
ghost use Rattle.st_types.specs.Full.{UnlessFull};
ghost use Rattle.il_front.specs.Places.{place_in};
ghost use Rattle.il_front.specs.TypedForm.{operand_expr as operand_expr_of, turned as turned_of, kept as kept_of, combining as combining_of};
ghost use Rattle.il_front.specs.TypedForm.{action_stmt, statements as statements_of};

use crate::instruction::{Action, Instruction, Operand};
use crate::places::Places;
use crate::types::{next_type, operand_type};
use st_tree::{BinOp, UnOp};
use st_types::{common, widened_from};
use std::alloc::Global;
use vcp_base::{Memory, Spot, Ty};
use vcp_typed::{TArm, TArms, TExpr, TStmt, TStmts, result};

// An operand as an expression.
fn operand_expr(at: Spot, operand: Operand) -> TExpr
    ensures { texpr_tree result ≡ operand_expr_of at operand }
{
    match operand {
        Operand::Variable { slot, ty } => TExpr::get(slot, ty),
        Operand::Number { ty, value } => TExpr::literal(ty, value, at),
    }
}

// The expression that was made; any one where memory ran out.
fn made(e: Result<TExpr, Memory>, full: &mut bool) -> TExpr
    ensures { (d : TExprTree) → IfOk e (λ v. texpr_tree v ≡ d) → UnlessFull full.old full.new (texpr_tree result ≡ d) }
{
    match e {
        Ok(e) => e,
        Err(Memory) => {
            *full = true;
            TExpr::get(0, Ty::Bool)
        }
    }
}

// An expression with NOT before it, where there is an N.
fn turned(alloc: Global, negated: bool, spot: Spot, e: TExpr, full: &mut bool) -> TExpr
    ensures { UnlessFull full.old full.new (texpr_tree result ≡ turned_of negated spot (texpr_tree e)) }
{
    if negated {
        made(TExpr::unary(alloc, UnOp::Not, Ty::Bool, e, spot), full)
    } else {
        e
    }
}

// An expression of the type `from` where one of type `ty` is wanted.
fn widened(alloc: Global, ty: Ty, from: Ty, e: TExpr, full: &mut bool) -> TExpr
    ensures { UnlessFull full.old full.new (texpr_tree result ≡ widened_of ty from (texpr_tree e)) }
{
    made(widened_from(alloc, ty, from, e), full)
}

// The kept result of the type.
fn kept(places: Places, ty: Ty) -> TExpr
    requires { places.declared ≤ most_names }
    ensures { texpr_tree result ≡ kept_of (place_in places) ty }
{
    TExpr::get(places.place(ty), ty)
}

// An operator on the kept result of type `ty` and an operand of type `other`, both widened to a common type.
fn combining(
    alloc: Global,
    places: Places,
    op: BinOp,
    spot: Spot,
    ty: Ty,
    e: TExpr,
    other: Ty,
    full: &mut bool,
) -> TStmt
    requires { places.declared ≤ most_names }
    ensures { UnlessFull full.old full.new
        (tstmt_tree result ≡ combining_of (place_in places) op spot ty (texpr_tree e) other (common_of op ty other)) }
{
    match common(op, ty, other) {
        None => TStmt::assign(places.place(ty), kept(places, ty), spot),
        Some(wide) => {
            let left = widened(alloc, wide, ty, kept(places, ty), full);
            let right = widened(alloc, wide, other, e, full);
            let value = made(TExpr::binary(alloc, op, wide, left, right, spot), full);
            TStmt::assign(places.place(result(op, wide)), value, spot)
        }
    }
}

// What a variable of type `to` gets of the kept result of type `ty`.
fn stored(
    alloc: Global,
    places: Places,
    negated: bool,
    spot: Spot,
    ty: Ty,
    to: Ty,
    full: &mut bool,
) -> TExpr
    requires { places.declared ≤ most_names }
    ensures { UnlessFull full.old full.new
        (texpr_tree result ≡ widened_of to ty (turned_of negated spot (kept_of (place_in places) ty))) }
{
    let value = turned(alloc, negated, spot, kept(places, ty), full);
    widened(alloc, to, ty, value, full)
}

// Appends a statement.
fn append(body: &mut TStmts, s: TStmt, full: &mut bool)
    ensures { UnlessFull full.old full.new
        (tstmt_trees body.new.items.items ≡ tstmts_and (tstmt_trees body.old.items.items) (tstmt_tree s)) }
{
    match body.push(s) {
        Ok(()) => {}
        Err(Memory) => *full = true,
    }
}

// A variable becomes TRUE or FALSE, where the kept result of the type is TRUE.
fn putting(
    alloc: Global,
    places: Places,
    spot: Spot,
    at: Spot,
    ty: Ty,
    to: bool,
    slot: u32,
    full: &mut bool,
) -> TStmt
    requires { places.declared ≤ most_names }
    ensures { UnlessFull full.old full.new (tstmt_tree result ≡ if_tree (and_tarm (kept_of (place_in places) ty)
        (and_tstmt (assign_tree slot (literal_tree ty_.Bool (truth to) at) at) no_tstmts) spot no_tarms) no_tother) }
{
    let value = if to { 1 } else { 0 };
    let mut body = TStmts::new(alloc);
    append(
        &mut body,
        TStmt::assign(slot, TExpr::literal(Ty::Bool, value, at), at),
        full,
    );
    let mut arms = TArms::new(alloc);
    match arms.push(TArm {
        cond: kept(places, ty),
        body,
        spot,
    }) {
        Ok(()) => TStmt::if_(arms, None),
        Err(Memory) => {
            *full = true;
            TStmt::if_(arms, None)
        }
    }
}

// The statement of an instruction, where the result before it has the type.
fn statement(
    alloc: Global,
    places: Places,
    instruction: Instruction,
    ty: Ty,
    full: &mut bool,
) -> TStmt
    requires { places.declared ≤ most_names }
    ensures { UnlessFull full.old full.new
        (tstmt_tree result ≡ action_stmt (place_in places) instruction.spot instruction.at ty instruction.action) }
{
    let spot = instruction.spot;
    let at = instruction.at;
    match instruction.action {
        Action::Load { negated, operand } => {
            let value = turned(alloc, negated, spot, operand_expr(at, operand), full);
            TStmt::assign(places.place(operand_type(operand)), value, spot)
        }
        Action::Store {
            negated,
            slot,
            ty: to,
        } => TStmt::assign(slot, stored(alloc, places, negated, spot, ty, to, full), at),
        Action::Put { to, slot, .. } => putting(alloc, places, spot, at, ty, to, slot, full),
        Action::Complement => {
            let value = turned(alloc, true, spot, kept(places, ty), full);
            TStmt::assign(places.place(ty), value, spot)
        }
        Action::Combine {
            op,
            negated,
            operand,
        } => {
            let e = turned(alloc, negated, spot, operand_expr(at, operand), full);
            combining(alloc, places, op, spot, ty, e, operand_type(operand), full)
        }
    }
}

/// The statements of instructions. The flag is set where memory runs out, and then they are any.
pub fn statements(alloc: Global, places: Places, code: &[Instruction], full: &mut bool) -> TStmts
    requires { places.declared ≤ most_names }
    ensures { UnlessFull full.old full.new (tstmt_trees result.items.items ≡ statements_of (place_in places) ty_.Bool code.now) }
{
    let mut body = TStmts::new(alloc);
    let mut ty = Ty::Bool;
    'each: for k in 0..code.len() {
        let i = code[k];
        append(&mut body, statement(alloc, places, i, ty, full), full);
        ty = next_type(ty, i.action);
    }
    body
}
