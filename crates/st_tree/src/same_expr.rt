//! Equality of expressions that leaves spots aside.

ghost use Rattle.std.specs.Prelude.{◌≡◌, ◌↔◌, IsTrue};
ghost use Rattle.st_tree.specs.Bare.{nowhere, bare_expr, bare_exprs, bare_expr_or_none};
ghost use Rattle.st_tree.specs.ExprTree.{literal, name as name_tree, unary as unary_tree, binary as binary_tree, call as call_tree};
ghost use Rattle.st_tree.specs.ExprViews.{expr_tree, expr_trees, expr_tree_or_none};

use crate::expr::{BinOp, Expr, UnOp};
use vcp_base::{Text, Ty};

/// Whether two names have the same bytes.
pub fn same_text(a: &Text, b: &Text) -> bool
    ensures { IsTrue result ↔ (a.now ≡ b.now) }
{
    a.bytes() == b.bytes()
}

/// Whether two expressions are one, spots aside.
#[cycle(same_expr)]
pub fn same_expr(a: &Expr, b: &Expr) -> bool
    ensures { IsTrue result ↔ (bare_expr (expr_tree a.now) ≡ bare_expr (expr_tree b.now)) }
{
    match b {
        Expr::Lit { ty, value, .. } => is_literal(a, *ty, *value),
        Expr::Name { name, .. } => is_name(a, name),
        Expr::Unary { op, arg, .. } => is_unary(a, *op, arg),
        Expr::Binary {
            op,
            left,
            right,
            ..
        } => is_binary(a, *op, left, right),
        Expr::Call { name, args, .. } => is_call(a, name, &args.items),
    }
}

fn is_literal(a: &Expr, ty: Option<Ty>, value: i64) -> bool
    ensures { IsTrue result ↔ (bare_expr (expr_tree a.now) ≡ literal ty value nowhere) }
{
    match a {
        Expr::Lit {
            ty: its_ty,
            value: its_value,
            ..
        } => *its_ty == ty && *its_value == value,
        _ => false,
    }
}

fn is_name(a: &Expr, name: &Text) -> bool
    ensures { IsTrue result ↔ (bare_expr (expr_tree a.now) ≡ name_tree name.now nowhere) }
{
    match a {
        Expr::Name { name: its_name, .. } => same_text(its_name, name),
        _ => false,
    }
}

#[cycle(same_expr)]
fn is_unary(a: &Expr, op: UnOp, arg: &Expr) -> bool
    ensures { IsTrue result
        ↔ (bare_expr (expr_tree a.now) ≡ unary_tree op (bare_expr (expr_tree arg.now)) nowhere) }
{
    match a {
        Expr::Unary {
            op: its_op,
            arg: its_arg,
            ..
        } => *its_op == op && same_expr(its_arg, arg),
        _ => false,
    }
}

#[cycle(same_expr)]
fn is_binary(a: &Expr, op: BinOp, left: &Expr, right: &Expr) -> bool
    ensures { IsTrue result
        ↔ (bare_expr (expr_tree a.now)
        ≡ binary_tree op (bare_expr (expr_tree left.now)) (bare_expr (expr_tree right.now)) nowhere) }
{
    match a {
        Expr::Binary {
            op: its_op,
            left: its_left,
            right: its_right,
            ..
        } => {
            if *its_op != op {
                return false;
            }
            same_expr(its_left, left) && same_expr(its_right, right)
        }
        _ => false,
    }
}

#[cycle(same_expr)]
fn is_call(a: &Expr, name: &Text, args: &[Expr]) -> bool
    ensures { IsTrue result
        ↔ (bare_expr (expr_tree a.now) ≡ call_tree name.now (bare_exprs (expr_trees args.now)) nowhere) }
{
    match a {
        Expr::Call {
            name: its_name,
            args: its_args,
            ..
        } => same_text(its_name, name) && same_exprs(&its_args.items, args),
        _ => false,
    }
}

#[cycle(same_expr)]
fn same_exprs(a: &[Expr], b: &[Expr]) -> bool
    ensures { IsTrue result ↔ (bare_exprs (expr_trees a.now) ≡ bare_exprs (expr_trees b.now)) }
{
    if a.len() != b.len() {
        return false;
    }
    for i in 0..a.len() {
        if !same_expr(&a[i], &b[i]) {
            return false;
        }
    }
    true
}

/// Whether two expressions that may be left out are one, spots aside.
pub fn same_expr_or_none(a: &Option<Expr>, b: &Option<Expr>) -> bool
    ensures { IsTrue result
        ↔ (bare_expr_or_none (expr_tree_or_none a.now) ≡ bare_expr_or_none (expr_tree_or_none b.now)) }
{
    match a {
        None => b.is_none(),
        Some(of_a) => match b {
            None => false,
            Some(of_b) => same_expr(of_a, of_b),
        },
    }
}
