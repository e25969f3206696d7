//! Equality of statements that leaves spots aside.

ghost use Rattle.std.specs.Prelude.{◌≡◌, ◌↔◌, IsTrue, map};
ghost use Rattle.st_tree.specs.Bare.{nowhere, bare_expr, bare_expr_or_none, bare_label, bare_stmt, bare_stmts, bare_arms, bare_branches, bare_other};
ghost use Rattle.st_tree.specs.StmtTree.{assign as assign_tree, if_ as if_tree, case as case_tree, for_ as for_tree};
ghost use Rattle.st_tree.specs.ExprViews.{expr_tree, expr_tree_or_none};
ghost use Rattle.st_tree.specs.StmtViews.{label_tree, label_trees, stmt_tree, stmt_trees, arm_trees, branch_trees, other_tree};

use crate::expr::Expr;
use crate::same_expr::{same_expr, same_expr_or_none, same_text};
use crate::stmt::{Arm, Branch, Label, Stmt, Stmts};
use vcp_base::Text;

fn same_label(a: &Label, b: &Label) -> bool
    ensures { IsTrue result ↔ (bare_label (label_tree a.now) ≡ bare_label (label_tree b.now)) }
{
    same_expr(&a.first, &b.first) && same_expr_or_none(&a.last, &b.last)
}

fn same_labels(a: &[Label], b: &[Label]) -> bool
    ensures { IsTrue result
        ↔ (map bare_label (label_trees a.now) ≡ map bare_label (label_trees b.now)) }
{
    if a.len() != b.len() {
        return false;
    }
    for i in 0..a.len() {
        if !same_label(&a[i], &b[i]) {
            return false;
        }
    }
    true
}

/// Whether two statements are one, spots aside.
#[cycle(same_stmt)]
pub fn same_stmt(a: &Stmt, b: &Stmt) -> bool
    ensures { IsTrue result ↔ (bare_stmt (stmt_tree a.now) ≡ bare_stmt (stmt_tree b.now)) }
{
    match b {
        Stmt::Assign { name, value, .. } => is_assign(a, name, value),
        Stmt::If { arms, other } => is_if(a, &arms.items, other),
        Stmt::Case {
            on,
            branches,
            other,
            ..
        } => is_case(a, on, &branches.items, other),
        Stmt::For {
            name,
            first,
            last,
            by,
            body,
            ..
        } => is_for(a, name, first, last, by, &body.items),
    }
}

fn is_assign(a: &Stmt, name: &Text, value: &Expr) -> bool
    ensures { IsTrue result
        ↔ (bare_stmt (stmt_tree a.now)
        ≡ assign_tree name.now (bare_expr (expr_tree value.now)) nowhere) }
{
    match a {
        Stmt::Assign {
            name: its_name,
            value: its_value,
            ..
        } => same_text(its_name, name) && same_expr(its_value, value),
        _ => false,
    }
}

#[cycle(same_stmt)]
fn is_if(a: &Stmt, arms: &[Arm], other: &Option<Stmts>) -> bool
    ensures { IsTrue result
        ↔ (bare_stmt (stmt_tree a.now)
        ≡ if_tree (bare_arms (arm_trees arms.now)) (bare_other (other_tree other.now))) }
{
    match a {
        Stmt::If {
            arms: its_arms,
            other: its_other,
        } => same_arms(&its_arms.items, arms) && same_other(its_other, other),
        _ => false,
    }
}

#[cycle(same_stmt)]
fn is_case(a: &Stmt, on: &Expr, branches: &[Branch], other: &Option<Stmts>) -> bool
    ensures { IsTrue result
        ↔ (bare_stmt (stmt_tree a.now)
        ≡ case_tree
        (bare_expr (expr_tree on.now))
        (bare_branches (branch_trees branches.now))
        (bare_other (other_tree other.now))
        nowhere) }
{
    match a {
        Stmt::Case {
            on: its_on,
            branches: its_branches,
            other: its_other,
            ..
        } => {
            if !same_expr(its_on, on) {
                return false;
            }
            same_branches(&its_branches.items, branches) && same_other(its_other, other)
        }
        _ => false,
    }
}

/// Whether the bounds and the step of two FORs are one, spots aside.
fn same_bounds(
    first: &Expr,
    last: &Expr,
    by: &Option<Expr>,
    other_first: &Expr,
    other_last: &Expr,
    other_by: &Option<Expr>,
) -> bool
    ensures { IsTrue result
        ↔ ((bare_expr (expr_tree first.now) ≡ bare_expr (expr_tree other_first.now))
        × (bare_expr (expr_tree last.now) ≡ bare_expr (expr_tree other_last.now))
        × (bare_expr_or_none (expr_tree_or_none by.now)
        ≡ bare_expr_or_none (expr_tree_or_none other_by.now))) }
{
    same_expr(first, other_first) && same_expr(last, other_last) && same_expr_or_none(by, other_by)
}

#[cycle(same_stmt)]
fn is_for(
    a: &Stmt,
    name: &Text,
    first: &Expr,
    last: &Expr,
    by: &Option<Expr>,
    body: &[Stmt],
) -> bool
    ensures { IsTrue result
        ↔ (bare_stmt (stmt_tree a.now)
        ≡ for_tree
        name.now
        nowhere
        (bare_expr (expr_tree first.now))
        (bare_expr (expr_tree last.now))
        (bare_expr_or_none (expr_tree_or_none by.now))
        (bare_stmts (stmt_trees body.now))
        nowhere) }
{
    match a {
        Stmt::For {
            name: its_name,
            first: its_first,
            last: its_last,
            by: its_by,
            body: its_body,
            ..
        } => {
            if !same_text(its_name, name) {
                return false;
            }
            same_bounds(its_first, its_last, its_by, first, last, by)
                && same_stmts(&its_body.items, body)
        }
        _ => false,
    }
}

/// Whether two lists of statements are one, spots aside.
#[cycle(same_stmt)]
pub fn same_stmts(a: &[Stmt], b: &[Stmt]) -> bool
    ensures { IsTrue result ↔ (bare_stmts (stmt_trees a.now) ≡ bare_stmts (stmt_trees b.now)) }
{
    if a.len() != b.len() {
        return false;
    }
    for i in 0..a.len() {
        if !same_stmt(&a[i], &b[i]) {
            return false;
        }
    }
    true
}

#[cycle(same_stmt)]
fn same_arms(a: &[Arm], b: &[Arm]) -> bool
    ensures { IsTrue result ↔ (bare_arms (arm_trees a.now) ≡ bare_arms (arm_trees b.now)) }
{
    if a.len() != b.len() {
        return false;
    }
    for i in 0..a.len() {
        if !same_arm(&a[i], &b[i]) {
            return false;
        }
    }
    true
}

#[cycle(same_stmt)]
fn same_arm(a: &Arm, b: &Arm) -> bool
    ensures { IsTrue result
        ↔ ((bare_expr (expr_tree a.now.cond) ≡ bare_expr (expr_tree b.now.cond))
        × (bare_stmts (stmt_trees a.now.body.items.items)
        ≡ bare_stmts (stmt_trees b.now.body.items.items))) }
{
    same_expr(&a.cond, &b.cond) && same_stmts(&a.body.items, &b.body.items)
}

#[cycle(same_stmt)]
fn same_branches(a: &[Branch], b: &[Branch]) -> bool
    ensures { IsTrue result
        ↔ (bare_branches (branch_trees a.now) ≡ bare_branches (branch_trees b.now)) }
{
    if a.len() != b.len() {
        return false;
    }
    for i in 0..a.len() {
        if !same_branch(&a[i], &b[i]) {
            return false;
        }
    }
    true
}

#[cycle(same_stmt)]
fn same_branch(a: &Branch, b: &Branch) -> bool
    ensures { IsTrue result
        ↔ ((map bare_label (label_trees a.now.labels.items.items)
        ≡ map bare_label (label_trees b.now.labels.items.items))
        × (bare_stmts (stmt_trees a.now.body.items.items)
        ≡ bare_stmts (stmt_trees b.now.body.items.items))) }
{
    same_labels(&a.labels.items, &b.labels.items) && same_stmts(&a.body.items, &b.body.items)
}

/// Whether two bodies of ELSE are one, spots aside; no ELSE isn't an empty one.
#[cycle(same_stmt)]
fn same_other(a: &Option<Stmts>, b: &Option<Stmts>) -> bool
    ensures { IsTrue result ↔ (bare_other (other_tree a.now) ≡ bare_other (other_tree b.now)) }
{
    match a {
        None => b.is_none(),
        Some(of_a) => match b {
            None => false,
            Some(of_b) => same_stmts(&of_a.items, &of_b.items),
        },
    }
}
