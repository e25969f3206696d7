//! Branches of IF and CASE: what is added before and after their bodies.

ghost use Rattle.std.specs.Prelude.{◌≡◌, ◌<◌, ◌+◌, false, true, Some, length, sum_by, All};
ghost use Rattle.vcp_base.specs.declared.ty.Ty.TheVariants as type_of;
ghost use Rattle.vcp_base.specs.Code.{admits};
ghost use Rattle.vcp_typed.specs.Checked.{IsLabel};
ghost use Rattle.vcp_typed.specs.Rules.{joined as joined_type};
ghost use Rattle.vcp_typed.specs.Size.{expr_size, label_size};
ghost use Rattle.vcp_typed.specs.TExprViews.{texpr_tree};
ghost use Rattle.vcp_typed.specs.TStmtTree.{no_tother};
ghost use Rattle.vcp_typed.specs.TStmtViews.{tstmt_trees, tother_tree};
ghost use Rattle.flat_expr.specs.State.{IsA, IsPlace};
ghost use Rattle.flat_stmt.specs.Parts.{context, ConditionPart, Added, statements_of};
ghost use Rattle.flat_stmt.specs.Steps.{Enters, EntersArm, EntersLabelled, Exits};

use crate::condition::{deny, join, labels};
use flat_expr::{Flat, laws_of_states};
use op_graph::Build;
use vcp_base::{Spot, Ty};
use vcp_typed::{TArm, TLabel, TStmt, TStmts};

/// A branch whose body is being added: the path condition round it, its own condition, and the place of
/// its operations.
#[derive(Clone, Copy)]
pub struct Entered {
    pub outer: Option<u32>,
    pub condition: u32,
    pub spot: Spot,
}

/// Enters the branch whose condition is the operation: its body is reached where the path condition is 1
/// and the branch's.
fn enter(flat: &mut Flat, condition: u32, spot: Spot) -> Result<Entered, Build>
    requires { IsA type_of.Bool flat.old.graph.operations condition }
    ensures { Added flat.old 1 (λ branch. Enters flat.old flat.new condition branch) result }
{
    laws_of_states();
    let outer = flat.condition();
    let path = join(flat, outer, condition, spot)?;
    flat.set_condition(Some(path));
    Ok(Entered {
        outer,
        condition,
        spot,
    })
}

/// Enters an arm of IF, whose condition is added first.
pub fn enter_arm(flat: &mut Flat, arm: &TArm) -> Result<Entered, Build>
    requires { ConditionPart (context flat.old) (texpr_tree arm.now.cond) }
    ensures { Added flat.old (1 + expr_size (texpr_tree arm.now.cond)) (λ branch. EntersArm flat.old flat.new (texpr_tree arm.now.cond) branch) result }
{
    let condition = flat.expr(&arm.cond)?;
    enter(flat, condition, arm.spot)
}

/// Enters a branch of CASE over the value `k`. It has labels, whose condition is added first.
pub fn enter_labelled(flat: &mut Flat, k: u32, ty: Ty, of: &[TLabel]) -> Result<Entered, Build>
    requires some { 0 < length of.now }
    requires number { joined_type ty ty ≡ Some ty }
    requires code { admits flat.old.graph.profile ty ≡ true }
    requires k { IsA ty flat.old.graph.operations k }
    requires labels { All (IsLabel ty) of.now }
    ensures { Added flat.old (1 + sum_by label_size of.now) (λ branch. EntersLabelled flat.old flat.new k of.now branch) result }
{
    let condition = labels(flat, k, ty, of)?;
    enter(flat, condition, of[0].spot)
}

/// The path condition of what comes after a branch: the outer condition, and not the branch's.
fn go_on(flat: &mut Flat, branch: Entered) -> Result<(), Build>
    requires outer { IsPlace type_of.Bool flat.old.graph.operations branch.outer }
    requires condition { IsA type_of.Bool flat.old.graph.operations branch.condition }
    ensures { Added flat.old 2 (λ _. Exits true flat.old flat.new branch) result }
{
    laws_of_states();
    let no = deny(flat, branch.condition, branch.spot)?;
    let next = join(flat, branch.outer, no, branch.spot)?;
    flat.set_condition(Some(next));
    Ok(())
}

/// Leaves a branch, after which more follow, or none.
pub fn leave(flat: &mut Flat, branch: Entered, more: bool) -> Result<(), Build>
    requires outer { IsPlace type_of.Bool flat.old.graph.operations branch.outer }
    requires condition { IsA type_of.Bool flat.old.graph.operations branch.condition }
    ensures { Added flat.old 2 (λ _. Exits more flat.old flat.new branch) result }
{
    if more {
        go_on(flat, branch)
    } else {
        flat.set_condition(branch.outer);
        Ok(())
    }
}

/// Whether another branch follows branch `i` of so many, or ELSE.
pub fn has_next(i: usize, branches: usize, other: &Option<TStmts>) -> bool
    requires { i < branches }
    ensures { result ≡ false → (branches ≡ i + 1) × (tother_tree other.now ≡ no_tother) }
{
    i + 1 < branches || other.is_some()
}

/// The statements of ELSE; none where there is no ELSE.
pub fn body_of_else(other: &Option<TStmts>) -> &[TStmt]
    ensures { tstmt_trees result.now ≡ statements_of (tother_tree other.now) }
{
    match other {
        None => &[],
        Some(body) => &body.items,
    }
}
