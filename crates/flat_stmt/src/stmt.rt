//! The operations of statements.

ghost use Rattle.std.specs.Prelude.{◌≡◌, ◌<◌, ◌≤◌, ◌+◌, true, Some, length, slice_get};
ghost use Rattle.vcp_base.specs.Limits.{most_turn_nodes};
ghost use Rattle.vcp_base.specs.Types.{fits};
ghost use Rattle.vcp_base.specs.Code.{admits};
ghost use Rattle.vcp_typed.specs.declared.slot.Slot.{Slot};
ghost use Rattle.vcp_typed.specs.Checked.{IsExpr, ty_of};
ghost use Rattle.vcp_typed.specs.Rules.{joined as joined_type};
ghost use Rattle.vcp_typed.specs.Size.{expr_size, stmt_size, stmts_size};
ghost use Rattle.vcp_typed.specs.TExprViews.{texpr_tree};
ghost use Rattle.vcp_typed.specs.TStmtTree.{for_};
ghost use Rattle.vcp_typed.specs.TStmtViews.{tstmt_tree, tstmt_trees, tarm_trees, tbranch_trees, tother_tree};
ghost use Rattle.vcp_typed.specs.Wide.{expr_is_wide};
ghost use Rattle.flat_expr.specs.State.{Allows, IsA};
ghost use Rattle.flat_stmt.specs.Adds.{AddsAssignment, AddsStmt, AddsStmts, AddsIf, AddsBranches, if_size, rest_size};
ghost use Rattle.flat_stmt.specs.Parts.{context, StmtPart, StmtsPart, ArmsPart, BranchesPart, OtherPart, Added};
ghost use Rattle.flat_stmt.specs.Steps.{Sets, EntersTurn};

use crate::branch::{body_of_else, enter_arm, enter_labelled, has_next, leave};
use flat_expr::{Flat, laws_of_states};
use op_graph::{Build, TurnNode};
use vcp_base::{Spot, Ty};
use vcp_typed::{TArm, TBranch, TExpr, TStmt, TStmts, next_value, trees_of_nodes, ty_of};

/// The slot gets the value where the place is reached.
fn add_value(flat: &mut Flat, slot: u32, value: i64, spot: Spot) -> Result<(), Build>
    requires slot { slot < length flat.old.slots }
    requires fits { (x : Slot) → slice_get flat.old.slots slot ≡ Some x → fits x.ty value ≡ true }
    ensures { Added flat.old 2 (λ _. Sets flat.old flat.new slot value) result }
{
    laws_of_states();
    let ty = flat.type_of(slot);
    let k = flat.constant(ty, value, spot)?;
    flat.assign(slot, k, spot)
}

/// An assignment.
fn add_assignment(flat: &mut Flat, slot: u32, value: &TExpr, spot: Spot) -> Result<(), Build>
    requires checked { IsExpr flat.old.slots (texpr_tree value.now) }
    requires code { Allows flat.old.graph.profile (expr_is_wide (texpr_tree value.now)) }
    requires slot { slot < length flat.old.slots }
    requires fits { (x : Slot) → slice_get flat.old.slots slot ≡ Some x → x.ty ≡ ty_of (texpr_tree value.now) }
    ensures { Added flat.old (1 + expr_size (texpr_tree value.now)) (λ _. AddsAssignment flat.old flat.new slot (texpr_tree value.now)) result }
{
    laws_of_states();
    let k = flat.expr(value)?;
    flat.assign(slot, k, spot)
}

/// Enters a turn of FOR: the control variable gets its value inside a new turn node.
fn enter_turn(flat: &mut Flat, slot: u32, value: i64, spot: Spot) -> Result<(), Build>
    requires slot { slot < length flat.old.slots }
    requires fits { (x : Slot) → slice_get flat.old.slots slot ≡ Some x → fits x.ty value ≡ true }
    requires room { length flat.old.graph.turn_nodes < most_turn_nodes }
    ensures { Added flat.old 2 (λ _. EntersTurn flat.old flat.new slot value) result }
{
    let outer = flat.turn_now();
    let node = flat.turn(TurnNode {
        parent: outer,
        name: slot,
        value,
    })?;
    flat.set_turn(node);
    add_value(flat, slot, value, spot)
}

/// A statement.
#[cycle(statements)]
fn add_stmt(flat: &mut Flat, s: &TStmt) -> Result<(), Build>
    requires checked { StmtPart (context flat.old) (tstmt_tree s.now) }
    requires room { length flat.old.graph.turn_nodes + stmt_size (tstmt_tree s.now) ≤ most_turn_nodes }
    ensures { Added flat.old (stmt_size (tstmt_tree s.now)) (λ _. AddsStmt flat.old flat.new (tstmt_tree s.now)) result }
{
    trees_of_nodes();
    laws_of_states();
    match s {
        TStmt::Assign { slot, value, spot } => add_assignment(flat, *slot, value, *spot),
        TStmt::If { arms, other } => add_if(flat, &arms.items, other),
        TStmt::Case {
            on,
            branches,
            other,
            ..
        } => {
            let k = flat.expr(on)?;
            add_branches(flat, k, ty_of(on), &branches.items, other)
        }
        TStmt::For {
            slot,
            first,
            by,
            turns,
            body,
            spot,
        } => add_for(flat, *slot, *first, *by, *turns, &body.items, *spot),
    }
}

/// The statements, in order.
#[cycle(statements)]
pub fn add_stmts(flat: &mut Flat, ss: &[TStmt]) -> Result<(), Build>
    requires checked { StmtsPart (context flat.old) (tstmt_trees ss.now) }
    requires room { length flat.old.graph.turn_nodes + stmts_size (tstmt_trees ss.now) ≤ most_turn_nodes }
    ensures { Added flat.old (stmts_size (tstmt_trees ss.now)) (λ _. AddsStmts flat.old flat.new (tstmt_trees ss.now)) result }
{
    laws_of_states();
    let _state = flat.condition();
    'each: for s in ss {
        add_stmt(flat, s)?;
    }
    Ok(())
}

/// IF with its ELSIFs and its ELSE: each arm under the outer condition that those before leave.
#[cycle(statements)]
fn add_if(flat: &mut Flat, arms: &[TArm], other: &Option<TStmts>) -> Result<(), Build>
    requires arms { ArmsPart (context flat.old) (tarm_trees arms.now) }
    requires other { OtherPart (context flat.old) (tother_tree other.now) }
    requires room { length flat.old.graph.turn_nodes + if_size (tarm_trees arms.now) (tother_tree other.now) ≤ most_turn_nodes }
    ensures { Added flat.old (if_size (tarm_trees arms.now) (tother_tree other.now))
        (λ _. AddsIf flat.old flat.new (tarm_trees arms.now) (tother_tree other.now)) result }
{
    laws_of_states();
    let outer = flat.condition();
    'each: for i in 0..arms.len() {
        let arm = &arms[i];
        let branch = enter_arm(flat, arm)?;
        add_stmts(flat, &arm.body.items)?;
        leave(flat, branch, has_next(i, arms.len(), other))?;
    }
    add_stmts(flat, body_of_else(other))?;
    flat.set_condition(outer);
    Ok(())
}

/// The branches of CASE over the value `k`, and its ELSE. A branch without labels is never taken, and adds nothing.
#[cycle(statements)]
fn add_branches(
    flat: &mut Flat,
    k: u32,
    ty: Ty,
    branches: &[TBranch],
    other: &Option<TStmts>,
) -> Result<(), Build>
    requires k { IsA ty flat.old.graph.operations k }
    requires number { joined_type ty ty ≡ Some ty }
    requires code { admits flat.old.graph.profile ty ≡ true }
    requires branches { BranchesPart (context flat.old) ty (tbranch_trees branches.now) }
    requires other { OtherPart (context flat.old) (tother_tree other.now) }
    requires room { length flat.old.graph.turn_nodes + rest_size (tbranch_trees branches.now) (tother_tree other.now) ≤ most_turn_nodes }
    ensures { Added flat.old (rest_size (tbranch_trees branches.now) (tother_tree other.now))
        (λ _. AddsBranches flat.old flat.new k (tbranch_trees branches.now) (tother_tree other.now)) result }
{
    laws_of_states();
    let outer = flat.condition();
    'each: for i in 0..branches.len() {
        let branch = &branches[i];
        if branch.labels.items.is_empty() {
            continue;
        }
        let entered = enter_labelled(flat, k, ty, &branch.labels.items)?;
        add_stmts(flat, &branch.body.items)?;
        leave(flat, entered, has_next(i, branches.len(), other))?;
    }
    add_stmts(flat, body_of_else(other))?;
    flat.set_condition(outer);
    Ok(())
}

/// FOR: its turns; where there is none, the control variable gets the first value.
#[cycle(statements)]
fn add_for(
    flat: &mut Flat,
    slot: u32,
    first: i64,
    by: i64,
    turns: u128,
    body: &[TStmt],
    spot: Spot,
) -> Result<(), Build>
    requires checked { StmtPart (context flat.old) (for_ slot first by turns (tstmt_trees body.now) spot) }
    requires room { length flat.old.graph.turn_nodes + stmt_size (for_ slot first by turns (tstmt_trees body.now) spot) ≤ most_turn_nodes }
    ensures { Added flat.old (stmt_size (for_ slot first by turns (tstmt_trees body.now) spot))
        (λ _. AddsStmt flat.old flat.new (for_ slot first by turns (tstmt_trees body.now) spot)) result }
{
    if turns == 0 {
        return add_value(flat, slot, first, spot);
    }
    laws_of_states();
    let outer = flat.turn_now();
    let mut value = first;
    'turns: for turn in 0..turns {
        enter_turn(flat, slot, value, spot)?;
        add_stmts(flat, body)?;
        flat.set_turn(outer);
        value = next_value(value, by, turn + 1 < turns);
    }
    Ok(())
}
