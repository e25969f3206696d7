//! The typing of statements.

ghost use Rattle.std.specs.Prelude.{◌≡◌, ◌≢◌, pos, IfSome, Some, option_map, option_and_then};
ghost use Rattle.st_tree.specs.StmtTree.{assign as assign_tree, if_ as if_tree, case as case_tree, for_ as for_tree};
ghost use Rattle.st_tree.specs.ExprViews.{expr_tree, expr_tree_or_none};
ghost use Rattle.st_tree.specs.StmtViews.{stmt_tree, stmt_trees, arm_trees, branch_trees, other_tree};
ghost use Rattle.vcp_typed.specs.Checked.{ty_of as type_of_value};
ghost use Rattle.vcp_typed.specs.Items.{tarm_items, tbranch_items};
ghost use Rattle.vcp_typed.specs.TExprTree.{TExprTree};
ghost use Rattle.vcp_typed.specs.TExprViews.{texpr_tree};
ghost use Rattle.vcp_typed.specs.TStmtTree.{TStmtTree};
ghost use Rattle.vcp_typed.specs.TStmtViews.{tstmt_tree, tstmt_trees, tarm_trees, tbranch_trees, tother_tree, tstmts_and, tarms_and};
ghost use Rattle.st_types.specs.declared.fault.Rule.TheVariants as rule_;
ghost use Rattle.st_types.specs.Faults.{fault};
ghost use Rattle.st_types.specs.Full.{UnlessFull};
ghost use Rattle.st_types.specs.ExprTyping.{both};
ghost use Rattle.st_types.specs.StmtTyping.{entry_type, Narrows, NoTest, IsBool, assign_of, test_of, selector_of};
ghost use Rattle.st_types.specs.StmtTyping.{turns_of as turns_of_bounds, case_of};
ghost use Rattle.st_types.specs.StmtSteps.{Gives, TypesStmt, TypesStmts, TypesArms, TypesBranches, TypesOther, branch_after};
ghost use Rattle.st_types.specs.StmtSteps.{turning_of, for_with};

use crate::environment::Environment;
use crate::fault::{Fault, Rule};
use crate::names::Entry;
use crate::note::{Noted, note};
use crate::operator::{type_of, widened};
use crate::refusals::{discard, discard_body, discard_branches, discard_some};
use crate::variable::{control_type, held_in, is_free, name_fault};
use st_tree::{Arm, Branch, Expr, Stmt, Stmts, trees_of_nodes};
use std::alloc::Global;
use vcp_base::{Memory, Spot, Ty, is_bool, within};
use vcp_typed::{TArm, TArms, TBranch, TBranches, TExpr, TLabels, TStmt, TStmts, ty_of};

// ---- what single nodes give

// An assignment of a value to what was found by its name.
fn assign_of(
    alloc: Global,
    held: &[u32],
    x: Option<&Entry>,
    e: Option<TExpr>,
    spot: Spot,
    noted: &mut Noted,
) -> Option<TStmt>
    ensures { UnlessFull noted.old.full noted.new.full
        (Gives
        (λ f. (f ≡ fault rule_.Mismatch spot) × Narrows (entry_type (option_map (λ y. y.now) x.entry)) (option_map type_of_value (option_map texpr_tree e)))
        (both (assign_of held.now spot) (option_map (λ y. y.now) x.entry) (option_map texpr_tree e))
        noted.old.first
        noted.new.first
        (option_map tstmt_tree result)) }
{
    let Some(x) = x else {
        discard_some(e);
        return None;
    };
    let Some(e) = e else {
        return None;
    };
    if !within(ty_of(&e), x.ty) {
        discard(e);
        note(&mut noted.first, Rule::Mismatch, spot);
        return None;
    }
    if !is_free(held, x) {
        discard(e);
        return None;
    }
    match widened(alloc, x.ty, e) {
        Ok(value) => Some(TStmt::assign(x.slot, value, spot)),
        Err(Memory) => {
            noted.full = true;
            None
        }
    }
}

// The condition, if it is of BOOL.
fn tested(e: Option<TExpr>, spot: Spot, first: &mut Option<Fault>) -> Option<TExpr>
    ensures { Gives
        (λ f. (f ≡ fault rule_.Mismatch spot) × NoTest (option_map type_of_value (option_map texpr_tree e)))
        (option_and_then test_of (option_map texpr_tree e))
        first.old
        first.new
        (option_map texpr_tree result) }
{
    let Some(e) = e else {
        return None;
    };
    if !is_bool(ty_of(&e)) {
        discard(e);
        note(first, Rule::Mismatch, spot);
        return None;
    }
    Some(e)
}

// The selector, if it isn't of BOOL.
fn selector(e: Option<TExpr>, spot: Spot, first: &mut Option<Fault>) -> Option<TExpr>
    ensures { Gives
        (λ f. (f ≡ fault rule_.Mismatch spot) × IsBool (option_map type_of_value (option_map texpr_tree e)))
        (option_and_then selector_of (option_map texpr_tree e))
        first.old
        first.new
        (option_map texpr_tree result) }
{
    let Some(e) = e else {
        return None;
    };
    if is_bool(ty_of(&e)) {
        discard(e);
        note(first, Rule::Mismatch, spot);
        return None;
    }
    Some(e)
}

// How many values a FOR takes.
fn turns_of(first: i64, last: i64, by: i64) -> u128
    requires some { by ≢ pos 0 }
    ensures { result ≡ turns_of_bounds first last by }
{
    let begins = if 0 < by { first <= last } else { last <= first };
    if begins {
        u128::from(last.abs_diff(first) / by.unsigned_abs()) + 1
    } else {
        0
    }
}

/// What a FOR does beside its body: its control variable, its first value, its step and how many turns it takes.
#[derive(Clone, Copy)]
pub struct Turning {
    pub slot: u32,
    pub first: i64,
    pub by: i64,
    pub turns: u128,
}

// What a FOR of these parts does beside its body; none where one of them has a fault.
fn turning_of(
    held: &[u32],
    x: Option<&Entry>,
    first: Option<i64>,
    last: Option<i64>,
    by: Option<i64>,
) -> Option<Turning>
    requires some { IfSome by (λ v. v ≢ pos 0) }
    ensures { result ≡ turning_of held.now (option_map (λ y. y.now) x.entry) first last by }
{
    let (Some(x), Some(first), Some(last), Some(by)) = (x, first, last, by) else {
        return None;
    };
    if !is_free(held, x) {
        return None;
    }
    if is_bool(x.ty) {
        return None;
    }
    Some(Turning {
        slot: x.slot,
        first,
        by,
        turns: turns_of(first, last, by),
    })
}

// FOR of these parts; none where what it does beside its body has a fault.
fn for_of(turning: Option<Turning>, body: TStmts, spot: Spot) -> Option<TStmt>
    ensures { option_map tstmt_tree result ≡ for_with spot turning (Some (tstmt_trees body.items.items)) }
{
    match turning {
        None => {
            discard_body(body);
            None
        }
        Some(of) => Some(TStmt::for_(of.slot, of.first, of.by, of.turns, body, spot)),
    }
}

// CASE of these parts; none where one of them has a fault.
fn case_of(
    on: Option<TExpr>,
    branches: Option<TBranches>,
    other: Option<TStmts>,
    spot: Spot,
) -> Option<TStmt>
    ensures { option_map tstmt_tree result
        ≡ case_of spot (option_map texpr_tree on) (option_map (λ b. tbranch_trees (tbranch_items b)) branches) (Some (tother_tree other)) }
{
    let Some(on) = on else {
        return None;
    };
    let Some(branches) = branches else {
        discard(on);
        return None;
    };
    Some(TStmt::case(on, branches, other, spot))
}

// ---- lists with one more

// Appends a statement, where there is one.
fn add_stmt(list: &mut TStmts, s: Option<TStmt>, full: &mut bool)
    ensures { UnlessFull full.old full.new ((x : TStmtTree) → option_map tstmt_tree s ≡ Some x
        → tstmt_trees list.new.items.items ≡ tstmts_and (tstmt_trees list.old.items.items) x) }
{
    let Some(s) = s else {
        return;
    };
    match list.push(s) {
        Ok(()) => {}
        Err(Memory) => *full = true,
    }
}

// Appends a condition with its body, where there is one.
fn add_arm(list: &mut TArms, cond: Option<TExpr>, body: TStmts, spot: Spot, full: &mut bool)
    ensures { UnlessFull full.old full.new ((e : TExprTree) → option_map texpr_tree cond ≡ Some e
        → tarm_trees (tarm_items list.new) ≡ tarms_and (tarm_trees (tarm_items list.old)) e (tstmt_trees body.items.items) spot) }
{
    let Some(cond) = cond else {
        discard_body(body);
        return;
    };
    match list.push(TArm { cond, body, spot }) {
        Ok(()) => {}
        Err(Memory) => *full = true,
    }
}

// The branches with one more; none where a part of one has a fault.
fn with_branch(
    list: Option<TBranches>,
    labels: Option<TLabels>,
    body: TStmts,
    full: &mut bool,
) -> Option<TBranches>
    ensures { UnlessFull full.old full.new
        (option_map (λ b. tbranch_trees (tbranch_items b)) result
        ≡ branch_after
        (option_map (λ b. tbranch_trees (tbranch_items b)) list)
        (option_map (λ v. v.items.items) labels)
        (Some (tstmt_trees body.items.items))) }
{
    let Some(mut list) = list else {
        discard_body(body);
        return None;
    };
    let Some(labels) = labels else {
        discard_branches(list);
        discard_body(body);
        return None;
    };
    match list.push(TBranch { labels, body }) {
        Ok(()) => Some(list),
        Err(Memory) => {
            discard_branches(list);
            *full = true;
            None
        }
    }
}

// ---- statements

impl Environment<'_> {
    // An assignment.
    fn assign(&self, name: &[u8], value: &Expr, spot: Spot, noted: &mut Noted) -> Option<TStmt>
        ensures { UnlessFull noted.old.full noted.new.full
            (TypesStmt self.now.names.now self.now.held.now
            (assign_tree name.now (expr_tree value.now) spot)
            noted.old.first noted.new.first (option_map tstmt_tree result)) }
    {
        let x = self.names.find(name);
        name_fault(self.held, x, spot, &mut noted.first);
        let e = self.type_expression(value, noted);
        assign_of(self.alloc, self.held, x, e, spot, noted)
    }

    /// Types a statement inside FORs over the slots `held`: notes its faults, and gives the checked statement, none
    /// where it has a fault.
    #[cycle(statements)]
    fn type_stmt(&self, s: &Stmt, noted: &mut Noted) -> Option<TStmt>
        ensures { UnlessFull noted.old.full noted.new.full
            (TypesStmt self.now.names.now self.now.held.now (stmt_tree s.now) noted.old.first noted.new.first (option_map tstmt_tree result)) }
    {
        trees_of_nodes();
        match s {
            Stmt::Assign { name, value, spot } => {
                let name = name.bytes();
                self.assign(name, value, *spot, noted)
            }
            Stmt::If { arms, other } => self.type_if(&arms.items, other, noted),
            Stmt::Case {
                on,
                branches,
                other,
                spot,
            } => {
                let branches = &branches.items;
                self.type_case(on, branches, other, *spot, noted)
            }
            Stmt::For {
                name,
                name_spot,
                first,
                last,
                by,
                body,
                ..
            } => {
                self.type_for(
                    &body.items,
                    name.bytes(),
                    *name_spot,
                    first,
                    last,
                    by,
                    noted,
                )
            }
        }
    }

    // An IF.
    #[cycle(statements)]
    fn type_if(&self, arms: &[Arm], other: &Option<Stmts>, noted: &mut Noted) -> Option<TStmt>
        ensures { UnlessFull noted.old.full noted.new.full
            (TypesStmt self.now.names.now self.now.held.now
            (if_tree (arm_trees arms.now) (other_tree other.now))
            noted.old.first noted.new.first (option_map tstmt_tree result)) }
    {
        let made = self.type_arms(arms, noted);
        let rest = self.type_other(other, noted);
        Some(TStmt::if_(made, rest))
    }

    // A CASE.
    #[cycle(statements)]
    fn type_case(
        &self,
        on: &Expr,
        branches: &[Branch],
        other: &Option<Stmts>,
        spot: Spot,
        noted: &mut Noted,
    ) -> Option<TStmt>
        ensures { UnlessFull noted.old.full noted.new.full
            (TypesStmt self.now.names.now self.now.held.now
            (case_tree (expr_tree on.now) (branch_trees branches.now) (other_tree other.now) spot)
            noted.old.first noted.new.first (option_map tstmt_tree result)) }
    {
        let e = self.type_expression(on, noted);
        let ty = type_of(&e);
        let selects = selector(e, spot, &mut noted.first);
        let made = self.type_branches(ty, branches, noted);
        let rest = self.type_other(other, noted);
        case_of(selects, made, rest, spot)
    }

    // A FOR. The spot of the FOR itself is in no fault, nor in what is made.
    #[cycle(statements)]
    fn type_for(
        &self,
        body: &[Stmt],
        name: &[u8],
        name_spot: Spot,
        first: &Expr,
        last: &Expr,
        by: &Option<Expr>,
        noted: &mut Noted,
    ) -> Option<TStmt>
        ensures { (spot : Spot) → UnlessFull noted.old.full noted.new.full
            (TypesStmt self.now.names.now self.now.held.now
            (for_tree name.now name_spot (expr_tree first.now) (expr_tree last.now) (expr_tree_or_none by.now) (stmt_trees body.now) spot)
            noted.old.first noted.new.first (option_map tstmt_tree result)) }
    {
        let x = self.names.find(name);
        let ty = control_type(self.held, x, name_spot, &mut noted.first);
        let low = self.bound(ty, first, noted);
        let high = self.bound(ty, last, noted);
        let step_by = self.step(ty, by, noted);
        let turning = turning_of(self.held, x, low, high, step_by);
        match held_in(self.alloc, self.held, x) {
            Ok(held) => {
                let inner = Environment {
                    alloc: self.alloc,
                    names: self.names,
                    held: &held,
                };
                for_of(turning, inner.type_stmts(body, noted), name_spot)
            }
            Err(Memory) => {
                noted.full = true;
                None
            }
        }
    }

    /// Types statements inside FORs over the slots `held`: notes their faults, and gives the checked statements, any
    /// where one has a fault.
    #[cycle(statements)]
    pub(crate) fn type_stmts(&self, stmts: &[Stmt], noted: &mut Noted) -> TStmts
        ensures { UnlessFull noted.old.full noted.new.full
            (TypesStmts self.now.names.now self.now.held.now (stmt_trees stmts.now) noted.old.first noted.new.first
            (Some (tstmt_trees result.items.items))) }
    {
        let mut list = TStmts::new(self.alloc);
        'each: for s in stmts {
            let made = self.type_stmt(s, noted);
            add_stmt(&mut list, made, &mut noted.full);
        }
        list
    }

    // The conditions of an IF with their bodies; any where one of them has a fault.
    #[cycle(statements)]
    fn type_arms(&self, arms: &[Arm], noted: &mut Noted) -> TArms
        ensures { UnlessFull noted.old.full noted.new.full
            (TypesArms self.now.names.now self.now.held.now (arm_trees arms.now) noted.old.first noted.new.first
            (Some (tarm_trees (tarm_items result)))) }
    {
        let mut list = TArms::new(self.alloc);
        'each: for arm in arms {
            let e = self.type_expression(&arm.cond, noted);
            let cond = tested(e, arm.spot, &mut noted.first);
            let body = self.type_stmts(&arm.body.items, noted);
            add_arm(&mut list, cond, body, arm.spot, &mut noted.full);
        }
        list
    }

    // The branches of a CASE over a selector of the type; none where one of them has a fault.
    #[cycle(statements)]
    fn type_branches(
        &self,
        ty: Option<Ty>,
        branches: &[Branch],
        noted: &mut Noted,
    ) -> Option<TBranches>
        ensures { UnlessFull noted.old.full noted.new.full
            (TypesBranches self.now.names.now self.now.held.now ty (branch_trees branches.now)
            noted.old.first noted.new.first (option_map (λ b. tbranch_trees (tbranch_items b)) result)) }
    {
        let mut list = Some(TBranches::new(self.alloc));
        'each: for branch in branches {
            let labels = self.type_labels(ty, &branch.labels.items, noted);
            let body = self.type_stmts(&branch.body.items, noted);
            list = with_branch(list, labels, body, &mut noted.full);
        }
        list
    }

    // The body of ELSE, where there is one.
    #[cycle(statements)]
    fn type_other(&self, other: &Option<Stmts>, noted: &mut Noted) -> Option<TStmts>
        ensures { UnlessFull noted.old.full noted.new.full
            (TypesOther self.now.names.now self.now.held.now (other_tree other.now) noted.old.first noted.new.first (Some (tother_tree result))) }
    {
        match other {
            None => None,
            Some(body) => Some(self.type_stmts(&body.items, noted)),
        }
    }
}
