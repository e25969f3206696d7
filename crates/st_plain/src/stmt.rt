//! What statements do to the values of the slots.

ghost use Rattle.std.specs.Prelude.{◌≡◌, ◌<◌, ◌≤◌, ◌+◌, true, List, ℤ, [], ◌∷◌, ◌++◌, Err, OnOk, IfOk, IfErr, length, slice_set};
ghost use Rattle.std.specs.Prelude.{vec_capacity};
ghost use Rattle.std.specs.List.{list_any};
ghost use Rattle.vcp_base.specs.declared.turns.Turn.{Turn};
ghost use Rattle.vcp_typed.specs.Meaning.{is_labelled as is_labelled_of, all_turns, do_stmt as do_stmt_of, do_stmts as do_stmts_of, do_arms, do_branches, do_other};
ghost use Rattle.vcp_typed.specs.Size.{stmt_size, stmts_size, arms_size, branches_size, other_size};
ghost use Rattle.vcp_typed.specs.TStmtViews.{tstmt_tree, tstmt_trees, tarm_trees, tbranch_trees, tother_tree};
ghost use Rattle.st_plain.specs.Bodies.{IsBody, statements_of};
ghost use Rattle.st_plain.specs.Evaluator.{within_turns};
ghost use Rattle.st_plain.specs.Outcomes.{left};
ghost use Rattle.st_plain.specs.Sound.{SoundStmt, SoundStmts, SoundArms, SoundBranches, SoundOther, SoundTurns};
ghost use Rattle.st_plain.specs.Weight.{arms_weight, branches_weight, other_weight};

use crate::expr::evaluate;
use crate::stop::Stop;
use vcp_base::{Row, Turn};
use vcp_typed::{TArm, TBranch, TLabel, TStmt, TStmts, next_value, trees_of_nodes, values_fit};

/// What a cycle works on: the values of the slots so far, and the turns in which it is, outermost
/// first. After a stop the turns are those round it.
pub struct Working {
    pub values: Row,
    pub turns: Vec<Turn>,
}

impl Drop for Working {
    fn drop(self) {
        let Working {
            values: _,
            turns: _,
        } = self;
    }
}

impl Working {
    /// Begins a turn: the control variable gets its value.
    fn enter(&mut self, slot: u32, value: i64)
        requires slot { slot < length self.old.values }
        requires room { length self.old.turns.items < vec_capacity self.old.turns }
        ensures values { self.new.values ≡ slice_set self.old.values slot value }
        ensures turns { self.new.turns.items ≡ self.old.turns.items ++ record { name = slot; value = value } ∷ [] }
        ensures capacity { vec_capacity self.new.turns ≡ vec_capacity self.old.turns }
    {
        self.values.set(slot, value);
        self.turns.push_reserved(Turn { name: slot, value });
    }

    /// Ends the innermost turn.
    fn leave(&mut self)
        ensures values { self.new.values ≡ self.old.values }
        ensures turns { (outer : List Turn) (last : Turn) → self.old.turns.items ≡ outer ++ last ∷ [] → self.new.turns.items ≡ outer }
        ensures capacity { vec_capacity self.new.turns ≡ vec_capacity self.old.turns }
    {
        let _ = self.turns.pop();
    }
}

/// The statements of an ELSE; none where there is no ELSE.
fn body_of_else(other: &Option<TStmts>) -> &[TStmt]
    ensures { tstmt_trees result.now ≡ statements_of (tother_tree other.now) }
{
    match other {
        None => &[],
        Some(body) => &body.items,
    }
}

/// The body of the first condition of an IF that is TRUE, else that of ELSE; or the stop of a condition.
fn body_of_if<'p>(
    arms: &'p [TArm],
    other: &'p Option<TStmts>,
    values: &Row,
) -> Result<&'p [TStmt], Stop>
    requires arms { SoundArms (tarm_trees arms.now) values.now }
    requires other { SoundOther (tother_tree other.now) values.now }
    ensures ok { IfOk result (λ body. IsBody (λ turns. do_arms turns (tarm_trees arms.now) (do_other turns (tother_tree other.now)))
        (1 + arms_weight (tarm_trees arms.now) + other_weight (tother_tree other.now)) (arms_size (tarm_trees arms.now) + other_size (tother_tree other.now))
        values.now (tstmt_trees body.now)) }
    ensures err { IfErr result (λ s. (turns : List Turn)
        → Err (within_turns turns s) ≡ do_arms turns (tarm_trees arms.now) (do_other turns (tother_tree other.now)) values.now) }
{
    'each: for arm in arms {
        match evaluate(&arm.cond, values) {
            Ok(v) => {
                if v != 0 {
                    return Ok(&arm.body.items);
                }
            }
            Err(stop) => return Err(stop),
        }
    }
    Ok(body_of_else(other))
}

/// Whether the label is the value, or has it in its range.
fn is_labelled(label: &TLabel, v: i64) -> bool
    ensures { result ≡ is_labelled_of v label.now }
{
    label.first <= v && v <= label.last
}

/// Whether one of the labels is the value, or has it in its range.
fn has_label(labels: &[TLabel], v: i64) -> bool
    ensures { result ≡ list_any (is_labelled_of v) labels.now }
{
    'each: for label in labels {
        if is_labelled(label, v) {
            return true;
        }
    }
    false
}

/// The body of the first branch of a CASE with a label for the value, else that of ELSE.
fn body_of_case<'p>(branches: &'p [TBranch], v: i64, other: &'p Option<TStmts>) -> &'p [TStmt]
    ensures { (m : List ℤ) → SoundBranches (tbranch_trees branches.now) m → SoundOther (tother_tree other.now) m
        → IsBody (λ turns. do_branches turns v (tbranch_trees branches.now) (do_other turns (tother_tree other.now)))
        (1 + branches_weight (tbranch_trees branches.now) + other_weight (tother_tree other.now))
        (branches_size (tbranch_trees branches.now) + other_size (tother_tree other.now)) m (tstmt_trees result.now) }
{
    'each: for branch in branches {
        if has_label(&branch.labels.items, v) {
            return &branch.body.items;
        }
    }
    body_of_else(other)
}

/// Does a statement.
#[cycle(statements)]
fn do_stmt(s: &TStmt, state: &mut Working) -> Result<(), Stop>
    requires sound { SoundStmt (tstmt_tree s.now) state.old.values }
    requires room { length state.old.turns.items + stmt_size (tstmt_tree s.now) ≤ vec_capacity state.old.turns }
    ensures done { left state.new.values state.new.turns.items result ≡ do_stmt_of state.old.turns.items (tstmt_tree s.now) state.old.values }
    ensures turns { OnOk result (state.new.turns.items ≡ state.old.turns.items) }
    ensures capacity { vec_capacity state.new.turns ≡ vec_capacity state.old.turns }
{
    trees_of_nodes();
    match s {
        TStmt::Assign { slot, value, .. } => match evaluate(value, &state.values) {
            Ok(v) => {
                state.values.set(*slot, v);
                Ok(())
            }
            Err(stop) => Err(stop),
        },
        TStmt::If { arms, other } => match body_of_if(&arms.items, other, &state.values) {
            Ok(body) => do_stmts(body, state),
            Err(stop) => Err(stop),
        },
        TStmt::Case {
            on,
            branches,
            other,
            ..
        } => match evaluate(on, &state.values) {
            Ok(v) => do_stmts(body_of_case(&branches.items, v, other), state),
            Err(stop) => Err(stop),
        },
        TStmt::For {
            slot,
            first,
            by,
            turns,
            body,
            ..
        } => {
            if *turns == 0 {
                state.values.set(*slot, *first);
                Ok(())
            } else {
                do_turns(*slot, *first, *by, *turns, &body.items, state)
            }
        }
    }
}

/// Does the statements, in order, up to the first that stops.
#[cycle(statements)]
pub fn do_stmts(ss: &[TStmt], state: &mut Working) -> Result<(), Stop>
    requires sound { SoundStmts (tstmt_trees ss.now) state.old.values }
    requires room { length state.old.turns.items + stmts_size (tstmt_trees ss.now) ≤ vec_capacity state.old.turns }
    ensures done { left state.new.values state.new.turns.items result ≡ do_stmts_of state.old.turns.items (tstmt_trees ss.now) state.old.values }
    ensures turns { OnOk result (state.new.turns.items ≡ state.old.turns.items) }
    ensures capacity { vec_capacity state.new.turns ≡ vec_capacity state.old.turns }
{
    'each: for s in ss {
        values_fit();
        match do_stmt(s, state) {
            Ok(()) => {}
            Err(stop) => return Err(stop),
        }
    }
    Ok(())
}

/// Does the turns of a FOR, of which there is at least one.
#[cycle(statements)]
fn do_turns(
    slot: u32,
    first: i64,
    by: i64,
    turns: u128,
    body: &[TStmt],
    state: &mut Working,
) -> Result<(), Stop>
    requires some { 0 < turns }
    requires sound { SoundTurns slot first by turns (tstmt_trees body.now) state.old.values }
    requires room { length state.old.turns.items + (1 + stmts_size (tstmt_trees body.now)) ≤ vec_capacity state.old.turns }
    ensures done { left state.new.values state.new.turns.items result
        ≡ all_turns slot first by turns
        (λ v. do_stmts_of (state.old.turns.items ++ record { name = slot; value = v } ∷ []) (tstmt_trees body.now)) state.old.values }
    ensures turns { OnOk result (state.new.turns.items ≡ state.old.turns.items) }
    ensures capacity { vec_capacity state.new.turns ≡ vec_capacity state.old.turns }
{
    let mut value = first;
    'turns: for turn in 0..turns {
        values_fit();
        state.enter(slot, value);
        match do_stmts(body, state) {
            Ok(()) => {
                state.leave();
                value = next_value(value, by, turn + 1 < turns);
            }
            Err(stop) => return Err(stop),
        }
    }
    Ok(())
}
