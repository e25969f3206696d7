//! The Size of a checked program, up to the first that is too large, and whether it has values of LINT: one walk finds both.

ghost use Rattle.std.specs.Prelude.{◌≡◌, ◌<◌, ◌+◌, ◌*◌, ◌||◌, false, sum_by};
ghost use Rattle.std.specs.List.{list_any};
ghost use Rattle.vcp_typed.specs.Measures.{Grows};
ghost use Rattle.vcp_typed.specs.Size.{cut, operator_size, function_size, expr_size, exprs_size, label_size, stmt_size, stmts_size, arms_size, branches_size};
ghost use Rattle.vcp_typed.specs.Size.{other_size, section_size, size};
ghost use Rattle.vcp_typed.specs.Wide.{is_lint, expr_is_wide, exprs_are_wide, stmt_is_wide, stmts_are_wide, arms_are_wide, branches_are_wide, other_is_wide};
ghost use Rattle.vcp_typed.specs.Wide.{wide};
ghost use Rattle.vcp_typed.specs.TExprViews.{texpr_tree, texpr_trees};
ghost use Rattle.vcp_typed.specs.TStmtViews.{tstmt_tree, tstmt_trees, tarm_trees, tbranch_trees, tother_tree};

use crate::expr::{Fun, TExpr};
use crate::slot::{Slot, Slots};
use crate::stmt::{TArm, TBranch, TLabel, TStmt, TStmts};
use st_tree::{BinOp, Section};
use vcp_base::{MOST_SIZE, Ty};

/// The least Size that no program may have.
const TOO_LARGE: u32 = MOST_SIZE + 1;

/// What the walk finds of a part of a program.
#[derive(Clone, Copy)]
pub(crate) struct Measure {
    /// Its Size, up to the first that is too large.
    pub size: u32,
    /// Whether a node of it has the type LINT.
    pub wide: bool,
}

/// The measure with a part of this Size, which has the type LINT or not.
fn more(total: Measure, size: u32, wide: bool) -> Measure
    ensures size { result.size ≡ cut (total.size + size) }
    ensures wide { result.wide ≡ (total.wide || wide) }
{
    Measure {
        size: plus(total.size, size),
        wide: total.wide || wide,
    }
}

fn is_lint(ty: Ty) -> bool
    ensures { result ≡ is_lint ty }
{
    matches!(ty, Ty::Lint)
}

/// The Size of a FOR: of its turns, or of none.
fn repeated(turns: u128, body: u32) -> u32
    ensures none { turns ≡ 0 → result ≡ 2 }
    ensures some { 0 < turns → result ≡ cut (turns * cut (2 + body)) }
{
    if turns == 0 {
        2
    } else {
        let turns = turns.min(u128::from(TOO_LARGE)) as u32;
        (u64::from(turns) * u64::from(plus(2, body))).min(u64::from(TOO_LARGE)) as u32
    }
}

/// The sum of two Sizes, cut at the first that is too large.
fn plus(a: u32, b: u32) -> u32
    ensures { result ≡ cut (a + b) }
{
    a.saturating_add(b).min(TOO_LARGE)
}

fn operator_size(op: BinOp) -> u32
    ensures { result ≡ operator_size op }
{
    match op {
        BinOp::Le | BinOp::Ge | BinOp::Ne => 4,
        _ => 3,
    }
}

fn function_size(fun: Fun) -> u32
    ensures { result ≡ function_size fun }
{
    match fun {
        Fun::Abs => 5,
        Fun::Limit => 6,
        Fun::Min | Fun::Max | Fun::Sel => 3,
        _ => 2,
    }
}

#[cycle(measure)]
fn expr_measure(total: Measure, e: &TExpr) -> Measure
    ensures { Grows total result (expr_size (texpr_tree e.now)) (expr_is_wide (texpr_tree e.now)) }
{
    match e {
        TExpr::Lit { ty, .. } => more(total, 1, is_lint(*ty)),
        TExpr::Get { ty, .. } => more(total, 0, is_lint(*ty)),
        TExpr::Widen { ty, arg } => expr_measure(more(total, 0, is_lint(*ty)), arg),
        TExpr::Unary { ty, arg, .. } => expr_measure(more(total, 2, is_lint(*ty)), arg),
        TExpr::Binary {
            op,
            ty,
            left,
            right,
            ..
        } => expr_measure(
            expr_measure(more(total, operator_size(*op), is_lint(*ty)), left),
            right,
        ),
        TExpr::Call { fun, ty, args, .. } => exprs_measure(
            more(total, function_size(*fun), is_lint(*ty)),
            &args.items,
        ),
    }
}

#[cycle(measure)]
fn exprs_measure(total: Measure, es: &[TExpr]) -> Measure
    ensures { Grows total result (exprs_size (texpr_trees es.now)) (exprs_are_wide (texpr_trees es.now)) }
{
    let mut sum = total;
    'each: for e in es {
        sum = expr_measure(sum, e);
    }
    sum
}

fn label_size(label: &TLabel) -> u32
    ensures { result ≡ label_size label.now }
{
    if label.range { 7 } else { 3 }
}

fn labels_size(labels: &[TLabel]) -> u32
    ensures { result ≡ cut (sum_by label_size labels.now) }
{
    let mut total = 0;
    'each: for label in labels {
        total = plus(total, label_size(label));
    }
    total
}

#[cycle(measures)]
fn stmt_measure(total: Measure, s: &TStmt) -> Measure
    ensures { Grows total result (stmt_size (tstmt_tree s.now)) (stmt_is_wide (tstmt_tree s.now)) }
{
    match s {
        TStmt::Assign { value, .. } => expr_measure(more(total, 1, false), value),
        TStmt::If { arms, other } => other_measure(arms_measure(total, &arms.items), other),
        TStmt::Case {
            on,
            branches,
            other,
            ..
        } => other_measure(
            branches_measure(expr_measure(total, on), &branches.items),
            other,
        ),
        TStmt::For { turns, body, .. } => {
            let nothing = Measure {
                size: 0,
                wide: false,
            };
            let body = stmts_measure(nothing, &body.items);
            more(total, repeated(*turns, body.size), body.wide)
        }
    }
}

#[cycle(measures)]
fn stmts_measure(total: Measure, ss: &[TStmt]) -> Measure
    ensures { Grows total result (stmts_size (tstmt_trees ss.now)) (stmts_are_wide (tstmt_trees ss.now)) }
{
    let mut sum = total;
    'each: for s in ss {
        sum = stmt_measure(sum, s);
    }
    sum
}

#[cycle(measures)]
fn arms_measure(total: Measure, arms: &[TArm]) -> Measure
    ensures { Grows total result (arms_size (tarm_trees arms.now)) (arms_are_wide (tarm_trees arms.now)) }
{
    let mut sum = total;
    'each: for arm in arms {
        sum = stmts_measure(
            expr_measure(more(sum, 3, false), &arm.cond),
            &arm.body.items,
        );
    }
    sum
}

#[cycle(measures)]
fn branches_measure(total: Measure, branches: &[TBranch]) -> Measure
    ensures { Grows total result (branches_size (tbranch_trees branches.now)) (branches_are_wide (tbranch_trees branches.now)) }
{
    let mut sum = total;
    'each: for branch in branches {
        let labels = plus(3, labels_size(&branch.labels.items));
        sum = stmts_measure(more(sum, labels, false), &branch.body.items);
    }
    sum
}

#[cycle(measures)]
fn other_measure(total: Measure, other: &Option<TStmts>) -> Measure
    ensures { Grows total result (other_size (tother_tree other.now)) (other_is_wide (tother_tree other.now)) }
{
    match other {
        None => total,
        Some(body) => stmts_measure(total, &body.items),
    }
}

fn section_size(section: Section) -> u32
    ensures { result ≡ section_size section }
{
    match section {
        Section::Input => 1,
        Section::Output => 3,
        Section::Local => 2,
        Section::Retain => 2,
        Section::Constant => 0,
    }
}

fn slots_measure(total: Measure, slots: &[Slot]) -> Measure
    ensures { Grows total result (sum_by (λ s. section_size s.section) slots.now) (list_any (λ s. is_lint s.ty) slots.now) }
{
    let mut sum = total;
    'each: for s in slots {
        sum = more(sum, section_size(s.section), is_lint(s.ty));
    }
    sum
}

/// The Size of a program of these slots and this body, or 65,537 where it is more than 65,536, and whether a slot or a node
/// of these has the type LINT.
pub(crate) fn measured(slots: &Slots, body: &TStmts) -> Measure
    ensures size { result.size
        ≡ cut (size (record { slots = slots.now.items.items; body = tstmt_trees body.now.items.items })) }
    ensures wide { result.wide ≡ wide (record { slots = slots.now.items.items; body = tstmt_trees body.now.items.items }) }
{
    let own = Measure {
        size: 2,
        wide: false,
    };
    stmts_measure(slots_measure(own, &slots.items), &body.items)
}

/// The Size of a program of these slots and this body, or 65,537 where it is more than 65,536.
pub fn size_of(slots: &Slots, body: &TStmts) -> u32
    ensures { result
        ≡ cut (size (record { slots = slots.now.items.items; body = tstmt_trees body.now.items.items })) }
{
    measured(slots, body).size
}
