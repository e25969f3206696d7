//! Checked statements.

ghost use Rattle.std.specs.Prelude.{◌≡◌, ◌<◌, ◌+◌, ◌+ℤ◌, [], ◌∷◌, ◌++◌, FitsSigned, Some, OnOk, OnErr, drop, false, length, slice_get, true};
ghost use Rattle.std.specs.Int.{w64};
ghost use Rattle.vcp_typed.specs.TExprViews.{texpr_tree};
ghost use Rattle.vcp_typed.specs.Items.{tarm_items, tbranch_items};
ghost use Rattle.vcp_typed.specs.TStmtTree.{assign as assign_tree, if_ as if_tree, case as case_tree, for_ as for_tree, no_tstmts, and_tstmt, no_tarms};
ghost use Rattle.vcp_typed.specs.TStmtTree.{and_tarm, no_tbranches, and_tbranch};
ghost use Rattle.vcp_typed.specs.TStmtViews.{tstmt_tree, tstmt_trees, tarm_trees, tbranch_trees, tother_tree, tstmts_and, tarms_and, tbranches_and};

use crate::expr::TExpr;
use st_tree::Nodes;
use std::alloc::Global;
use vcp_base::{Memory, Spot, append};

/// A label of a CASE: the values from `first` to `last`, written as a range or as one value.
#[derive(Clone, Copy, Drop)]
pub struct TLabel {
    pub first: i64,
    pub last: i64,
    pub range: bool,
    pub spot: Spot,
}

/// The labels of a branch of a CASE.
pub type TLabels = Nodes<TLabel>;

/// A list of statements.
#[cycle(typed_stmt)]
pub struct TStmts {
    pub items: Vec<TStmt>,
}

impl Drop for TStmts {
    #[cycle(typed_stmt_drop)]
    fn drop(self) {
        let TStmts { items: _ } = self;
    }
}

/// A condition of an IF with its body, and the spot of the IF or ELSIF.
#[cycle(typed_stmt)]
pub struct TArm {
    pub cond: TExpr,
    pub body: TStmts,
    pub spot: Spot,
}

impl Drop for TArm {
    #[cycle(typed_stmt_drop)]
    fn drop(self) {
        let TArm {
            cond: _,
            body: _,
            spot: _,
        } = self;
    }
}

/// The conditions of an IF, in order, with their bodies.
#[cycle(typed_stmt)]
pub struct TArms {
    pub items: Vec<TArm>,
}

impl Drop for TArms {
    #[cycle(typed_stmt_drop)]
    fn drop(self) {
        let TArms { items: _ } = self;
    }
}

/// The labels of a branch of a CASE, with its body.
#[cycle(typed_stmt)]
pub struct TBranch {
    pub labels: TLabels,
    pub body: TStmts,
}

impl Drop for TBranch {
    #[cycle(typed_stmt_drop)]
    fn drop(self) {
        let TBranch { labels: _, body: _ } = self;
    }
}

/// The branches of a CASE, in order.
#[cycle(typed_stmt)]
pub struct TBranches {
    pub items: Vec<TBranch>,
}

impl Drop for TBranches {
    #[cycle(typed_stmt_drop)]
    fn drop(self) {
        let TBranches { items: _ } = self;
    }
}

/// A checked statement.
#[cycle(typed_stmt)]
pub enum TStmt {
    /// An assignment to a slot, with the spot of the assigned name.
    Assign {
        slot: u32,
        value: TExpr,
        spot: Spot,
    },
    /// IF with its ELSIFs, and the body of ELSE where there is one.
    If {
        arms: TArms,
        other: Option<TStmts>,
    },
    /// CASE, with the spot of its keyword, and the body of ELSE where there is one.
    Case {
        on: TExpr,
        branches: TBranches,
        other: Option<TStmts>,
        spot: Spot,
    },
    /// FOR over so many turns: the control variable is `first`, `first + by` and so on. The spot is
    /// that of the control variable's name.
    For {
        slot: u32,
        first: i64,
        by: i64,
        turns: u128,
        body: TStmts,
        spot: Spot,
    },
}

impl Drop for TStmt {
    #[cycle(typed_stmt_drop)]
    fn drop(self) {
        match self {
            TStmt::Assign {
                slot: _,
                value: _,
                spot: _,
            } => {}
            TStmt::If { arms: _, other: _ } => {}
            TStmt::Case {
                on: _,
                branches: _,
                other: _,
                spot: _,
            } => {}
            TStmt::For {
                slot: _,
                first: _,
                by: _,
                turns: _,
                body: _,
                spot: _,
            } => {}
        }
    }
}

impl TStmts {
    /// A list of no statements. It takes no memory.
    pub fn new(alloc: Global) -> TStmts
        ensures items { result.items.items ≡ [] }
        ensures tree { tstmt_trees result.items.items ≡ no_tstmts }
    {
        TStmts {
            items: Vec::new(alloc),
        }
    }

    /// Appends a statement. After `Memory` the list is unchanged.
    pub fn push(&mut self, item: TStmt) -> Result<(), Memory>
        ensures items { OnOk result (self.new.items.items ≡ self.old.items.items ++ item ∷ []) }
        ensures tree { OnOk result
            (tstmt_trees self.new.items.items
            ≡ tstmts_and (tstmt_trees self.old.items.items) (tstmt_tree item)) }
        ensures unchanged { OnErr result (self.new.items.items ≡ self.old.items.items) }
    {
        append(&mut self.items, item)
    }

    /// How many statements there are.
    pub fn len(&self) -> usize
        ensures { result ≡ length self.now.items.items }
    {
        self.items.len()
    }

    /// The statement at place `i`, counted from 0, where `i` is less than `len`.
    pub fn at(&self, i: usize) -> &TStmt
        requires { i < length self.now.items.items }
        ensures item { slice_get self.now.items.items i ≡ Some result.now }
        ensures tree { tstmt_trees (drop i self.now.items.items)
            ≡ and_tstmt (tstmt_tree result.now) (tstmt_trees (drop (i + 1) self.now.items.items)) }
    {
        &self.items[i]
    }
}

impl TArms {
    /// A list of no conditions. It takes no memory.
    pub fn new(alloc: Global) -> TArms
        ensures items { tarm_items result ≡ [] }
        ensures tree { tarm_trees (tarm_items result) ≡ no_tarms }
    {
        TArms {
            items: Vec::new(alloc),
        }
    }

    /// Appends a condition with its body. After `Memory` the list is unchanged.
    pub fn push(&mut self, item: TArm) -> Result<(), Memory>
        ensures items { OnOk result (tarm_items self.new ≡ tarm_items self.old ++ item ∷ []) }
        ensures tree { OnOk result
            (tarm_trees (tarm_items self.new)
            ≡ tarms_and (tarm_trees (tarm_items self.old)) (texpr_tree item.cond) (tstmt_trees item.body.items.items) item.spot) }
        ensures unchanged { OnErr result (tarm_items self.new ≡ tarm_items self.old) }
    {
        append(&mut self.items, item)
    }

    /// How many conditions there are.
    pub fn len(&self) -> usize
        ensures { result ≡ length (tarm_items self.now) }
    {
        self.items.len()
    }

    /// The condition at place `i`, counted from 0, where `i` is less than `len`.
    pub fn at(&self, i: usize) -> &TArm
        requires { i < length (tarm_items self.now) }
        ensures item { slice_get (tarm_items self.now) i ≡ Some result.now }
        ensures tree { tarm_trees (drop i (tarm_items self.now))
            ≡ and_tarm (texpr_tree result.now.cond) (tstmt_trees result.now.body.items.items) result.now.spot
            (tarm_trees (drop (i + 1) (tarm_items self.now))) }
    {
        &self.items[i]
    }
}

impl TBranches {
    /// A list of no branches. It takes no memory.
    pub fn new(alloc: Global) -> TBranches
        ensures items { tbranch_items result ≡ [] }
        ensures tree { tbranch_trees (tbranch_items result) ≡ no_tbranches }
    {
        TBranches {
            items: Vec::new(alloc),
        }
    }

    /// Appends a branch. After `Memory` the list is unchanged.
    pub fn push(&mut self, item: TBranch) -> Result<(), Memory>
        ensures items { OnOk result (tbranch_items self.new ≡ tbranch_items self.old ++ item ∷ []) }
        ensures tree { OnOk result
            (tbranch_trees (tbranch_items self.new)
            ≡ tbranches_and (tbranch_trees (tbranch_items self.old)) item.labels.items.items (tstmt_trees item.body.items.items)) }
        ensures unchanged { OnErr result (tbranch_items self.new ≡ tbranch_items self.old) }
    {
        append(&mut self.items, item)
    }

    /// How many branches there are.
    pub fn len(&self) -> usize
        ensures { result ≡ length (tbranch_items self.now) }
    {
        self.items.len()
    }

    /// The branch at place `i`, counted from 0, where `i` is less than `len`.
    pub fn at(&self, i: usize) -> &TBranch
        requires { i < length (tbranch_items self.now) }
        ensures item { slice_get (tbranch_items self.now) i ≡ Some result.now }
        ensures tree { tbranch_trees (drop i (tbranch_items self.now))
            ≡ and_tbranch result.now.labels.items.items (tstmt_trees result.now.body.items.items) (tbranch_trees (drop (i + 1) (tbranch_items self.now))) }
    {
        &self.items[i]
    }
}

impl TStmt {
    /// An assignment to a slot.
    pub fn assign(slot: u32, value: TExpr, spot: Spot) -> TStmt
        ensures { tstmt_tree result ≡ assign_tree slot (texpr_tree value) spot }
    {
        TStmt::Assign { slot, value, spot }
    }

    /// IF with its ELSIFs, and the body of ELSE where there is one.
    pub fn if_(arms: TArms, other: Option<TStmts>) -> TStmt
        ensures { tstmt_tree result
            ≡ if_tree (tarm_trees (tarm_items arms)) (tother_tree other) }
    {
        TStmt::If { arms, other }
    }

    /// CASE with its branches, and the body of ELSE where there is one.
    pub fn case(on: TExpr, branches: TBranches, other: Option<TStmts>, spot: Spot) -> TStmt
        ensures { tstmt_tree result
            ≡ case_tree
            (texpr_tree on)
            (tbranch_trees (tbranch_items branches))
            (tother_tree other)
            spot }
    {
        TStmt::Case {
            on,
            branches,
            other,
            spot,
        }
    }

    /// FOR over so many turns: the control variable is `first`, `first + by` and so on.
    pub fn for_(slot: u32, first: i64, by: i64, turns: u128, body: TStmts, spot: Spot) -> TStmt
        ensures { tstmt_tree result
            ≡ for_tree slot first by turns (tstmt_trees body.items.items) spot }
    {
        TStmt::For {
            slot,
            first,
            by,
            turns,
            body,
            spot,
        }
    }
}

/// The control variable's value in the next turn of a FOR; after the last turn it keeps its value.
pub fn next_value(value: i64, by: i64, more: bool) -> i64
    requires { more ≡ true → FitsSigned w64 (value +ℤ by) }
    ensures next { more ≡ true → result ≡ value +ℤ by }
    ensures last { more ≡ false → result ≡ value }
{
    if more { value + by } else { value }
}
