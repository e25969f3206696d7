//! Statements.

ghost use Rattle.std.specs.Prelude.{◌≡◌, ◌<◌, ◌+◌, [], ◌∷◌, ◌++◌, Some, OnOk, OnErr, drop, length, slice_get};
ghost use Rattle.st_tree.specs.StmtTree.{assign as assign_tree, if_ as if_tree, case as case_tree, for_ as for_tree, no_stmts, and_stmt, no_arms, and_arm};
ghost use Rattle.st_tree.specs.StmtTree.{no_branches, and_branch};
ghost use Rattle.st_tree.specs.Appended.{stmts_and, arms_and, branches_and};
ghost use Rattle.st_tree.specs.ExprViews.{expr_tree, expr_tree_or_none};
ghost use Rattle.st_tree.specs.StmtViews.{label_trees, stmt_tree, stmt_trees, arm_trees, branch_trees, other_tree};
ghost use Rattle.st_tree.specs.Items.{arm_items, branch_items};

use crate::expr::Expr;
use crate::nodes::Nodes;
use std::alloc::Global;
use vcp_base::{Memory, Spot, Text, append};

/// A label of a CASE: one value, or the range from the first to the last.
pub struct Label {
    pub first: Expr,
    pub last: Option<Expr>,
}

impl Drop for Label {
    fn drop(self) {
        let Label { first: _, last: _ } = self;
    }
}

/// The labels of a branch of a CASE.
pub type Labels = Nodes<Label>;

/// A list of statements.
#[cycle(stmt)]
pub struct Stmts {
    pub items: Vec<Stmt>,
}

impl Drop for Stmts {
    #[cycle(stmt_drop)]
    fn drop(self) {
        let Stmts { items: _ } = self;
    }
}

/// A condition of an IF with its body, and the spot of the IF or ELSIF.
#[cycle(stmt)]
pub struct Arm {
    pub cond: Expr,
    pub body: Stmts,
    pub spot: Spot,
}

impl Drop for Arm {
    #[cycle(stmt_drop)]
    fn drop(self) {
        let Arm {
            cond: _,
            body: _,
            spot: _,
        } = self;
    }
}

/// The conditions of an IF, in order, with their bodies.
#[cycle(stmt)]
pub struct Arms {
    pub items: Vec<Arm>,
}

impl Drop for Arms {
    #[cycle(stmt_drop)]
    fn drop(self) {
        let Arms { items: _ } = self;
    }
}

/// The labels of a branch of a CASE, with its body.
#[cycle(stmt)]
pub struct Branch {
    pub labels: Labels,
    pub body: Stmts,
}

impl Drop for Branch {
    #[cycle(stmt_drop)]
    fn drop(self) {
        let Branch { labels: _, body: _ } = self;
    }
}

/// The branches of a CASE, in order.
#[cycle(stmt)]
pub struct Branches {
    pub items: Vec<Branch>,
}

impl Drop for Branches {
    #[cycle(stmt_drop)]
    fn drop(self) {
        let Branches { items: _ } = self;
    }
}

/// A statement.
#[cycle(stmt)]
pub enum Stmt {
    /// An assignment, with the spot of the assigned name.
    Assign {
        name: Text,
        value: Expr,
        spot: Spot,
    },
    /// IF with its ELSIFs, and the body of ELSE where there is one.
    If {
        arms: Arms,
        other: Option<Stmts>,
    },
    /// CASE, with the spot of its keyword, and the body of ELSE where there is one.
    Case {
        on: Expr,
        branches: Branches,
        other: Option<Stmts>,
        spot: Spot,
    },
    /// FOR, with the spot of its keyword, and that of the control variable's name. `by` is the step,
    /// where one is given.
    For {
        name: Text,
        name_spot: Spot,
        first: Expr,
        last: Expr,
        by: Option<Expr>,
        body: Stmts,
        spot: Spot,
    },
}

impl Drop for Stmt {
    #[cycle(stmt_drop)]
    fn drop(self) {
        match self {
            Stmt::Assign {
                name: _,
                value: _,
                spot: _,
            } => {}
            Stmt::If { arms: _, other: _ } => {}
            Stmt::Case {
                on: _,
                branches: _,
                other: _,
                spot: _,
            } => {}
            Stmt::For {
                name: _,
                name_spot: _,
                first: _,
                last: _,
                by: _,
                body: _,
                spot: _,
            } => {}
        }
    }
}

impl Stmts {
    /// A list of no statements. It takes no memory.
    pub fn new(alloc: Global) -> Stmts
        ensures items { result.items.items ≡ [] }
        ensures tree { stmt_trees result.items.items ≡ no_stmts }
    {
        Stmts {
            items: Vec::new(alloc),
        }
    }

    /// Appends a statement. After `Memory` the list is unchanged.
    pub fn push(&mut self, item: Stmt) -> Result<(), Memory>
        ensures items { OnOk result (self.new.items.items ≡ self.old.items.items ++ item ∷ []) }
        ensures tree { OnOk result
            (stmt_trees self.new.items.items
            ≡ stmts_and (stmt_trees self.old.items.items) (stmt_tree item)) }
        ensures unchanged { OnErr result (self.new.items.items ≡ self.old.items.items) }
    {
        append(&mut self.items, item)
    }

    /// How many statements there are.
    pub fn len(&self) -> usize
        ensures { result ≡ length self.now.items.items }
    {
        self.items.len()
    }

    /// The statement at place `i`, counted from 0, where `i` is less than `len`.
    pub fn at(&self, i: usize) -> &Stmt
        requires { i < length self.now.items.items }
        ensures item { slice_get self.now.items.items i ≡ Some result.now }
        ensures tree { stmt_trees (drop i self.now.items.items)
            ≡ and_stmt (stmt_tree result.now) (stmt_trees (drop (i + 1) self.now.items.items)) }
    {
        &self.items[i]
    }
}

impl Arms {
    /// A list of no conditions. It takes no memory.
    pub fn new(alloc: Global) -> Arms
        ensures items { arm_items result ≡ [] }
        ensures tree { arm_trees (arm_items result) ≡ no_arms }
    {
        Arms {
            items: Vec::new(alloc),
        }
    }

    /// Appends a condition with its body. After `Memory` the list is unchanged.
    pub fn push(&mut self, item: Arm) -> Result<(), Memory>
        ensures items { OnOk result (arm_items self.new ≡ arm_items self.old ++ item ∷ []) }
        ensures tree { OnOk result
            (arm_trees (arm_items self.new)
            ≡ arms_and (arm_trees (arm_items self.old)) (expr_tree item.cond) (stmt_trees item.body.items.items) item.spot) }
        ensures unchanged { OnErr result (arm_items self.new ≡ arm_items self.old) }
    {
        append(&mut self.items, item)
    }

    /// How many conditions there are.
    pub fn len(&self) -> usize
        ensures { result ≡ length (arm_items self.now) }
    {
        self.items.len()
    }

    /// The condition with its body at place `i`, counted from 0, where `i` is less than `len`.
    pub fn at(&self, i: usize) -> &Arm
        requires { i < length (arm_items self.now) }
        ensures item { slice_get (arm_items self.now) i ≡ Some result.now }
        ensures tree { arm_trees (drop i (arm_items self.now))
            ≡ and_arm (expr_tree result.now.cond) (stmt_trees result.now.body.items.items) result.now.spot (arm_trees (drop (i + 1) (arm_items self.now))) }
    {
        &self.items[i]
    }
}

impl Branches {
    /// A list of no branches. It takes no memory.
    pub fn new(alloc: Global) -> Branches
        ensures items { branch_items result ≡ [] }
        ensures tree { branch_trees (branch_items result) ≡ no_branches }
    {
        Branches {
            items: Vec::new(alloc),
        }
    }

    /// Appends a branch. After `Memory` the list is unchanged.
    pub fn push(&mut self, item: Branch) -> Result<(), Memory>
        ensures items { OnOk result (branch_items self.new ≡ branch_items self.old ++ item ∷ []) }
        ensures tree { OnOk result
            (branch_trees (branch_items self.new)
            ≡ branches_and (branch_trees (branch_items self.old)) (label_trees item.labels.items.items) (stmt_trees item.body.items.items)) }
        ensures unchanged { OnErr result (branch_items self.new ≡ branch_items self.old) }
    {
        append(&mut self.items, item)
    }

    /// How many branches there are.
    pub fn len(&self) -> usize
        ensures { result ≡ length (branch_items self.now) }
    {
        self.items.len()
    }

    /// The branch at place `i`, counted from 0, where `i` is less than `len`.
    pub fn at(&self, i: usize) -> &Branch
        requires { i < length (branch_items self.now) }
        ensures item { slice_get (branch_items self.now) i ≡ Some result.now }
        ensures tree { branch_trees (drop i (branch_items self.now))
            ≡ and_branch (label_trees result.now.labels.items.items) (stmt_trees result.now.body.items.items)
            (branch_trees (drop (i + 1) (branch_items self.now))) }
    {
        &self.items[i]
    }
}

impl Stmt {
    /// An assignment.
    pub fn assign(name: Text, value: Expr, spot: Spot) -> Stmt
        ensures { stmt_tree result ≡ assign_tree name (expr_tree value) spot }
    {
        Stmt::Assign { name, value, spot }
    }

    /// IF with its ELSIFs, and the body of ELSE where there is one.
    pub fn if_(arms: Arms, other: Option<Stmts>) -> Stmt
        ensures { stmt_tree result ≡ if_tree (arm_trees (arm_items arms)) (other_tree other) }
    {
        Stmt::If { arms, other }
    }

    /// CASE with its branches, and the body of ELSE where there is one.
    pub fn case(on: Expr, branches: Branches, other: Option<Stmts>, spot: Spot) -> Stmt
        ensures { stmt_tree result
            ≡ case_tree (expr_tree on) (branch_trees (branch_items branches)) (other_tree other) spot }
    {
        Stmt::Case {
            on,
            branches,
            other,
            spot,
        }
    }

    /// FOR, with the step where one is given.
    pub fn for_(
        name: Text,
        name_spot: Spot,
        first: Expr,
        last: Expr,
        by: Option<Expr>,
        body: Stmts,
        spot: Spot,
    ) -> Stmt
        ensures { stmt_tree result
            ≡ for_tree
            name
            name_spot
            (expr_tree first)
            (expr_tree last)
            (expr_tree_or_none by)
            (stmt_trees body.items.items)
            spot }
    {
        Stmt::For {
            name,
            name_spot,
            first,
            last,
            by,
            body,
            spot,
        }
    }
}
