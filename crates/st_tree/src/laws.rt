//! Laws of what nodes hold, for the crates above.

ghost use Rattle.std.specs.Prelude.{◌≡◌, ℕ, List, [], ◌∷◌, ◌++◌, Option};
ghost use Rattle.vcp_base.specs.declared.spot.Spot.{Spot};
ghost use Rattle.vcp_base.specs.declared.text.Text.{Text};
ghost use Rattle.st_tree.specs.declared.expr.Expr.{Expr, Call};
ghost use Rattle.st_tree.specs.declared.expr.Exprs.{Exprs};
ghost use Rattle.st_tree.specs.declared.stmt.Arm.{Arm};
ghost use Rattle.st_tree.specs.declared.stmt.Arms.{Arms};
ghost use Rattle.st_tree.specs.declared.stmt.Branch.{Branch};
ghost use Rattle.st_tree.specs.declared.stmt.Branches.{Branches};
ghost use Rattle.st_tree.specs.declared.stmt.Stmt.{Stmt, If, Case, For};
ghost use Rattle.st_tree.specs.declared.stmt.Stmts.{Stmts};
ghost use Rattle.st_tree.specs.ExprTree.{call};
ghost use Rattle.st_tree.specs.StmtTree.{if_, case, for_};
ghost use Rattle.st_tree.specs.Appended.{exprs_and, stmts_and, arms_and, branches_and};
ghost use Rattle.st_tree.specs.ExprViews.{expr_tree, expr_trees, expr_tree_or_none};
ghost use Rattle.st_tree.specs.StmtViews.{label_tree, label_trees, stmt_tree, stmt_trees, arm_trees, branch_trees, other_tree};
ghost use Rattle.st_tree.specs.ProgramViews.{declared_tree, decl_tree, block_tree};
ghost use Rattle.st_tree.specs.Listed.{ListsTrees};
ghost use Rattle.st_tree.specs.Items.{arm_items, branch_items};

/// What a node holds that has lists: the trees of their items.
pub fn trees_of_nodes()
    ensures call { (name : Text) (args : Exprs) (spot : Spot) → expr_tree (Call name args spot) ≡ call name (expr_trees args.items.items) spot }
    ensures if_ { (arms : Arms) (other : Option Stmts) → stmt_tree (If arms other) ≡ if_ (arm_trees (arm_items arms)) (other_tree other) }
    ensures case { (on : Expr) (branches : Branches) (other : Option Stmts) (spot : Spot)
        → stmt_tree (Case on branches other spot) ≡ case (expr_tree on) (branch_trees (branch_items branches)) (other_tree other) spot }
    ensures for_ { (name : Text) (name_spot : Spot) (first last : Expr) (by : Option Expr) (body : Stmts) (spot : Spot)
        → stmt_tree (For name name_spot first last by body spot)
        ≡ for_ name name_spot (expr_tree first) (expr_tree last) (expr_tree_or_none by) (stmt_trees body.items.items) spot }
{}

/// The trees of a list with one item more are the trees of the list with one tree more.
pub fn trees_of_appended()
    ensures exprs { (es : List Expr) (e : Expr) → expr_trees (es ++ e ∷ []) ≡ exprs_and (expr_trees es) (expr_tree e) }
    ensures stmts { (ss : List Stmt) (s : Stmt) → stmt_trees (ss ++ s ∷ []) ≡ stmts_and (stmt_trees ss) (stmt_tree s) }
    ensures arms { (arms : List Arm) (a : Arm)
        → arm_trees (arms ++ a ∷ []) ≡ arms_and (arm_trees arms) (expr_tree a.cond) (stmt_trees a.body.items.items) a.spot }
    ensures branches { (branches : List Branch) (b : Branch)
        → branch_trees (branches ++ b ∷ []) ≡ branches_and (branch_trees branches) (label_trees b.labels.items.items) (stmt_trees b.body.items.items) }
{}

/// The trees of what `Nodes` lists are those of its items, in their order: so what `new`, `push` and `at` say of the items is said of the trees.
pub fn trees_of_listed()
    ensures labels { ListsTrees label_tree }
    ensures declared { ListsTrees declared_tree }
    ensures declarations { ListsTrees decl_tree }
    ensures blocks { ListsTrees block_tree }
{}
