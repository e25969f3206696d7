//! Laws of what nodes hold, for the crates above.

ghost use Rattle.std.specs.Prelude.{◌≡◌, ℕ, ℤ, true, List, [], ◌∷◌, ◌++◌, Option, IfOk, IfErr, IfSome};
ghost use Rattle.vcp_base.specs.declared.spot.Spot.{Spot};
ghost use Rattle.vcp_base.specs.declared.ty.Ty.{Ty};
ghost use Rattle.vcp_typed.specs.declared.expr.Fun.{Fun};
ghost use Rattle.vcp_typed.specs.declared.expr.TExpr.{TExpr, Call};
ghost use Rattle.vcp_typed.specs.declared.expr.TExprs.{TExprs};
ghost use Rattle.vcp_typed.specs.declared.stmt.TArm.{TArm};
ghost use Rattle.vcp_typed.specs.declared.stmt.TArms.{TArms};
ghost use Rattle.vcp_typed.specs.declared.stmt.TBranch.{TBranch};
ghost use Rattle.vcp_typed.specs.declared.stmt.TBranches.{TBranches};
ghost use Rattle.vcp_typed.specs.declared.stmt.TStmt.{TStmt, If, Case, For};
ghost use Rattle.vcp_typed.specs.declared.stmt.TStmts.{TStmts};
ghost use Rattle.vcp_base.specs.declared.turns.Turn.{Turn};
ghost use Rattle.vcp_base.specs.declared.kind.StopKind.TheVariants as why;
ghost use Rattle.vcp_base.specs.Types.{fits};
ghost use Rattle.vcp_typed.specs.declared.slot.Slot.{Slot};
ghost use Rattle.vcp_typed.specs.Checked.{IsChecked, IsExpr, AreStmts, ty_of};
ghost use Rattle.vcp_base.specs.Types.{AreIn};
ghost use Rattle.vcp_typed.specs.Fitting.{AreRows, AreFit, NameSlots, input_types, output_types};
ghost use Rattle.vcp_typed.specs.Meaning.{value, do_stmts};
ghost use Rattle.vcp_typed.specs.SourceRun.{Program, initial, with_inputs, outputs, cycle, source_run};
ghost use Rattle.vcp_typed.specs.Items.{tarm_items, tbranch_items};
ghost use Rattle.vcp_typed.specs.TExprTree.{TExprTree, call};
ghost use Rattle.vcp_typed.specs.TExprViews.{texpr_tree, texpr_trees, texprs_and};
ghost use Rattle.vcp_typed.specs.TStmtTree.{TStmtTrees, if_, case, for_};
ghost use Rattle.vcp_typed.specs.TStmtViews.{tstmt_tree, tstmt_trees, tarm_trees, tbranch_trees, tother_tree, tstmts_and, tarms_and, tbranches_and};

/// What a node holds that has lists: the trees of their items.
pub fn trees_of_nodes()
    ensures call { (fun : Fun) (t : Ty) (args : TExprs) (spot : Spot) → texpr_tree (Call fun t args spot) ≡ call fun t (texpr_trees args.items.items) spot }
    ensures if_ { (arms : TArms) (other : Option TStmts) → tstmt_tree (If arms other) ≡ if_ (tarm_trees (tarm_items arms)) (tother_tree other) }
    ensures case { (on : TExpr) (branches : TBranches) (other : Option TStmts) (spot : Spot)
        → tstmt_tree (Case on branches other spot) ≡ case (texpr_tree on) (tbranch_trees (tbranch_items branches)) (tother_tree other) spot }
    ensures for_ { (slot : ℕ) (first by : ℤ) (turns : ℕ) (body : TStmts) (spot : Spot)
        → tstmt_tree (For slot first by turns body spot) ≡ for_ slot first by turns (tstmt_trees body.items.items) spot }
{}

/// The trees of a list with one item more are the trees of the list with one tree more.
pub fn trees_of_appended()
    ensures exprs { (es : List TExpr) (e : TExpr) → texpr_trees (es ++ e ∷ []) ≡ texprs_and (texpr_trees es) (texpr_tree e) }
    ensures stmts { (ss : List TStmt) (s : TStmt) → tstmt_trees (ss ++ s ∷ []) ≡ tstmts_and (tstmt_trees ss) (tstmt_tree s) }
    ensures arms { (arms : List TArm) (a : TArm)
        → tarm_trees (arms ++ a ∷ []) ≡ tarms_and (tarm_trees arms) (texpr_tree a.cond) (tstmt_trees a.body.items.items) a.spot }
    ensures branches { (branches : List TBranch) (b : TBranch)
        → tbranch_trees (branches ++ b ∷ []) ≡ tbranches_and (tbranch_trees branches) b.labels.items.items (tstmt_trees b.body.items.items) }
{}

/// In a checked program every value is in its type: of expressions, of slots after statements, and of the rows of outputs.
pub fn values_fit()
    ensures value { (slots : List Slot) (e : TExprTree) (turns : List Turn) (m : List ℤ) → IsExpr slots e → AreFit slots m
        → IfOk (value turns e m) (λ v. fits (ty_of e) v ≡ true) }
    ensures body { (slots : List Slot) (held : List ℕ) (ss : TStmtTrees) (turns : List Turn) (m : List ℤ) → AreStmts slots held ss → AreFit slots m
        → IfOk (do_stmts turns ss m) (AreFit slots) }
    ensures initial { (p : Program) → IsChecked p → AreFit p.slots (initial p.slots) }
    ensures inputs { (slots : List Slot) (row m : List ℤ) → AreIn (input_types slots) row → AreFit slots m → AreFit slots (with_inputs slots row m) }
    ensures cycle { (p : Program) (row m : List ℤ) → IsChecked p → AreIn (input_types p.slots) row → AreFit p.slots m → IfOk (cycle p m row) (AreFit p.slots) }
    ensures outputs { (slots : List Slot) (m : List ℤ) → AreFit slots m → AreIn (output_types slots) (outputs slots m) }
    ensures run { (p : Program) (rows : List (List ℤ)) → IsChecked p → AreRows (input_types p.slots) rows
        → AreRows (output_types p.slots) (source_run p rows).rows }
{}

/// A source stops for a division by zero or for a value outside its type, never for an operand.
pub fn causes_of_stops()
    ensures value { (e : TExprTree) (turns : List Turn) (m : List ℤ) → IfErr (value turns e m) (λ s. s.kind ≡ why.Operand → ⊥) }
    ensures body { (ss : TStmtTrees) (turns : List Turn) (m : List ℤ) → IfErr (do_stmts turns ss m) (λ s. s.kind ≡ why.Operand → ⊥) }
    ensures run { (p : Program) (rows : List (List ℤ)) → IfSome (source_run p rows).end (λ s. s.kind ≡ why.Operand → ⊥) }
{}

/// Every turn of a stop of a checked program names one of its slots.
pub fn turns_name_slots()
    ensures body { (slots : List Slot) (held : List ℕ) (ss : TStmtTrees) (turns : List Turn) (m : List ℤ) → AreStmts slots held ss → NameSlots slots turns
        → IfErr (do_stmts turns ss m) (λ s. NameSlots slots s.turns) }
    ensures cycle { (p : Program) (m row : List ℤ) → IsChecked p → IfErr (cycle p m row) (λ s. NameSlots p.slots s.turns) }
    ensures run { (p : Program) (rows : List (List ℤ)) → IsChecked p → IfSome (source_run p rows).end (λ s. NameSlots p.slots s.turns) }
{}
