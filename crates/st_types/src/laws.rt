//! Laws of typing: what its definitions have to do with each other.

ghost use Rattle.std.specs.Prelude.{◌≡◌, ◌⊎◌, ◌↔◌, ℕ, ◌<◌, ℤ, pos, true, Bool, List, Option, Some, None, IfSome, option_map};
ghost use Rattle.std.specs.List.{list_all};
ghost use Rattle.st_tree.specs.declared.expr.BinOp.{BinOp};
ghost use Rattle.st_tree.specs.ExprTree.{ExprTree};
ghost use Rattle.st_tree.specs.StmtTree.{StmtTrees};
ghost use Rattle.st_tree.specs.ProgramTree.{ProgramTree};
ghost use Rattle.st_tree.specs.Declarable.{HasNames, names_of};
ghost use Rattle.st_types.specs.ExprTyping.{literal_type, type_of, ExprFault, expr_of, widened};
ghost use Rattle.st_types.specs.Scope.{Entry};
ghost use Rattle.st_types.specs.StmtTyping.{StmtsFault, stmts_of, begins, turns_of};
ghost use Rattle.st_types.specs.Turns.{turn_value};
ghost use Rattle.st_types.specs.Typing.{IsFaultless, IsTyped, Refuses, typed_of};
ghost use Rattle.st_types.specs.declared.fault.Fault.{Fault};
ghost use Rattle.st_types.specs.declared.fault.TypeFault.{TypeFault};
ghost use Rattle.st_types.specs.declared.fault.TypeFault.TheVariants as told;
ghost use Rattle.vcp_base.specs.declared.spot.Spot.{Spot};
ghost use Rattle.vcp_base.specs.declared.ty.Ty.{Ty};
ghost use Rattle.vcp_base.specs.Types.{fits, within};
ghost use Rattle.vcp_typed.specs.declared.slot.Slot.{Slot};
ghost use Rattle.vcp_typed.specs.TExprTree.{TExprTree};
ghost use Rattle.vcp_typed.specs.Rules.{common};
ghost use Rattle.vcp_typed.specs.Checked.{IsChecked, IsExpr, ty_of};
ghost use Rattle.vcp_typed.specs.SourceRun.{Program};

/// An expression has a checked expression exactly where it has no fault, and its type is that one's;
/// statements have checked statements exactly where they have no fault. It does nothing: it states a law.
pub fn faults_prevent_checked_trees()
    ensures expr { (s : List Entry) (e : ExprTree) → (expr_of s e ≡ None) ↔ ((f : Fault) × ExprFault s e f) }
    ensures ty { (s : List Entry) (e : ExprTree) → type_of s e ≡ option_map ty_of (expr_of s e) }
    ensures stmts { (s : List Entry) (held : List ℕ) (xs : StmtTrees) → (stmts_of s held xs ≡ None) ↔ ((f : Fault) × StmtsFault s held xs f) }
{}

/// A program without a fault has a checked program; within the limits that one keeps the rules of checked programs,
/// and beyond them the program has a name too many or is too large. It does nothing: it states a law.
pub fn faultless_programs_are_checked()
    ensures is { (p : ProgramTree) → IsFaultless p → (t : Program) × (typed_of p ≡ Some t) }
    ensures keeps { (p : ProgramTree) (t : Program) → HasNames p → IsTyped p t → IsChecked t }
    ensures limits { (p : ProgramTree) → IsFaultless p → ((t : Program) × IsTyped p t) ⊎ (((spot : Spot) × Refuses p (told.Names spot)) ⊎ Refuses p told.Size) }
{}

/// A tree has one answer: its checked program, or one fault, want of memory apart. It does nothing: it
/// states a law. So, but for want of memory, `typed` is exact.
pub fn answers_are_one()
    ensures some { (p : ProgramTree) → ((t : Program) × IsTyped p t) ⊎ ((e : TypeFault) × (e ≡ told.Memory → ⊥) × Refuses p e) }
    ensures typed { (p : ProgramTree) (t u : Program) → IsTyped p t → IsTyped p u → t ≡ u }
    ensures either { (p : ProgramTree) (t : Program) (e : TypeFault) → IsTyped p t → Refuses p e → e ≡ told.Memory }
    ensures refused { (p : ProgramTree) (e g : TypeFault) → (e ≡ told.Memory → ⊥) → (g ≡ told.Memory → ⊥) → Refuses p e → Refuses p g → e ≡ g }
{}

/// A FOR has exactly the turns whose values, first, first + by and so on, aren't past its last bound: from each of them a
/// FOR to this bound would begin. It does nothing: it states a law.
pub fn turns_go_up_to_the_last_bound()
    ensures { (first last by : ℤ) (n : ℕ) → (by ≡ pos 0 → ⊥) → (n < turns_of first last by) ↔ (begins (turn_value first by n) last by ≡ true) }
{}

/// Parts of checked expressions. A literal is in its type; an expression keeps the rules where it is widened to a wider type, and
/// has that type; operands of a common type are taken where that type is wanted. It does nothing: it states a law.
pub fn widened_parts_are_checked()
    ensures literal { (t : Option Ty) (v : ℤ) → IfSome (literal_type t v) (λ u. fits u v ≡ true) }
    ensures widened { (slots : List Slot) (t u : Ty) (a : TExprTree) → ty_of a ≡ u → within u t ≡ true → IsExpr slots a
        → IsExpr slots (widened t u a) × (ty_of (widened t u a) ≡ t) }
    ensures common { (op : BinOp) (x y : Ty) → IfSome (common op x y) (λ t. (within x t ≡ true) × (within y t ≡ true) × (common op t t ≡ Some t)) }
{}

/// A variable of a checked program has a declared name: what all declared names pass, the names of all variables do. It does
/// nothing: it states a law.
pub fn slots_have_declared_names()
    ensures { (p : ProgramTree) (t : Program) (test : List ℕ → Bool) → IsTyped p t → list_all (λ d. test d.name) (names_of p) ≡ true
        → list_all (λ s. test s.name) t.slots ≡ true }
{}
