//! Laws of graphs and their runs. Each function does nothing: it states laws.

ghost use Rattle.std.specs.Prelude.{◌≡◌, ◌≤◌, ℕ, Some, FitsSigned, false, slice_get, true};
ghost use Rattle.std.specs.Int.{w64};
ghost use Rattle.op_graph.specs.Laws.{OperandLaws, ReadLaws, EntryLaws, CellLaws, WalkLaws};
ghost use Rattle.op_graph.specs.Lists.{Lists};
ghost use Rattle.op_graph.specs.Rules.{IsPart, kind_fits, lists_of, ty_fits};
ghost use Rattle.op_graph.specs.declared.rules.Place.{Place};
ghost use Rattle.op_graph.specs.declared.op.Loaded.{Loaded as LoadedValue};
ghost use Rattle.op_graph.specs.declared.op.Op.{Op as Operation};
ghost use Rattle.vcp_base.specs.declared.kind.Kind.{Kind as KindOf};
ghost use Rattle.vcp_base.specs.declared.ty.Ty.{Ty as Type_};

/// No operation of a graph's run stops because an operand is outside its type, whatever the rows, and the
/// cells and the outputs get values of their types. It holds for what is built so far, too.
pub fn operands_are_in_their_types()
    ensures { OperandLaws }
{}

/// What an operation reads is an earlier operation, or the cell of its LOAD; and what may be read
/// may still be read when operations are added.
pub fn operands_are_there()
    ensures { ReadLaws }
{}

/// Each entry of an unfinished graph keeps the rule of its list after the entries before it.
pub fn entries_keep_their_rules()
    ensures { EntryLaws }
{}

/// The numbers of operations and the initial values of cells have 64 bits. Lines and columns have 32, and the
/// values of turns 64.
pub fn numbers_have_64_bits()
    ensures imm { (g : Lists) (k : ℕ) (op : Operation) → IsPart g → slice_get g.operations k ≡ Some op → FitsSigned w64 op.imm }
    ensures init { (g : Lists) (k : ℕ) (l : LoadedValue) → IsPart g → slice_get g.loads k ≡ Some l → FitsSigned w64 l.init }
{}

/// Which of an operation's own fields is wrong: its kind, whatever that is, where it is in two
/// lists; the type of its operands only where no type of the result would go with it.
pub fn fields_are_wrong_in_order()
    ensures kind { (p : Place) (k : KindOf) → 2 ≤ lists_of p → kind_fits p k ≡ false }
    ensures ty { (k : KindOf) (from : Type_) → (to : Type_) × (ty_fits k from to ≡ true) }
{}

/// The cells of which both parts are there: as many as STOREs, each with the LOAD at its place.
pub fn cells_have_two_parts()
    ensures { CellLaws }
{}

/// The output or cell of each operation is what one walk over each list finds, since the operations
/// of a list rise: the walk begins at the front, and goes on by one entry past each that it finds.
pub fn entries_are_found_by_one_walk()
    ensures { WalkLaws }
{}
