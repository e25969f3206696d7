//! The state of a flattening.

ghost use Rattle.std.specs.Prelude.{◌≡◌, ◌<◌, ◌≤◌, ◌↔◌, ◌+◌, true, length, get_or, slice_get, set, Some, None, Ok, Err, IfOk, IfErr, OnOk, OnErr, [], All};
ghost use Rattle.std.specs.Prelude.{cond};
ghost use Rattle.op_graph.specs.Rules.{OpFits, Admitted, TurnNodeFits, operand_fits, types_fit, is_number};
ghost use Rattle.op_graph.specs.Building.{nowhere, with_input};
ghost use Rattle.op_graph.specs.Lists.{nothing};
ghost use Rattle.op_graph.specs.declared.build.Build.TheVariants as build;
ghost use Rattle.vcp_base.specs.declared.ty.Ty.TheVariants as type_of;
ghost use Rattle.flat_expr.specs.Begin.{Begins, entered, held_from};
ghost use Rattle.flat_expr.specs.Laws.{Laws};
ghost use Rattle.flat_expr.specs.ReadSlots.{reads_slot, read_slots};
ghost use Rattle.flat_expr.specs.State.{IsState, IsPlace, IsA, Pushes, Makes, is_plain, reads, acts, giving, neutral as neutral_of, neutral_place};
ghost use Rattle.flat_expr.specs.State.{with_neutral, masks, guards, is_arithmetic, divides, is_comparison, denies, operates, signs, Reads, Flattens};
ghost use Rattle.flat_expr.specs.State.{FlattensOne, FunFits, last_type, Allows, SlotsAllowed, applies, argument as argument_of, one_reads, one_size};
ghost use Rattle.flat_expr.specs.State.{picks, limits};
ghost use Rattle.flat_expr.specs.State.{has_all as has_all_of, narrows, sizes_up, placed, one_slot, Leaves, Refuses, Assigns, Nests};
ghost use Rattle.flat_expr.specs.State.{Finishes, whole_size};
ghost use Rattle.flat_expr.specs.Told.{names_of};
ghost use Rattle.vcp_base.specs.declared.kind.Kind.TheVariants as kind_of;
ghost use Rattle.vcp_typed.specs.declared.slot.Slot.{Slot as SlotOf};
ghost use Rattle.vcp_typed.specs.SourceRun.{is_input};
ghost use Rattle.vcp_typed.specs.Checked.{IsExpr, AreExprs, SlotsFit};
ghost use Rattle.vcp_typed.specs.TExprTree.{call as call_tree};
ghost use Rattle.vcp_typed.specs.TExprViews.{texpr_tree, texpr_trees};
ghost use Rattle.vcp_base.specs.Limits.{most_names, most_operations, most_turn_nodes};
ghost use Rattle.vcp_base.specs.Types.{fits};
ghost use Rattle.vcp_base.specs.Code.{admits, is_wide};
ghost use Rattle.vcp_typed.specs.Wide.{expr_is_wide, exprs_are_wide};
ghost use Rattle.vcp_typed.specs.Rules.{common, signed, result as result_type};
ghost use Rattle.vcp_typed.specs.Size.{operator_size, function_size, expr_size};

use crate::ending::{close_cells, close_outputs};
use crate::op_form::{Manner, in_order, manner_of, operation_kind};
use op_graph::{Build, Graph, GraphBuilder, Op, TurnNode, entries_keep_their_rules};
use st_tree::{BinOp, Section, UnOp};
use std::alloc::Global;
use std::marker::Model;
use vcp_base::{Kind, Memory, Profile, Spot, Ty, is_bool, within};
use vcp_typed::{Fun, Slot, Slots, TExpr, Typed, conversion, trees_of_nodes};

/// The state of a flattening: the graph so far, the operation that has each slot's value, the path
/// condition and the present turn.
pub struct Flat<'a> {
    slots: &'a Slots,
    graph: GraphBuilder,
    known: Vec<Option<u32>>,
    path: Option<u32>,
    turn: u32,
    nought: Option<u32>,
    unit: Option<u32>,
}

impl<'a> Model for Flat<'a> {
    ghost use Rattle.flat_expr.specs.State.{State, IsState};

    ghost Value = { State };

    ghost view = { λ f. record {
      slots = f.slots.now.items.items;
      graph = f.graph;
      known = f.known.items;
      path = f.path;
      turn = f.turn;
      nought = f.nought;
      unit = f.unit;
    } };

    ghost invariant = { λ f. IsState
        (record { slots = f.slots.now.items.items; graph = f.graph; known = f.known.items; path = f.path; turn = f.turn; nought = f.nought; unit = f.unit }) };
}

impl Drop for Flat<'_> {
    fn drop(self) {
        let Flat {
            slots: _,
            graph: _,
            known: _,
            path: _,
            turn: _,
            nought: _,
            unit: _,
        } = self;
    }
}

/// The code of a program: the wide one where it has values of LINT.
fn profile_of(has_lint: bool) -> Profile
    ensures { is_wide result ≡ has_lint }
{
    if has_lint {
        Profile::Wide
    } else {
        Profile::Narrow
    }
}

/// A builder in the code, with the names of the slots.
fn named(alloc: Global, profile: Profile, slots: &[Slot]) -> Result<GraphBuilder, Memory>
    requires names { SlotsFit [] slots.now }
    requires few { length slots.now ≤ most_names }
    ensures { IfOk result (λ graph. graph ≡ record (nothing profile) { names = names_of slots.now }) }
{
    let mut graph = GraphBuilder::new(alloc, profile);
    'names: for slot in slots {
        graph.name(&slot.name)?;
    }
    Ok(graph)
}

/// Adds the INPUTs. Gives the operation of each slot: that of an input, and else none.
fn enter_all(
    alloc: Global,
    graph: &mut GraphBuilder,
    slots: &[Slot],
) -> Result<Vec<Option<u32>>, Memory>
    requires few { length slots.now ≤ most_names }
    requires empty { graph.old ≡ entered graph.old.profile (names_of slots.now) [] }
    requires code { SlotsAllowed graph.old.profile slots.now }
    ensures graph { OnOk result (graph.new ≡ entered graph.old.profile (names_of slots.now) slots.now) }
    ensures known { IfOk result (λ known. known.items ≡ held_from 0 slots.now) }
{
    let mut known = Vec::new(alloc);
    'slots: for (i, slot) in slots.iter().enumerate() {
        let k = enter(graph, i as u32, slot)?;
        known.push(k)?;
    }
    Ok(known)
}

/// Adds the INPUT of a slot that is an input, and gives its number.
fn enter(graph: &mut GraphBuilder, name: u32, slot: &Slot) -> Result<Option<u32>, Memory>
    requires front { length graph.old.inputs ≡ length graph.old.operations }
    requires name { name < length graph.old.names }
    requires rises { All (λ v. v.name < name) graph.old.inputs }
    requires code { admits graph.old.profile slot.now.ty ≡ true }
    ensures place { IfOk result (λ k. k ≡ cond (is_input slot.now.section) (Some (length graph.old.operations)) None) }
    ensures graph { OnOk result (graph.new ≡ cond (is_input slot.now.section) (with_input graph.old name slot.now.ty slot.now.spot) graph.old) }
{
    match slot.section {
        Section::Input => Ok(Some(graph.input(name, slot.ty, slot.spot)?)),
        Section::Output | Section::Local | Section::Retain | Section::Constant => Ok(None),
    }
}

/// The neutral number of a mask: 1 for a divisor, and else 0.
fn neutral_number(one: bool) -> i64
    ensures is { result ≡ neutral_of one }
    ensures fits { fits type_of.Int result ≡ true }
{
    if one { 1 } else { 0 }
}

/// Whether every value of the one type is one of the other.
fn has_all(from: Ty, to: Ty) -> bool
    ensures { result ≡ has_all_of from to }
{
    is_bool(from) || within(from, to)
}

impl<'a> Flat<'a> {
    /// The state before the body of a program, in the program's code: its names and INPUTs are there, and the
    /// inputs alone are known. Its operations give each input's value of the row; there is no other
    /// operation, cell, output, turn node, path condition or constant of a mask.
    pub fn new(alloc: Global, program: &'a Typed) -> Result<Flat<'a>, Memory>
        ensures { IfOk result (λ s. Begins s program.now) }
    {
        let slots = program.slots();
        let profile = profile_of(program.wide());
        let mut graph = named(alloc, profile, &slots.items)?;
        let known = enter_all(alloc, &mut graph, &slots.items)?;
        let _rules = graph.len();
        Ok(Flat {
            slots,
            graph,
            known,
            path: None,
            turn: 0,
            nought: None,
            unit: None,
        })
    }

    /// The operation that holds the slot's value; none where the slot was neither read nor set.
    pub fn value(&self, slot: u32) -> Option<u32>
        requires { slot < length self.now.slots }
        ensures value { result ≡ get_or self.now.known slot None }
        ensures state { IsState self.now }
    {
        self.known[slot as usize]
    }

    /// The present turn node, or 0.
    pub fn turn_now(&self) -> u32
        ensures value { result ≡ self.now.turn }
        ensures state { IsState self.now }
    {
        self.turn
    }

    /// The type of a slot.
    pub fn type_of(&self, slot: u32) -> Ty
        requires { slot < length self.now.slots }
        ensures value { (x : SlotOf) → slice_get self.now.slots slot ≡ Some x → result ≡ x.ty }
        ensures code { admits self.now.graph.profile result ≡ true }
        ensures state { IsState self.now }
    {
        self.slots.at(slot as usize).ty
    }

    /// The path condition.
    pub fn condition(&self) -> Option<u32>
        ensures value { result ≡ self.now.path }
        ensures state { IsState self.now }
    {
        self.path
    }

    /// Another path condition, a BOOL operation, or none.
    pub fn set_condition(&mut self, op: Option<u32>)
        requires { IsPlace type_of.Bool self.old.graph.operations op }
        ensures is { self.new ≡ record self.old { path = op } }
        ensures state { IsState self.new }
    {
        self.path = op;
    }

    /// Another turn: a turn node that is there, or 0.
    pub fn set_turn(&mut self, turn: u32)
        requires { turn ≤ length self.old.graph.turn_nodes }
        ensures is { self.new ≡ record self.old { turn = turn } }
        ensures state { IsState self.new }
    {
        self.turn = turn;
    }

    /// Adds an operation of no input, output or cell, which the rules allow after those that are there. Gives
    /// its number. `Full` comes exactly where 65,536 operations are there.
    pub fn push(&mut self, op: Op) -> Result<u32, Build>
        requires fits { OpFits nowhere (length self.old.graph.turn_nodes) self.old.graph.operations op }
        requires code { Admitted self.old.graph.profile op }
        ensures ok { IfOk result (λ k. Pushes self.old self.new op k) }
        ensures full { (result ≡ Err build.Full) ↔ (length self.old.graph.operations ≡ most_operations) }
        ensures err { OnErr result (self.new ≡ self.old) }
    {
        self.graph.push(op)
    }

    /// Adds an operation of two or three operands, or one, at the present turn: of no input, output or
    /// cell, and no constant. Its types are of the graph's code. Gives its number.
    pub fn add(
        &mut self,
        kind: Kind,
        from: Ty,
        ty: Ty,
        a: u32,
        b: u32,
        c: u32,
        spot: Spot,
    ) -> Result<u32, Build>
        requires plain { is_plain kind ≡ true }
        requires types { types_fit kind from ty ≡ true }
        requires from { admits self.old.graph.profile from ≡ true }
        requires ty { admits self.old.graph.profile ty ≡ true }
        requires a { operand_fits self.old.graph.operations (reads kind from 0) a ≡ true }
        requires b { operand_fits self.old.graph.operations (reads kind from 1) b ≡ true }
        requires c { operand_fits self.old.graph.operations (reads kind from 2) c ≡ true }
        ensures made { IfOk result (λ k. Makes self.old self.new ty 1 (acts self.old kind ty a b c spot) k) }
        ensures refuses { IfErr result (λ why. Refuses self.old self.new 1 why) }
    {
        let turn = self.turn;
        self.push(Op {
            kind,
            from,
            ty,
            a,
            b,
            c,
            imm: 0,
            spot,
            turn,
        })
    }

    /// Adds a constant at the present turn, of a type of the graph's code. Gives its number.
    pub fn constant(&mut self, ty: Ty, value: i64, spot: Spot) -> Result<u32, Build>
        requires fits { fits ty value ≡ true }
        requires code { admits self.old.graph.profile ty ≡ true }
        ensures made { IfOk result (λ k. Makes self.old self.new ty 1 (giving value) k) }
        ensures refuses { IfErr result (λ why. Refuses self.old self.new 1 why) }
    {
        let turn = self.turn;
        self.push(Op {
            kind: Kind::Const,
            from: ty,
            ty,
            a: 0,
            b: 0,
            c: 0,
            imm: value,
            spot,
            turn,
        })
    }

    // The operation of a mask's neutral number, where it is there.
    fn neutral_there(&self, one: bool) -> Option<u32>
        ensures place { result ≡ neutral_place self.now one }
        ensures state { IsState self.now }
    {
        if one { self.unit } else { self.nought }
    }

    // From now on the operation is that of a mask's neutral number.
    fn keep_neutral(&mut self, one: bool, k: u32)
        requires { IsA type_of.Int self.old.graph.operations k }
        ensures { self.new ≡ with_neutral self.old one k }
    {
        if one {
            self.unit = Some(k);
        } else {
            self.nought = Some(k);
        }
    }

    // The neutral number of a mask, which is added when it is first needed.
    fn neutral(&mut self, one: bool) -> Result<u32, Build>
        ensures made { IfOk result (λ k. Makes self.old self.new type_of.Int 0 (giving (neutral_of one)) k) }
        ensures refuses { IfErr result (λ why. Refuses self.old self.new 0 why) }
    {
        if let Some(k) = self.neutral_there(one) {
            return Ok(k);
        }
        let k = self.push(Op {
            kind: Kind::Const,
            from: Ty::Int,
            ty: Ty::Int,
            a: 0,
            b: 0,
            c: 0,
            imm: neutral_number(one),
            spot: Spot { line: 0, col: 0 },
            turn: 0,
        })?;
        self.keep_neutral(one, k);
        Ok(k)
    }

    // The value of operation k where the place is reached, and else the neutral number.
    fn mask(&mut self, k: u32, ty: Ty, one: bool, spot: Spot) -> Result<u32, Build>
        requires there { IsA ty self.old.graph.operations k }
        requires number { is_number ty ≡ true }
        requires code { admits self.old.graph.profile ty ≡ true }
        ensures made { IfOk result (λ j. Makes self.old self.new ty 1 (masks self.old one k) j) }
        ensures refuses { IfErr result (λ why. Refuses self.old self.new 1 why) }
    {
        let Some(path) = self.path else {
            return Ok(k);
        };
        let other = self.neutral(one)?;
        self.add(Kind::Sel, ty, ty, path, other, k, spot)
    }

    // Arithmetic that can stop, on masked operands.
    fn calculate(
        &mut self,
        kind: Kind,
        ty: Ty,
        a: u32,
        b: u32,
        one: bool,
        spot: Spot,
    ) -> Result<u32, Build>
        requires kind { is_arithmetic kind ≡ true }
        requires one { divides kind ≡ one }
        requires number { is_number ty ≡ true }
        requires code { admits self.old.graph.profile ty ≡ true }
        requires a { IsA ty self.old.graph.operations a }
        requires b { IsA ty self.old.graph.operations b }
        ensures made { IfOk result (λ k. Makes self.old self.new ty 3 (guards self.old kind ty a b spot) k) }
        ensures refuses { IfErr result (λ why. Refuses self.old self.new 3 why) }
    {
        let first = self.mask(a, ty, false, spot)?;
        let second = self.mask(b, ty, one, spot)?;
        self.add(kind, ty, ty, first, second, 0, spot)
    }

    // NOT of a comparison.
    fn deny(&mut self, kind: Kind, ty: Ty, a: u32, b: u32, spot: Spot) -> Result<u32, Build>
        requires kind { is_comparison kind ≡ true }
        requires types { types_fit kind ty type_of.Bool ≡ true }
        requires code { admits self.old.graph.profile ty ≡ true }
        requires a { IsA ty self.old.graph.operations a }
        requires b { IsA ty self.old.graph.operations b }
        ensures made { IfOk result (λ k. Makes self.old self.new type_of.Bool 2 (denies kind a b) k) }
        ensures refuses { IfErr result (λ why. Refuses self.old self.new 2 why) }
    {
        let r = self.add(kind, ty, Ty::Bool, a, b, 0, spot)?;
        self.add(Kind::Not, Ty::Bool, Ty::Bool, r, 0, 0, spot)
    }

    // The value of an operator between operands of the type.
    fn operate(&mut self, op: BinOp, ty: Ty, a: u32, b: u32, spot: Spot) -> Result<u32, Build>
        requires types { common op ty ty ≡ Some ty }
        requires code { admits self.old.graph.profile ty ≡ true }
        requires a { IsA ty self.old.graph.operations a }
        requires b { IsA ty self.old.graph.operations b }
        ensures made { IfOk result (λ k. Makes self.old self.new (result_type op ty) (operator_size op) (operates self.old op ty a b spot) k) }
        ensures refuses { IfErr result (λ why. Refuses self.old self.new (operator_size op) why) }
    {
        let kind = operation_kind(op);
        let (x, y) = in_order(op, a, b);
        match manner_of(op) {
            Manner::Masked { one } => self.calculate(kind, ty, x, y, one, spot),
            Manner::Alone => self.add(kind, ty, Ty::Bool, x, y, 0, spot),
            Manner::Denied => self.deny(kind, ty, x, y, spot),
        }
    }

    // The value of a sign before an operand of the type.
    fn sign(&mut self, op: UnOp, ty: Ty, a: u32, spot: Spot) -> Result<u32, Build>
        requires types { signed op ty ≡ Some ty }
        requires code { admits self.old.graph.profile ty ≡ true }
        requires a { IsA ty self.old.graph.operations a }
        ensures made { IfOk result (λ k. Makes self.old self.new ty 2 (signs self.old op ty a spot) k) }
        ensures refuses { IfErr result (λ why. Refuses self.old self.new 2 why) }
    {
        match op {
            UnOp::Neg => {
                let m = self.mask(a, ty, false, spot)?;
                self.add(Kind::Neg, ty, ty, m, 0, 0, spot)
            }
            UnOp::Not => self.add(Kind::Not, Ty::Bool, Ty::Bool, a, 0, 0, spot),
        }
    }

    // The operation that holds the slot's value, which is loaded where there is none.
    fn read(&mut self, slot: u32) -> Result<u32, Build>
        requires { slot < length self.old.slots }
        ensures made { IfOk result (λ k. (x : SlotOf) → slice_get self.old.slots slot ≡ Some x → Reads self.old self.new slot x.ty k) }
        ensures refuses { IfErr result (λ why. Leaves self.old self.new (one_slot slot) 0 why) }
    {
        if let Some(k) = self.known[slot as usize] {
            return Ok(k);
        }
        let variable = self.slots.at(slot as usize);
        let k = self
            .graph
            .load(slot, variable.ty, variable.init, variable.spot)?;
        self.known[slot as usize] = Some(k);
        Ok(k)
    }

    /// Adds the operations of an expression of the program under the present path condition, after those
    /// that are there. Gives the number of its value. A widening adds none. A slot that the expression
    /// reads, and that no operation holds, gets its LOAD; every other slot is held as before, after a
    /// refusal too. After one the operations that it added stay, and what was known stays known.
    ///
    /// In every cycle in which the path condition is 1, or there is none, the added operations stop as the
    /// expression's meaning does, with kind, place and turns, or give its value; in every other cycle none of
    /// them stops. They are at most its Size, beside one LOAD for each slot first read and the two constants
    /// of the masks, and are after what is there: nothing before them changes, and no turn node, input,
    /// output or STORE is added. `Full` comes only where there is no room for so many.
    #[cycle(expr)]
    pub fn expr(&mut self, e: &TExpr) -> Result<u32, Build>
        requires checked { IsExpr self.old.slots (texpr_tree e.now) }
        requires code { Allows self.old.graph.profile (expr_is_wide (texpr_tree e.now)) }
        ensures made { IfOk result (λ k. Flattens self.old self.new (texpr_tree e.now) k) }
        ensures refuses { IfErr result
            (λ why. Leaves self.old self.new (reads_slot (texpr_tree e.now)) (expr_size (texpr_tree e.now)) why) }
    {
        match e {
            TExpr::Lit { ty, value, spot } => self.constant(*ty, *value, *spot),
            TExpr::Get { slot, .. } => self.read(*slot),
            TExpr::Widen { arg, .. } => self.expr(arg),
            TExpr::Unary { op, ty, arg, spot } => {
                let a = self.expr(arg)?;
                self.sign(*op, *ty, a, *spot)
            }
            TExpr::Binary {
                op,
                ty,
                left,
                right,
                spot,
            } => {
                let a = self.expr(left)?;
                let b = self.expr(right)?;
                self.operate(*op, *ty, a, b, *spot)
            }
            TExpr::Call {
                fun,
                ty,
                args,
                spot,
            } => {
                trees_of_nodes();
                let args: &[TExpr] = &args.items;
                self.call(*fun, *ty, args, *spot)
            }
        }
    }

    // The operations of a function's arguments, and then its value.
    #[cycle(expr)]
    fn call(&mut self, fun: Fun, ty: Ty, args: &[TExpr], spot: Spot) -> Result<u32, Build>
        requires checked { IsExpr self.old.slots (call_tree fun ty (texpr_trees args.now) spot) }
        requires code { Allows self.old.graph.profile (expr_is_wide (call_tree fun ty (texpr_trees args.now) spot)) }
        ensures made { IfOk result (λ k. Flattens self.old self.new (call_tree fun ty (texpr_trees args.now) spot) k) }
        ensures refuses { IfErr result
            (λ why. Leaves self.old self.new (read_slots (texpr_trees args.now)) (expr_size (call_tree fun ty (texpr_trees args.now) spot)) why) }
    {
        let a = self.argument(args, 0)?;
        let b = self.argument(args, 1)?;
        let c = self.argument(args, 2)?;
        self.apply(fun, ty, a, b, c, spot)
    }

    // The operations of the argument at a place; none, and 0, where there is no such argument.
    #[cycle(expr)]
    fn argument(&mut self, args: &[TExpr], i: usize) -> Result<u32, Build>
        requires checked { AreExprs self.old.slots (texpr_trees args.now) }
        requires code { Allows self.old.graph.profile (exprs_are_wide (texpr_trees args.now)) }
        ensures made { IfOk result (λ k. FlattensOne self.old self.new (argument_of (texpr_trees args.now) i) k) }
        ensures refuses { IfErr result
            (λ why. Leaves self.old self.new (one_reads (argument_of (texpr_trees args.now) i)) (one_size (argument_of (texpr_trees args.now) i)) why) }
    {
        if i < args.len() {
            self.expr(&args[i])
        } else {
            Ok(0)
        }
    }

    // The value of a function of arguments at these places.
    fn apply(&mut self, fun: Fun, ty: Ty, a: u32, b: u32, c: u32, spot: Spot) -> Result<u32, Build>
        requires arguments { FunFits fun ty self.old.graph.operations a b c }
        requires ty { admits self.old.graph.profile ty ≡ true }
        requires last { admits self.old.graph.profile (last_type fun ty) ≡ true }
        ensures made { IfOk result (λ k. Makes self.old self.new ty (function_size fun) (applies self.old fun ty a b c spot) k) }
        ensures refuses { IfErr result (λ why. Refuses self.old self.new (function_size fun) why) }
    {
        if let Some((from, to)) = conversion(fun) {
            return self.convert(from, to, a, spot);
        }
        match fun {
            Fun::Abs => self.absolute(ty, a, spot),
            Fun::Min => self.pick(ty, b, a, a, b, spot),
            Fun::Max => self.pick(ty, a, b, a, b, spot),
            Fun::Limit => self.limit(ty, a, b, c, spot),
            Fun::Sel => self.add(Kind::Sel, ty, ty, a, b, c, spot),
            _ => unreachable!(),
        }
    }

    // A conversion. It can stop, and so is masked, only where not every value of the one type is one of the other.
    fn convert(&mut self, from: Ty, to: Ty, a: u32, spot: Spot) -> Result<u32, Build>
        requires types { types_fit kind_of.Conv from to ≡ true }
        requires from { admits self.old.graph.profile from ≡ true }
        requires to { admits self.old.graph.profile to ≡ true }
        requires a { IsA from self.old.graph.operations a }
        ensures made { IfOk result (λ k. Makes self.old self.new to 2 (narrows self.old to a spot) k) }
        ensures refuses { IfErr result (λ why. Refuses self.old self.new 2 why) }
    {
        if has_all(from, to) {
            self.add(Kind::Conv, from, to, a, 0, 0, spot)
        } else {
            self.narrow(from, to, a, spot)
        }
    }

    /// The slot's value is that of the operation from now on, which fits the slot.
    pub fn set(&mut self, slot: u32, op: u32)
        requires slot { slot < length self.old.slots }
        requires fits { (x : SlotOf) → slice_get self.old.slots slot ≡ Some x → IsA x.ty self.old.graph.operations op }
        ensures known { self.new ≡ placed self.old slot op }
        ensures state { IsState self.new }
    {
        self.known[slot as usize] = Some(op);
    }

    /// The slot gets the operation's value where the place is reached: without a path condition it gets the
    /// operation, and under one a SEL of the old value and the operation's, at the spot. Its operations are
    /// added after those that are there, and every other slot is held as before, after a refusal too.
    pub fn assign(&mut self, slot: u32, op: u32, spot: Spot) -> Result<(), Build>
        requires slot { slot < length self.old.slots }
        requires fits { (x : SlotOf) → slice_get self.old.slots slot ≡ Some x → IsA x.ty self.old.graph.operations op }
        ensures made { IfOk result (λ _. Assigns self.old self.new slot op) }
        ensures refuses { IfErr result (λ why. Leaves self.old self.new (one_slot slot) 1 why) }
    {
        match self.path {
            None => {
                self.set(slot, op);
                Ok(())
            }
            Some(path) => self.choose(slot, path, op, spot),
        }
    }

    // The slot gets the SEL of its old value and the operation's.
    fn choose(&mut self, slot: u32, path: u32, op: u32, spot: Spot) -> Result<(), Build>
        requires slot { slot < length self.old.slots }
        requires fits { (x : SlotOf) → slice_get self.old.slots slot ≡ Some x → IsA x.ty self.old.graph.operations op }
        requires path { self.old.path ≡ Some path }
        ensures made { IfOk result (λ _. Assigns self.old self.new slot op) }
        ensures refuses { IfErr result (λ why. Leaves self.old self.new (one_slot slot) 1 why) }
    {
        let ty = self.type_of(slot);
        let old = self.read(slot)?;
        let value = self.add(Kind::Sel, ty, ty, path, old, op, spot)?;
        self.set(slot, value);
        Ok(())
    }

    /// Adds a turn node, whose parent is there or 0, where there are fewer than 65,536. Gives its
    /// number, from 1. After `Memory` nothing is changed.
    pub fn turn(&mut self, node: TurnNode) -> Result<u32, Memory>
        requires few { length self.old.graph.turn_nodes < most_turn_nodes }
        requires fits { TurnNodeFits (length self.old.graph.names) self.old.graph.turn_nodes node }
        ensures made { IfOk result (λ n. Nests self.old self.new node n) }
        ensures err { OnErr result (self.new ≡ self.old) }
    {
        entries_keep_their_rules();
        self.graph.turn(node)
    }

    /// The graph: what was added so far, then the OUTs in order of declaration, each with the LOAD of its
    /// output where the output's value isn't known, then the STOREs of the slots' present values. It is
    /// `Full` only where the whole graph has more than 65,536 operations. After a refusal the state is
    /// given up.
    ///
    /// What is there stays. The cells that it adds are of outputs that no operation held, each of them has
    /// one, and the operations that it adds are exactly their LOADs, the OUT of each output, which has the
    /// output's value, and the STORE of each cell: their number is the one defined.
    pub fn finish(self) -> Result<Graph, Build>
        requires { self.path ≡ None }
        ensures made { IfOk result (λ g. Finishes self.entry g) }
        ensures refuses { result ≡ Err build.Full → most_operations < whole_size self.entry }
    {
        let Flat {
            slots,
            mut graph,
            mut known,
            path: _,
            turn: _,
            nought: _,
            unit: _,
        } = self;
        close_outputs(slots, &mut graph, &mut known)?;
        close_cells(slots, &mut graph, &known)?;
        Ok(graph.finish())
    }

    // `a` where `x` isn't less than `y`, and else `b`.
    fn pick(&mut self, ty: Ty, x: u32, y: u32, a: u32, b: u32, spot: Spot) -> Result<u32, Build>
        requires number { is_number ty ≡ true }
        requires code { admits self.old.graph.profile ty ≡ true }
        requires x { IsA ty self.old.graph.operations x }
        requires y { IsA ty self.old.graph.operations y }
        requires a { IsA ty self.old.graph.operations a }
        requires b { IsA ty self.old.graph.operations b }
        ensures made { IfOk result (λ k. Makes self.old self.new ty 2 (picks x y a b) k) }
        ensures refuses { IfErr result (λ why. Refuses self.old self.new 2 why) }
    {
        let r = self.add(Kind::Lt, ty, Ty::Bool, x, y, 0, spot)?;
        self.add(Kind::Sel, ty, ty, r, a, b, spot)
    }

    // LIMIT: MAX of the value and the lower bound, then MIN with the upper one.
    fn limit(&mut self, ty: Ty, low: u32, a: u32, high: u32, spot: Spot) -> Result<u32, Build>
        requires number { is_number ty ≡ true }
        requires code { admits self.old.graph.profile ty ≡ true }
        requires low { IsA ty self.old.graph.operations low }
        requires a { IsA ty self.old.graph.operations a }
        requires high { IsA ty self.old.graph.operations high }
        ensures made { IfOk result (λ k. Makes self.old self.new ty 6 (limits low a high) k) }
        ensures refuses { IfErr result (λ why. Refuses self.old self.new 6 why) }
    {
        let m = self.pick(ty, a, low, a, low, spot)?;
        self.pick(ty, high, m, m, high, spot)
    }

    // A conversion from a number to a narrower one, which can stop.
    fn narrow(&mut self, from: Ty, to: Ty, a: u32, spot: Spot) -> Result<u32, Build>
        requires types { types_fit kind_of.Conv from to ≡ true }
        requires number { is_number from ≡ true }
        requires from { admits self.old.graph.profile from ≡ true }
        requires to { admits self.old.graph.profile to ≡ true }
        requires a { IsA from self.old.graph.operations a }
        ensures made { IfOk result (λ k. Makes self.old self.new to 2 (narrows self.old to a spot) k) }
        ensures refuses { IfErr result (λ why. Refuses self.old self.new 2 why) }
    {
        let m = self.mask(a, from, false, spot)?;
        self.add(Kind::Conv, from, to, m, 0, 0, spot)
    }

    // ABS: the masked argument, where it isn't less than 0, and else its NEG.
    fn absolute(&mut self, ty: Ty, a: u32, spot: Spot) -> Result<u32, Build>
        requires number { is_number ty ≡ true }
        requires code { admits self.old.graph.profile ty ≡ true }
        requires a { IsA ty self.old.graph.operations a }
        ensures made { IfOk result (λ k. Makes self.old self.new ty 5 (sizes_up self.old ty a spot) k) }
        ensures refuses { IfErr result (λ why. Refuses self.old self.new 5 why) }
    {
        let m = self.mask(a, ty, false, spot)?;
        let z = self.neutral(false)?;
        let r = self.add(Kind::Lt, ty, Ty::Bool, m, z, 0, spot)?;
        let n = self.add(Kind::Neg, ty, ty, m, 0, 0, spot)?;
        self.add(Kind::Sel, ty, ty, r, m, n, spot)
    }
}

/// What holds of every state of a flattening, and of its runs. It does nothing: it states laws.
pub fn laws_of_states()
    ensures { Laws }
{}
