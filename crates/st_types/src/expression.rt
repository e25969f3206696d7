//! The typing of expressions.

ghost use Rattle.std.specs.Prelude.{◌≡◌, IfOk, List, ◌++◌, ◌∷◌, [], Some, None, neg_ℤ, map, option_map};
ghost use Rattle.st_tree.specs.ExprTree.{literal as literal_tree, name as name_tree, call as call_tree};
ghost use Rattle.st_tree.specs.ExprViews.{expr_tree, expr_trees};
ghost use Rattle.vcp_typed.specs.Checked.{ty_of as type_of_value};
ghost use Rattle.vcp_typed.specs.TExprTree.{literal as literal_of, binary as binary_of};
ghost use Rattle.vcp_typed.specs.TExprViews.{texpr_tree, texpr_trees};
ghost use Rattle.st_types.specs.declared.fault.Rule.TheVariants as rule_;
ghost use Rattle.st_types.specs.Faults.{fault};
ghost use Rattle.st_types.specs.Scope.{Entry};
ghost use Rattle.st_types.specs.Notes.{Notes};
ghost use Rattle.st_types.specs.Full.{UnlessFull};
ghost use Rattle.st_types.specs.ExprTyping.{both, sized as sized_of, widened as widened_of};
ghost use Rattle.st_types.specs.ExprSteps.{Types, TypesAll, Signs, Operates, Applies, widened_to};

use crate::environment::Environment;
use crate::fault::{Fault, Rule};
use crate::function::{called, first_wanted, function_type};
use crate::literal::{Untyped, literal_type, negated, sized};
use crate::note::{Noted, note};
use crate::operator::{common, signed, widened};
use crate::refusals::{discard, discard_all, discard_some};
use st_tree::{BinOp, Expr, Section, UnOp, trees_of_nodes};
use std::alloc::Global;
use vcp_base::{Memory, Spot, Ty};
use vcp_typed::{Fun, TExpr, TExprs, ty_of};

// A literal that is no operand of a `-`.
fn literal(ty: Option<Ty>, value: i64, spot: Spot, first: &mut Option<Fault>) -> Option<TExpr>
    ensures { (s : List Entry) → Types s (literal_tree ty value spot) first.old first.new (option_map texpr_tree result) }
{
    match literal_type(ty, value) {
        None => {
            note(first, Rule::Literal, spot);
            None
        }
        Some(ty) => Some(TExpr::Lit { ty, value, spot }),
    }
}

// A literal without a type, with the `-` before it.
fn negative(l: Untyped, first: &mut Option<Fault>) -> Option<TExpr>
    ensures notes { Notes first.old first.new (λ f. (f ≡ fault rule_.Literal l.spot) × (sized_of (neg_ℤ l.value) ≡ None)) }
    ensures gives { option_map texpr_tree result ≡ option_map (λ t. literal_of t (neg_ℤ l.value) l.spot) (sized_of (neg_ℤ l.value)) }
{
    match l.value.checked_neg() {
        None => {
            note(first, Rule::Literal, l.spot);
            None
        }
        Some(value) => Some(TExpr::Lit {
            ty: sized(value),
            value,
            spot: l.spot,
        }),
    }
}

// An operator before its operand. An operand with a fault is told alone.
fn sign(alloc: Global, op: UnOp, arg: Option<TExpr>, spot: Spot, noted: &mut Noted) -> Option<TExpr>
    ensures { UnlessFull noted.old.full noted.new.full
        (Signs op spot (option_map texpr_tree arg) noted.old.first noted.new.first (option_map texpr_tree result)) }
{
    let Some(arg) = arg else {
        return None;
    };
    match signed(op, ty_of(&arg)) {
        None => {
            discard(arg);
            note(&mut noted.first, Rule::Mismatch, spot);
            None
        }
        Some(ty) => match TExpr::unary(alloc, op, ty, arg, spot) {
            Ok(e) => Some(e),
            Err(Memory) => {
                noted.full = true;
                None
            }
        },
    }
}

// An operator between its operands. Operands with a fault are told alone.
fn operate(
    alloc: Global,
    op: BinOp,
    left: Option<TExpr>,
    right: Option<TExpr>,
    spot: Spot,
    noted: &mut Noted,
) -> Option<TExpr>
    ensures { UnlessFull noted.old.full noted.new.full
        (Operates op spot (option_map texpr_tree left) (option_map texpr_tree right) noted.old.first noted.new.first (option_map texpr_tree result)) }
{
    let Some(left) = left else {
        discard_some(right);
        return None;
    };
    let Some(right) = right else {
        discard(left);
        return None;
    };
    match common(op, ty_of(&left), ty_of(&right)) {
        None => {
            discard(left);
            discard(right);
            note(&mut noted.first, Rule::Mismatch, spot);
            None
        }
        Some(ty) => match operation(alloc, op, ty, left, right, spot) {
            Ok(e) => Some(e),
            Err(Memory) => {
                noted.full = true;
                None
            }
        },
    }
}

// The operator between its operands, widened to the type.
fn operation(
    alloc: Global,
    op: BinOp,
    ty: Ty,
    left: TExpr,
    right: TExpr,
    spot: Spot,
) -> Result<TExpr, Memory>
    ensures { IfOk result
        (λ e. texpr_tree e ≡ binary_of op ty
        (widened_of ty (type_of_value (texpr_tree left)) (texpr_tree left))
        (widened_of ty (type_of_value (texpr_tree right)) (texpr_tree right)) spot) }
{
    let left = match widened(alloc, ty, left) {
        Ok(left) => left,
        Err(Memory) => {
            discard(right);
            return Err(Memory);
        }
    };
    match widened(alloc, ty, right) {
        Ok(right) => TExpr::binary(alloc, op, ty, left, right, spot),
        Err(Memory) => {
            discard(left);
            Err(Memory)
        }
    }
}

// The arguments with one more; none where one of them has a fault.
fn push(list: Option<Vec<TExpr>>, e: Option<TExpr>, full: &mut bool) -> Option<Vec<TExpr>>
    ensures { UnlessFull full.old full.new
        (option_map (λ v. map texpr_tree v.items) result
        ≡ both (λ xs x. Some (xs ++ x ∷ [])) (option_map (λ v. map texpr_tree v.items) list) (option_map texpr_tree e)) }
{
    let Some(mut list) = list else {
        discard_some(e);
        return None;
    };
    let Some(e) = e else {
        discard_all(Some(list));
        return None;
    };
    match list.push(e) {
        Ok(()) => Some(list),
        Err(_) => {
            discard_all(Some(list));
            *full = true;
            None
        }
    }
}

// The arguments widened: the first one to the type `first`, and those behind it to the type `rest`.
fn widened_all(alloc: Global, first: Ty, rest: Ty, list: Vec<TExpr>) -> Result<TExprs, Memory>
    ensures { IfOk result (λ r. texpr_trees r.items.items ≡ widened_to first rest (map texpr_tree list.items)) }
{
    let mut out = TExprs::new(alloc);
    let mut ty = first;
    'each: for e in list {
        let Ok(wide) = widened(alloc, ty, e) else {
            return Err(Memory);
        };
        match out.push(wide) {
            Ok(()) => ty = rest,
            Err(Memory) => return Err(Memory),
        }
    }
    Ok(out)
}

// A function of as many arguments as it has. Arguments with a fault are told alone.
fn apply(
    alloc: Global,
    fun: Fun,
    list: Option<Vec<TExpr>>,
    spot: Spot,
    noted: &mut Noted,
) -> Option<TExpr>
    ensures { UnlessFull noted.old.full noted.new.full
        (Applies fun spot (option_map (λ v. map texpr_tree v.items) list) noted.old.first noted.new.first (option_map texpr_tree result)) }
{
    let Some(list) = list else {
        return None;
    };
    match function_type(fun, &list) {
        None => {
            discard_all(Some(list));
            note(&mut noted.first, Rule::Mismatch, spot);
            None
        }
        Some(ty) => match widened_all(alloc, first_wanted(fun, ty), ty, list) {
            Ok(args) => Some(TExpr::call(fun, ty, args, spot)),
            Err(Memory) => {
                noted.full = true;
                None
            }
        },
    }
}

impl Environment<'_> {
    // A name: a variable, or a constant.
    fn known(&self, name: &[u8], spot: Spot, first: &mut Option<Fault>) -> Option<TExpr>
        ensures { Types self.now.names.now (name_tree name.now spot) first.old first.new (option_map texpr_tree result) }
    {
        match self.names.find(name) {
            None => {
                note(first, Rule::Unknown, spot);
                None
            }
            Some(e) => match e.section {
                Section::Constant => Some(TExpr::literal(e.ty, e.value, spot)),
                Section::Input | Section::Output | Section::Local | Section::Retain => {
                    Some(TExpr::get(e.slot, e.ty))
                }
            },
        }
    }

    /// Types an expression: notes its faults, and gives its checked expression, none where it has a fault.
    #[cycle(typing)]
    pub(crate) fn type_expression(&self, e: &Expr, noted: &mut Noted) -> Option<TExpr>
        ensures { UnlessFull noted.old.full noted.new.full
            (Types self.now.names.now (expr_tree e.now) noted.old.first noted.new.first (option_map texpr_tree result)) }
    {
        match e {
            Expr::Lit { ty, value, spot } => literal(*ty, *value, *spot, &mut noted.first),
            Expr::Name { name, spot } => self.known(name.bytes(), *spot, &mut noted.first),
            Expr::Unary { op, arg, spot } => match negated(*op, arg) {
                Some(l) => negative(l, &mut noted.first),
                None => {
                    let operand = self.type_expression(arg, noted);
                    sign(self.alloc, *op, operand, *spot, noted)
                }
            },
            Expr::Binary {
                op,
                left,
                right,
                spot,
            } => {
                let x = self.type_expression(left, noted);
                let y = self.type_expression(right, noted);
                operate(self.alloc, *op, x, y, *spot, noted)
            }
            Expr::Call { name, args, spot } => {
                trees_of_nodes();
                self.call(name.bytes(), &args.items, *spot, noted)
            }
        }
    }

    // A call: its arguments, and whether there is such a function of so many.
    #[cycle(typing)]
    fn call(&self, name: &[u8], args: &[Expr], spot: Spot, noted: &mut Noted) -> Option<TExpr>
        ensures { UnlessFull noted.old.full noted.new.full
            (Types self.now.names.now (call_tree name.now (expr_trees args.now) spot) noted.old.first noted.new.first (option_map texpr_tree result)) }
    {
        let list = self.type_all(args, noted);
        match called(name, args.len()) {
            None => {
                discard_all(list);
                note(&mut noted.first, Rule::Call, spot);
                None
            }
            Some(fun) => apply(self.alloc, fun, list, spot, noted),
        }
    }

    // The arguments of a call, from the left; none where one of them has a fault.
    #[cycle(typing)]
    fn type_all(&self, args: &[Expr], noted: &mut Noted) -> Option<Vec<TExpr>>
        ensures { UnlessFull noted.old.full noted.new.full
            (TypesAll self.now.names.now (expr_trees args.now) noted.old.first noted.new.first (option_map (λ v. map texpr_tree v.items) result)) }
    {
        let mut list = Some(Vec::new(self.alloc));
        'each: for e in args {
            let x = self.type_expression(e, noted);
            list = push(list, x, &mut noted.full);
        }
        list
    }
}
