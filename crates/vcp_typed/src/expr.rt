//! Checked expressions.

ghost use Rattle.std.specs.Prelude.{◌≡◌, ◌<◌, ◌+◌, [], ◌∷◌, ◌++◌, Some, IfOk, OnOk, OnErr, drop, length, slice_get};
ghost use Rattle.vcp_typed.specs.Rules.{conversion as conversion_of};
ghost use Rattle.vcp_typed.specs.TExprTree.{literal as literal_tree, get as get_tree, widen as widen_tree, unary as unary_tree, binary as binary_tree};
ghost use Rattle.vcp_typed.specs.TExprTree.{call as call_tree, no_texprs, and_texpr};
ghost use Rattle.vcp_typed.specs.TExprViews.{texpr_tree, texpr_trees, texprs_and};

use st_tree::{BinOp, UnOp};
use std::alloc::Global;
use std::boxed::Box;
use vcp_base::{Memory, Spot, Ty, append};

/// A function of the language.
#[derive(Clone, Copy, Drop)]
pub enum Fun {
    /// ABS
    Abs,
    /// MIN
    Min,
    /// MAX
    Max,
    /// LIMIT
    Limit,
    /// SEL
    Sel,
    /// INT_TO_DINT
    IntToDint,
    /// INT_TO_LINT
    IntToLint,
    /// DINT_TO_INT
    DintToInt,
    /// DINT_TO_LINT
    DintToLint,
    /// LINT_TO_INT
    LintToInt,
    /// LINT_TO_DINT
    LintToDint,
    /// BOOL_TO_INT
    BoolToInt,
}

/// The types of a conversion: that of its argument, and that of its value; None where the function is
/// no conversion.
pub fn conversion(fun: Fun) -> Option<(Ty, Ty)>
    ensures { result ≡ conversion_of fun }
{
    match fun {
        Fun::Abs | Fun::Min | Fun::Max | Fun::Limit | Fun::Sel => None,
        Fun::IntToDint => Some((Ty::Int, Ty::Dint)),
        Fun::IntToLint => Some((Ty::Int, Ty::Lint)),
        Fun::DintToInt => Some((Ty::Dint, Ty::Int)),
        Fun::DintToLint => Some((Ty::Dint, Ty::Lint)),
        Fun::LintToInt => Some((Ty::Lint, Ty::Int)),
        Fun::LintToDint => Some((Ty::Lint, Ty::Dint)),
        Fun::BoolToInt => Some((Ty::Bool, Ty::Int)),
    }
}

/// The arguments of a function.
#[cycle(typed_tree)]
pub struct TExprs {
    pub items: Vec<TExpr>,
}

impl Drop for TExprs {
    #[cycle(typed_tree_drop)]
    fn drop(self) {
        let TExprs { items: _ } = self;
    }
}

/// A checked expression. The spot is that of its literal, operator or function name.
#[cycle(typed_tree)]
pub enum TExpr {
    /// A value of the type: a literal, or a constant by its value.
    Lit {
        ty: Ty,
        value: i64,
        spot: Spot,
    },
    /// The value of a slot, which has the type.
    Get {
        slot: u32,
        ty: Ty,
    },
    /// A value as one of the wider type.
    Widen {
        ty: Ty,
        arg: Box<TExpr>,
    },
    /// An operator before its operand; the type is that of both.
    Unary {
        op: UnOp,
        ty: Ty,
        arg: Box<TExpr>,
        spot: Spot,
    },
    /// An operator between its operands, which both have the type.
    Binary {
        op: BinOp,
        ty: Ty,
        left: Box<TExpr>,
        right: Box<TExpr>,
        spot: Spot,
    },
    /// A function of arguments; the type is the result's.
    Call {
        fun: Fun,
        ty: Ty,
        args: TExprs,
        spot: Spot,
    },
}

impl Drop for TExpr {
    #[cycle(typed_tree_drop)]
    fn drop(self) {
        match self {
            TExpr::Lit {
                ty: _,
                value: _,
                spot: _,
            } => {}
            TExpr::Get { slot: _, ty: _ } => {}
            TExpr::Widen { ty: _, arg: _ } => {}
            TExpr::Unary {
                op: _,
                ty: _,
                arg: _,
                spot: _,
            } => {}
            TExpr::Binary {
                op: _,
                ty: _,
                left: _,
                right: _,
                spot: _,
            } => {}
            TExpr::Call {
                fun: _,
                ty: _,
                args: _,
                spot: _,
            } => {}
        }
    }
}

impl TExprs {
    /// A list of no expressions. It takes no memory.
    pub fn new(alloc: Global) -> TExprs
        ensures items { result.items.items ≡ [] }
        ensures tree { texpr_trees result.items.items ≡ no_texprs }
    {
        TExprs {
            items: Vec::new(alloc),
        }
    }

    /// Appends an expression. After `Memory` the list is unchanged.
    pub fn push(&mut self, item: TExpr) -> Result<(), Memory>
        ensures items { OnOk result (self.new.items.items ≡ self.old.items.items ++ item ∷ []) }
        ensures tree { OnOk result
            (texpr_trees self.new.items.items
            ≡ texprs_and (texpr_trees self.old.items.items) (texpr_tree item)) }
        ensures unchanged { OnErr result (self.new.items.items ≡ self.old.items.items) }
    {
        append(&mut self.items, item)
    }

    /// How many expressions there are.
    pub fn len(&self) -> usize
        ensures { result ≡ length self.now.items.items }
    {
        self.items.len()
    }

    /// The expression at place `i`, counted from 0, where `i` is less than `len`.
    pub fn at(&self, i: usize) -> &TExpr
        requires { i < length self.now.items.items }
        ensures item { slice_get self.now.items.items i ≡ Some result.now }
        ensures tree { texpr_trees (drop i self.now.items.items)
            ≡ and_texpr (texpr_tree result.now) (texpr_trees (drop (i + 1) self.now.items.items)) }
    {
        &self.items[i]
    }
}

impl TExpr {
    /// A value of the type: a literal, or a constant by its value.
    pub fn literal(ty: Ty, value: i64, spot: Spot) -> TExpr
        ensures { texpr_tree result ≡ literal_tree ty value spot }
    {
        TExpr::Lit { ty, value, spot }
    }

    /// The value of a slot, which has the type.
    pub fn get(slot: u32, ty: Ty) -> TExpr
        ensures { texpr_tree result ≡ get_tree slot ty }
    {
        TExpr::Get { slot, ty }
    }

    /// A value as one of the wider type; `Memory` where there is no room for it.
    pub fn widen(alloc: Global, ty: Ty, arg: TExpr) -> Result<TExpr, Memory>
        ensures { IfOk result (λ e. texpr_tree e ≡ widen_tree ty (texpr_tree arg)) }
    {
        match Box::new(alloc, arg) {
            Ok(arg) => Ok(TExpr::Widen { ty, arg }),
            Err(_) => Err(Memory),
        }
    }

    /// An operator before its operand; `Memory` where there is no room for it.
    pub fn unary(alloc: Global, op: UnOp, ty: Ty, arg: TExpr, spot: Spot) -> Result<TExpr, Memory>
        ensures { IfOk result (λ e. texpr_tree e ≡ unary_tree op ty (texpr_tree arg) spot) }
    {
        match Box::new(alloc, arg) {
            Ok(arg) => Ok(TExpr::Unary { op, ty, arg, spot }),
            Err(_) => Err(Memory),
        }
    }

    /// An operator between its operands; `Memory` where there is no room for it.
    pub fn binary(
        alloc: Global,
        op: BinOp,
        ty: Ty,
        left: TExpr,
        right: TExpr,
        spot: Spot,
    ) -> Result<TExpr, Memory>
        ensures { IfOk result
            (λ e. texpr_tree e ≡ binary_tree op ty (texpr_tree left) (texpr_tree right) spot) }
    {
        match Box::new(alloc, left) {
            Ok(left) => match Box::new(alloc, right) {
                Ok(right) => Ok(TExpr::Binary {
                    op,
                    ty,
                    left,
                    right,
                    spot,
                }),
                Err(_) => Err(Memory),
            },
            Err(_) => Err(Memory),
        }
    }

    /// A function of arguments.
    pub fn call(fun: Fun, ty: Ty, args: TExprs, spot: Spot) -> TExpr
        ensures { texpr_tree result ≡ call_tree fun ty (texpr_trees args.items.items) spot }
    {
        TExpr::Call {
            fun,
            ty,
            args,
            spot,
        }
    }
}
