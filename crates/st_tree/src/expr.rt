//! Expressions.

ghost use Rattle.std.specs.Prelude.{◌≡◌, ◌<◌, ◌+◌, [], ◌∷◌, ◌++◌, Some, IfOk, OnOk, OnErr, drop, length, slice_get};
ghost use Rattle.st_tree.specs.ExprTree.{literal, name as name_tree, unary as unary_tree, binary as binary_tree, call as call_tree, no_exprs, and_expr};
ghost use Rattle.st_tree.specs.Appended.{exprs_and};
ghost use Rattle.st_tree.specs.ExprViews.{expr_tree, expr_trees};

use std::alloc::Global;
use std::boxed::Box;
use vcp_base::{Memory, Spot, Text, Ty, append};

/// An operator of one operand.
#[derive(Clone, Copy, PartialEq, Eq, Drop)]
pub enum UnOp {
    /// `-`
    Neg,
    /// NOT
    Not,
}

/// An operator of two operands.
#[derive(Clone, Copy, PartialEq, Eq, Drop)]
pub enum BinOp {
    /// `*`
    Mul,
    /// `/`
    Div,
    /// MOD
    Mod,
    /// `+`
    Add,
    /// `-`
    Sub,
    /// `<`
    Lt,
    /// `>`
    Gt,
    /// `<=`
    Le,
    /// `>=`
    Ge,
    /// `=`
    Eq,
    /// `<>`
    Ne,
    /// AND
    And,
    /// XOR
    Xor,
    /// OR
    Or,
}

/// A list of expressions: the arguments of a call.
#[cycle(tree)]
pub struct Exprs {
    pub items: Vec<Expr>,
}

impl Drop for Exprs {
    #[cycle(tree_drop)]
    fn drop(self) {
        let Exprs { items: _ } = self;
    }
}

/// An expression, with the spot of its literal, name, operator or function name. Contracts see a tree as what
/// it holds, never where it lies in memory.
#[cycle(tree)]
pub enum Expr {
    /// A literal, with its type where it is typed. TRUE and `BOOL#1` are both the literal 1 of type
    /// BOOL. Whether the value is one of the type is not asked here.
    Lit {
        ty: Option<Ty>,
        value: i64,
        spot: Spot,
    },
    /// A variable or constant.
    Name {
        name: Text,
        spot: Spot,
    },
    /// An operator before its operand.
    Unary {
        op: UnOp,
        arg: Box<Expr>,
        spot: Spot,
    },
    /// An operator between its operands.
    Binary {
        op: BinOp,
        left: Box<Expr>,
        right: Box<Expr>,
        spot: Spot,
    },
    /// A function of arguments.
    Call {
        name: Text,
        args: Exprs,
        spot: Spot,
    },
}

impl Drop for Expr {
    #[cycle(tree_drop)]
    fn drop(self) {
        match self {
            Expr::Lit {
                ty: _,
                value: _,
                spot: _,
            } => {}
            Expr::Name { name: _, spot: _ } => {}
            Expr::Unary {
                op: _,
                arg: _,
                spot: _,
            } => {}
            Expr::Binary {
                op: _,
                left: _,
                right: _,
                spot: _,
            } => {}
            Expr::Call {
                name: _,
                args: _,
                spot: _,
            } => {}
        }
    }
}

impl Exprs {
    /// A list of no expressions. It takes no memory.
    pub fn new(alloc: Global) -> Exprs
        ensures items { result.items.items ≡ [] }
        ensures tree { expr_trees result.items.items ≡ no_exprs }
    {
        Exprs {
            items: Vec::new(alloc),
        }
    }

    /// Appends an expression. After `Memory` the list is unchanged.
    pub fn push(&mut self, item: Expr) -> Result<(), Memory>
        ensures items { OnOk result (self.new.items.items ≡ self.old.items.items ++ item ∷ []) }
        ensures tree { OnOk result
            (expr_trees self.new.items.items
            ≡ exprs_and (expr_trees self.old.items.items) (expr_tree item)) }
        ensures unchanged { OnErr result (self.new.items.items ≡ self.old.items.items) }
    {
        append(&mut self.items, item)
    }

    /// How many expressions there are.
    pub fn len(&self) -> usize
        ensures { result ≡ length self.now.items.items }
    {
        self.items.len()
    }

    /// The expression at place `i`, counted from 0, where `i` is less than `len`.
    pub fn at(&self, i: usize) -> &Expr
        requires { i < length self.now.items.items }
        ensures item { slice_get self.now.items.items i ≡ Some result.now }
        ensures tree { expr_trees (drop i self.now.items.items)
            ≡ and_expr (expr_tree result.now) (expr_trees (drop (i + 1) self.now.items.items)) }
    {
        &self.items[i]
    }
}

impl Expr {
    /// A literal.
    pub fn literal(ty: Option<Ty>, value: i64, spot: Spot) -> Expr
        ensures { expr_tree result ≡ literal ty value spot }
    {
        Expr::Lit { ty, value, spot }
    }

    /// A variable or constant.
    pub fn name(name: Text, spot: Spot) -> Expr
        ensures { expr_tree result ≡ name_tree name spot }
    {
        Expr::Name { name, spot }
    }

    /// An operator before its operand; `Memory` where there is no room for it.
    pub fn unary(alloc: Global, op: UnOp, arg: Expr, spot: Spot) -> Result<Expr, Memory>
        ensures { IfOk result (λ e. expr_tree e ≡ unary_tree op (expr_tree arg) spot) }
    {
        match Box::new(alloc, arg) {
            Ok(arg) => Ok(Expr::Unary { op, arg, spot }),
            Err(_) => Err(Memory),
        }
    }

    /// An operator between its operands; `Memory` where there is no room for it.
    pub fn binary(
        alloc: Global,
        op: BinOp,
        left: Expr,
        right: Expr,
        spot: Spot,
    ) -> Result<Expr, Memory>
        ensures { IfOk result
            (λ e. expr_tree e ≡ binary_tree op (expr_tree left) (expr_tree right) spot) }
    {
        match Box::new(alloc, left) {
            Ok(left) => match Box::new(alloc, right) {
                Ok(right) => Ok(Expr::Binary {
                    op,
                    left,
                    right,
                    spot,
                }),
                Err(_) => Err(Memory),
            },
            Err(_) => Err(Memory),
        }
    }

    /// A function of arguments.
    pub fn call(name: Text, args: Exprs, spot: Spot) -> Expr
        ensures { expr_tree result ≡ call_tree name (expr_trees args.items.items) spot }
    {
        Expr::Call { name, args, spot }
    }
}
