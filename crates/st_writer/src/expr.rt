//! Expressions.

ghost use Rattle.std.specs.Prelude.{◌≡◌, ◌++◌, ◌∷◌, ◌≤◌, []};
ghost use Rattle.st_lexer.specs.declared.token.Sym.TheVariants as sym;
ghost use Rattle.st_tree.specs.ExprViews.{expr_tree, expr_trees};
ghost use Rattle.st_writer.specs.Adds.{Adds, where_needed};
ghost use Rattle.st_writer.specs.CanonicalExpr as canonical;
ghost use Rattle.st_writer.specs.Lexemes as lexeme;

use crate::writer::Writer;
use st_tree::{BinOp, Expr, UnOp, level_of, trees_of_nodes};
use vcp_base::Text;

/// The level at which no expression has brackets.
pub const ANY: u8 = 1;

/// The level of the operand of a sign.
const UNARY: u8 = 8;

/// The spelling of an operator between its operands, with a space on both sides.
pub fn operator_text(op: BinOp) -> &'static [u8]
    ensures { result.now ≡ lexeme.text_of (lexeme.blank ∷ canonical.operator op ∷ lexeme.blank ∷ []) }
{
    match op {
        BinOp::Mul => b" * ",
        BinOp::Div => b" / ",
        BinOp::Mod => b" MOD ",
        BinOp::Add => b" + ",
        BinOp::Sub => b" - ",
        BinOp::Lt => b" < ",
        BinOp::Gt => b" > ",
        BinOp::Le => b" <= ",
        BinOp::Ge => b" >= ",
        BinOp::Eq => b" = ",
        BinOp::Ne => b" <> ",
        BinOp::And => b" AND ",
        BinOp::Xor => b" XOR ",
        BinOp::Or => b" OR ",
    }
}

// The spelling of an operator before its operand.
fn sign_text(op: UnOp) -> &'static [u8]
    ensures { result.now ≡ lexeme.text_of (canonical.sign op) }
{
    match op {
        UnOp::Neg => b"-",
        UnOp::Not => b"NOT ",
    }
}

impl Writer {
    // Writes an opening bracket where brackets are needed.
    fn opening(self, needed: bool) -> Writer
        ensures { Adds self result (where_needed needed sym.LParen) }
    {
        if needed { self.put(b"(") } else { self }
    }

    // Writes a closing bracket where brackets are needed.
    fn closing(self, needed: bool) -> Writer
        ensures { Adds self result (where_needed needed sym.RParen) }
    {
        if needed { self.put(b")") } else { self }
    }

    /// Writes an expression where an operator of the level `wanted` or more is wanted.
    #[cycle(expr)]
    pub fn expr(self, wanted: u8, e: &Expr) -> Writer
        ensures { Adds self result (canonical.expr wanted (expr_tree e.now)) }
    {
        match e {
            Expr::Lit { ty, value, .. } => self.literal(*ty, *value),
            Expr::Name { name, .. } => self.name(name),
            Expr::Unary { op, arg, .. } => self.put(sign_text(*op)).expr(UNARY, arg),
            Expr::Binary {
                op,
                left,
                right,
                ..
            } => {
                let strength = level_of(*op);
                let weak = strength < wanted;
                self.opening(weak)
                    .expr(strength, left)
                    .put(operator_text(*op))
                    .expr(strength + 1, right)
                    .closing(weak)
            }
            Expr::Call { name, args, .. } => {
                trees_of_nodes();
                self.call(name, &args.items)
            }
        }
    }

    #[cycle(expr)]
    fn call(self, name: &Text, args: &[Expr]) -> Writer
        ensures { Adds self result
            (lexeme.name name.now ∷ lexeme.symbol sym.LParen ∷ (canonical.args (expr_trees args.now) ++ lexeme.symbol sym.RParen ∷ [])) }
    {
        self.name(name).put(b"(").args(args).put(b")")
    }

    #[cycle(expr)]
    fn args(mut self, args: &[Expr]) -> Writer
        ensures { Adds self result (canonical.args (expr_trees args.now)) }
    {
        for i in 0..args.len() {
            self = self.separator(i).expr(ANY, &args[i]);
        }
        self
    }
}
