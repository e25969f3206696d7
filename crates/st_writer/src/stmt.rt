//! Statements.

ghost use Rattle.std.specs.Prelude.{◌≡◌, ◌++◌, ◌∷◌, [], suc, List};
ghost use Rattle.st_lexer.specs.declared.token.Key.TheVariants as keys;
ghost use Rattle.st_lexer.specs.declared.token.Sym.TheVariants as sym;
ghost use Rattle.st_tree.specs.Operators.{any_level};
ghost use Rattle.st_tree.specs.ExprViews.{expr_tree, expr_tree_or_none};
ghost use Rattle.st_tree.specs.StmtViews.{label_tree, label_trees, stmt_tree, stmt_trees, arm_trees, branch_trees, other_tree};
ghost use Rattle.st_writer.specs.Adds.{Adds, arm_key, head_line, for_line};
ghost use Rattle.st_writer.specs.CanonicalExpr.{expr};
ghost use Rattle.st_writer.specs.CanonicalStmt as canonical;
ghost use Rattle.st_writer.specs.Lexemes as lexeme;
ghost use Rattle.st_writer.specs.Lexemes.{Lexeme};

use crate::expr::ANY;
use crate::writer::Writer;
use st_tree::{Arm, Branch, Expr, Label, Stmt, Stmts, UnOp, trees_of_nodes};
use vcp_base::Text;

// The keyword before condition `i` of an IF, with a space behind it.
fn arm_text(i: usize) -> &'static [u8]
    ensures { result.now ≡ lexeme.text_of (lexeme.word (arm_key i) ∷ lexeme.blank ∷ []) }
{
    if i == 0 { b"IF " } else { b"ELSIF " }
}

// Labels of a CASE.
impl Writer {
    // Writes what stands behind the sign of a label.
    fn negated(self, e: &Expr) -> Writer
        ensures { Adds self result (canonical.negated (expr_tree e.now)) }
    {
        match e {
            Expr::Lit { ty, value, .. } => self.number(*ty, *value),
            Expr::Name { .. } | Expr::Unary { .. } | Expr::Binary { .. } | Expr::Call { .. } => {
                self.expr(ANY, e)
            }
        }
    }

    // Writes a constant of a label.
    fn constant(self, e: &Expr) -> Writer
        ensures { Adds self result (canonical.constant (expr_tree e.now)) }
    {
        match e {
            Expr::Unary { op, arg, .. } => match op {
                UnOp::Neg => self.put(b"-").negated(arg),
                UnOp::Not => self.expr(ANY, e),
            },
            Expr::Lit { .. } | Expr::Name { .. } | Expr::Binary { .. } | Expr::Call { .. } => {
                self.expr(ANY, e)
            }
        }
    }

    // Writes a label: a constant, or the first and the last of a range.
    fn label(self, label: &Label) -> Writer
        ensures { Adds self result (canonical.label (label_tree label.now)) }
    {
        let first = self.constant(&label.first);
        match &label.last {
            None => first,
            Some(last) => first.put(b"..").constant(last),
        }
    }

    // Writes the labels of a branch.
    fn labels(mut self, labels: &[Label]) -> Writer
        ensures { Adds self result (canonical.labels (label_trees labels.now)) }
    {
        for i in 0..labels.len() {
            self = self.separator(i).label(&labels[i]);
        }
        self
    }
}

// Lines of statements.
impl Writer {
    fn assignment(self, level: usize, name: &Text, value: &Expr) -> Writer
        ensures { Adds self result (lexeme.line level
            (lexeme.name name.now ∷ lexeme.blank ∷ lexeme.symbol sym.Assign ∷ lexeme.blank
            ∷ (expr any_level (expr_tree value.now) ++ lexeme.symbol sym.Semi ∷ []))) }
    {
        self.indent(level)
            .name(name)
            .put(b" := ")
            .expr(ANY, value)
            .put(b";\n")
    }

    // Writes the line of an expression between two texts, as `IF x THEN`; the second ends the line.
    fn head(self, level: usize, before: &[u8], e: &Expr, behind: &[u8]) -> Writer
        ensures { (xs ys : List Lexeme) → lexeme.text_of xs ≡ before.now → lexeme.text_of (ys ++ lexeme.line_end ∷ []) ≡ behind.now
            → Adds self result (head_line level xs (expr_tree e.now) ys) }
    {
        self.indent(level).put(before).expr(ANY, e).put(behind)
    }

    // Writes a line of no more than a text, as `END_IF;`.
    fn line(self, level: usize, text: &[u8]) -> Writer
        ensures { (xs : List Lexeme) → lexeme.text_of (xs ++ lexeme.line_end ∷ []) ≡ text.now → Adds self result (lexeme.line level xs) }
    {
        self.indent(level).put(text)
    }

    // Writes the step of a FOR, where one is given, and ends its line.
    fn step(self, by: &Option<Expr>) -> Writer
        ensures { Adds self result (lexeme.blank ∷ ((canonical.step (expr_tree_or_none by.now) ++ lexeme.word keys.Do ∷ []) ++ lexeme.line_end ∷ [])) }
    {
        match by {
            None => self.put(b" DO\n"),
            Some(e) => self.put(b" BY ").expr(ANY, e).put(b" DO\n"),
        }
    }

    // Writes the first line of a FOR.
    fn for_line(
        self,
        level: usize,
        name: &Text,
        first: &Expr,
        last: &Expr,
        by: &Option<Expr>,
    ) -> Writer
        ensures { Adds self result (for_line level name.now (expr_tree first.now) (expr_tree last.now) (expr_tree_or_none by.now)) }
    {
        self.indent(level)
            .put(b"FOR ")
            .name(name)
            .put(b" := ")
            .expr(ANY, first)
            .put(b" TO ")
            .expr(ANY, last)
            .step(by)
    }
}

// Statements, with their bodies.
impl Writer {
    /// Writes statements one level deeper than `outer`.
    #[cycle(stmt)]
    pub fn stmts(mut self, outer: usize, stmts: &[Stmt]) -> Writer
        ensures { Adds self result (canonical.stmts (suc outer) (stmt_trees stmts.now)) }
    {
        let level = self.deeper(outer);
        for i in 0..stmts.len() {
            self = self.stmt(level, &stmts[i]);
        }
        self
    }

    #[cycle(stmt)]
    fn stmt(self, level: usize, s: &Stmt) -> Writer
        ensures { Adds self result (canonical.stmt level (stmt_tree s.now)) }
    {
        trees_of_nodes();
        match s {
            Stmt::Assign { name, value, .. } => self.assignment(level, name, value),
            Stmt::If { arms, other } => self
                .arms(level, &arms.items)
                .other(level, other)
                .line(level, b"END_IF;\n"),
            Stmt::Case {
                on,
                branches,
                other,
                ..
            } => self
                .head(level, b"CASE ", on, b" OF\n")
                .branches(level, &branches.items)
                .other(level, other)
                .line(level, b"END_CASE;\n"),
            Stmt::For {
                name,
                first,
                last,
                by,
                body,
                ..
            } => self
                .for_line(level, name, first, last, by)
                .stmts(level, &body.items)
                .line(level, b"END_FOR;\n"),
        }
    }

    // Writes the conditions of an IF, with their bodies.
    #[cycle(stmt)]
    fn arms(mut self, level: usize, arms: &[Arm]) -> Writer
        ensures { Adds self result (canonical.arms_from level keys.If (arm_trees arms.now)) }
    {
        for i in 0..arms.len() {
            self = self.arm(level, i, &arms[i]);
        }
        self
    }

    // Writes condition `i` of an IF, with its body.
    #[cycle(stmt)]
    fn arm(self, level: usize, i: usize, arm: &Arm) -> Writer
        ensures { Adds self result
            (head_line level (lexeme.word (arm_key i) ∷ lexeme.blank ∷ []) (expr_tree arm.now.cond) (lexeme.blank ∷ lexeme.word keys.Then ∷ [])
            ++ canonical.stmts (suc level) (stmt_trees arm.now.body.items.items)) }
    {
        self.head(level, arm_text(i), &arm.cond, b" THEN\n")
            .stmts(level, &arm.body.items)
    }

    // Writes the branches of a CASE.
    #[cycle(stmt)]
    fn branches(mut self, level: usize, branches: &[Branch]) -> Writer
        ensures { Adds self result (canonical.branches_of level (branch_trees branches.now)) }
    {
        let inner = self.deeper(level);
        for i in 0..branches.len() {
            self = self.branch(inner, &branches[i]);
        }
        self
    }

    // Writes a branch, its labels at a level and its body one deeper.
    #[cycle(stmt)]
    fn branch(self, level: usize, branch: &Branch) -> Writer
        ensures { Adds self result
            (lexeme.line level (canonical.labels (label_trees branch.now.labels.items.items) ++ lexeme.symbol sym.Colon ∷ [])
            ++ canonical.stmts (suc level) (stmt_trees branch.now.body.items.items)) }
    {
        self.indent(level)
            .labels(&branch.labels.items)
            .put(b":\n")
            .stmts(level, &branch.body.items)
    }

    // Writes ELSE with its body, where there is one.
    #[cycle(stmt)]
    fn other(self, level: usize, other: &Option<Stmts>) -> Writer
        ensures { Adds self result (canonical.else_of level (other_tree other.now)) }
    {
        match other {
            None => self,
            Some(body) => self.line(level, b"ELSE\n").stmts(level, &body.items),
        }
    }
}
