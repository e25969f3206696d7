//! Programs and their declarations.

ghost use Rattle.std.specs.Prelude.{◌≡◌, ◌∷◌, [], ℕ, List, IfOk, flat_map, map};
ghost use Rattle.st_lexer.specs.Reading.{Reads};
ghost use Rattle.st_lexer.specs.declared.token.Token.{Token};
ghost use Rattle.st_lexer.specs.declared.token.Sym.TheVariants as sym;
ghost use Rattle.st_tree.specs.Programs as programs;
ghost use Rattle.st_tree.specs.ProgramTree.{ProgramTree};
ghost use Rattle.st_tree.specs.ExprViews.{expr_tree_or_none};
ghost use Rattle.st_tree.specs.ProgramViews.{declared_tree, decl_tree, block_tree, program_tree};
ghost use Rattle.st_tree.specs.Spelling.{SpellsWithin};
ghost use Rattle.st_tree.specs.Bare.{bare};
ghost use Rattle.st_writer.specs.Adds.{Adds};
ghost use Rattle.st_writer.specs.ReadsAs.{ReadsAs};
ghost use Rattle.st_writer.specs.CanonicalProgram as spec;
ghost use Rattle.st_writer.specs.Lexemes as lexeme;

use crate::expr::ANY;
use crate::writer::Writer;
use st_tree::{Block, Decl, Declared, Expr, Program, Section};
use std::alloc::Global;
use vcp_base::{Memory, Text, Ty};

// A colon with a space on both sides, and the word of a type.
fn type_text(ty: Ty) -> &'static [u8]
    ensures { result.now
        ≡ lexeme.text_of (lexeme.blank ∷ lexeme.symbol sym.Colon ∷ lexeme.blank ∷ lexeme.word (programs.type_key ty) ∷ []) }
{
    match ty {
        Ty::Bool => b" : BOOL",
        Ty::Int => b" : INT",
        Ty::Dint => b" : DINT",
        Ty::Lint => b" : LINT",
    }
}

// The line with which a block begins.
fn head_text(section: Section) -> &'static [u8]
    ensures { result.now ≡ lexeme.text_of (lexeme.line 0 (spec.head section)) }
{
    match section {
        Section::Input => b"VAR_INPUT\n",
        Section::Output => b"VAR_OUTPUT\n",
        Section::Local => b"VAR\n",
        Section::Constant => b"VAR CONSTANT\n",
        Section::Retain => b"VAR RETAIN\n",
    }
}

impl Writer {
    // Writes the names of a declaration.
    fn names(mut self, names: &[Declared]) -> Writer
        ensures { Adds self result (spec.names (map declared_tree names.now)) }
    {
        for i in 0..names.len() {
            let declared = &names[i];
            self = self.separator(i).name(&declared.name);
        }
        self
    }

    // Writes the initial value, where one is given.
    fn init(self, init: &Option<Expr>) -> Writer
        ensures { Adds self result (spec.init (expr_tree_or_none init.now)) }
    {
        match init {
            None => self,
            Some(e) => self.put(b" := ").expr(ANY, e),
        }
    }

    // Writes the line of a declaration.
    fn decl(self, decl: &Decl) -> Writer
        ensures { Adds self result (spec.decl (decl_tree decl.now)) }
    {
        self.put(b"  ")
            .names(&decl.names.items)
            .put(type_text(decl.ty))
            .init(&decl.init)
            .put(b";\n")
    }

    fn decls(mut self, decls: &[Decl]) -> Writer
        ensures { Adds self result (flat_map spec.decl (map decl_tree decls.now)) }
    {
        for i in 0..decls.len() {
            self = self.decl(&decls[i]);
        }
        self
    }

    fn block(self, block: &Block) -> Writer
        ensures { Adds self result (spec.block (block_tree block.now)) }
    {
        self.put(head_text(block.section))
            .decls(&block.decls.items)
            .put(b"END_VAR\n")
    }

    fn blocks(mut self, blocks: &[Block]) -> Writer
        ensures { Adds self result (flat_map spec.block (map block_tree blocks.now)) }
    {
        for i in 0..blocks.len() {
            self = self.block(&blocks[i]);
        }
        self
    }

    fn program(self, program: &Program) -> Writer
        ensures { Adds self result (spec.program (program_tree program.now)) }
    {
        self.put(b"PROGRAM ")
            .name(&program.name)
            .put(b"\n")
            .blocks(&program.blocks.items)
            .stmts(0, &program.body.items)
            .put(b"END_PROGRAM\n")
    }
}

/// The canonical text of a program; `Memory` where there is no room for it.
///
/// It is one for all programs that are the same, spots aside. Where the tokens of some text spell the
/// program, those of its canonical text spell it too, spots aside, and no deeper. Comments, bases of
/// literals and brackets that aren't needed are not kept.
pub fn write_program(alloc: Global, program: &Program) -> Result<Text, Memory>
    ensures text { IfOk result (λ t. t ≡ spec.canonical (program_tree program.now)) }
    ensures one { (p : ProgramTree) → bare p ≡ bare (program_tree program.now) → IfOk result (λ t. t ≡ spec.canonical p) }
    ensures reads_back { (limit : ℕ) (text : List ℕ) (ts : List Token) → Reads text ts
        → SpellsWithin limit (program_tree program.now) text ts → IfOk result (ReadsAs limit (program_tree program.now)) }
{
    Writer::new(alloc).program(program).into_text()
}
