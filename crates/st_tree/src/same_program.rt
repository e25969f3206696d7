//! Equality of programs that leaves spots aside.

ghost use Rattle.std.specs.Prelude.{◌≡◌, ◌↔◌, IsTrue, map};
ghost use Rattle.st_tree.specs.Bare.{bare, bare_declared, bare_decl, bare_block};
ghost use Rattle.st_tree.specs.ProgramViews.{declared_tree, decl_tree, block_tree, program_tree};

use crate::program::{Block, Decl, Declared, Program};
use crate::same_expr::{same_expr_or_none, same_text};
use crate::same_stmt::same_stmts;

fn same_names(a: &[Declared], b: &[Declared]) -> bool
    ensures { IsTrue result
        ↔ (map bare_declared (map declared_tree a.now)
        ≡ map bare_declared (map declared_tree b.now)) }
{
    if a.len() != b.len() {
        return false;
    }
    for i in 0..a.len() {
        if !same_text(&a[i].name, &b[i].name) {
            return false;
        }
    }
    true
}

fn same_decl(a: &Decl, b: &Decl) -> bool
    ensures { IsTrue result ↔ (bare_decl (decl_tree a.now) ≡ bare_decl (decl_tree b.now)) }
{
    if a.ty != b.ty {
        return false;
    }
    same_names(&a.names.items, &b.names.items) && same_expr_or_none(&a.init, &b.init)
}

fn same_decls(a: &[Decl], b: &[Decl]) -> bool
    ensures { IsTrue result
        ↔ (map bare_decl (map decl_tree a.now) ≡ map bare_decl (map decl_tree b.now)) }
{
    if a.len() != b.len() {
        return false;
    }
    for i in 0..a.len() {
        if !same_decl(&a[i], &b[i]) {
            return false;
        }
    }
    true
}

fn same_block(a: &Block, b: &Block) -> bool
    ensures { IsTrue result ↔ (bare_block (block_tree a.now) ≡ bare_block (block_tree b.now)) }
{
    a.section == b.section && same_decls(&a.decls.items, &b.decls.items)
}

fn same_blocks(a: &[Block], b: &[Block]) -> bool
    ensures { IsTrue result
        ↔ (map bare_block (map block_tree a.now) ≡ map bare_block (map block_tree b.now)) }
{
    if a.len() != b.len() {
        return false;
    }
    for i in 0..a.len() {
        if !same_block(&a[i], &b[i]) {
            return false;
        }
    }
    true
}

/// Whether two programs are one, spots aside: names are compared byte for byte.
pub fn same_tree(a: &Program, b: &Program) -> bool
    ensures { IsTrue result ↔ (bare (program_tree a.now) ≡ bare (program_tree b.now)) }
{
    if !same_text(&a.name, &b.name) {
        return false;
    }
    same_blocks(&a.blocks.items, &b.blocks.items) && same_stmts(&a.body.items, &b.body.items)
}
