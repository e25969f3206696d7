//! Declarations, read token by token.

ghost use Rattle.std.specs.Prelude.{◌≡◌, [], ◌∷◌, ◌++◌, Ok};
ghost use Rattle.st_lexer.specs.Reading.{IsInside};
ghost use Rattle.st_tree.specs.ExprViews.{expr_tree_or_none};
ghost use Rattle.st_tree.specs.StmtViews.{stmt_trees};
ghost use Rattle.st_tree.specs.Spelling.{bytes_in};
ghost use Rattle.st_parser.specs.Marks.{mark_of as mark};
ghost use Rattle.st_parser.specs.ExprMachine.{Context};
ghost use Rattle.st_parser.specs.FormViews as form_view;
ghost use Rattle.st_parser.specs.StateViews.{Gives, levels, phase as phase_of};
ghost use Rattle.st_parser.specs.ProgramViews as view;
ghost use Rattle.st_parser.specs.StmtMachine.{stmt_step as stmt_step_of};
ghost use Rattle.st_parser.specs.ProgramMachine as machine;

use crate::expressions::{Progress, read};
use crate::fault::SyntaxFault;
use crate::forms::{Mode, no_forms};
use crate::levels::nothing_read;
use crate::marks::{Mark, has, is, mark_of};
use crate::names::{Source, name_of};
use crate::refusals::{discard, discard_phase, refuse_program};
use crate::state::{Parsed, Phase, Place};
use crate::statements::stmt_step;
use st_lexer::Token;
use st_tree::{Block, Blocks, Decl, Declared, DeclaredNames, Decls, Expr, Section};
use std::alloc::Global;
use std::mem;
use vcp_base::{Memory, Ty};

// A token is one more of the declared names.
fn add_name(source: Source, parsed: &mut Parsed, t: Token) -> Result<Place, SyntaxFault>
    requires inside { IsInside source.text.now t }
    ensures { Gives (view.program parsed.new) result
        (Ok (machine.at_comma (view.opening parsed.old)
        (view.names parsed.old ++ machine.declared (record { bytes = bytes_in source.entry.text.now; most = source.entry.most }) t ∷ []))) }
{
    match name_of(source.alloc, source.text, t) {
        Ok(name) => match parsed.names.push(Declared { name, spot: t.spot }) {
            Ok(()) => Ok(Place::AtComma),
            Err(Memory) => Err(SyntaxFault::Memory),
        },
        Err(Memory) => Err(SyntaxFault::Memory),
    }
}

// The end of a declaration, which is one more of its block.
fn with_decl(alloc: Global, parsed: &mut Parsed, init: Option<Expr>) -> Result<Place, SyntaxFault>
    ensures { Gives (view.program parsed.new) result
        (Ok (machine.at_decl (machine.with_decl (view.opening parsed.old) (view.names parsed.old) parsed.old.ty (expr_tree_or_none init)))) }
{
    let names = mem::replace(&mut parsed.names, DeclaredNames::new(alloc));
    let ty = parsed.ty;
    match parsed.decls.push(Decl { names, ty, init }) {
        Ok(()) => Ok(Place::AtDecl),
        Err(Memory) => Err(SyntaxFault::Memory),
    }
}

// The end of a block, which is one more of the program.
fn with_block(alloc: Global, parsed: &mut Parsed) -> Result<Place, SyntaxFault>
    ensures { Gives (view.program parsed.new) result (Ok (machine.at_block (machine.with_block (view.opening parsed.old)))) }
{
    let decls = mem::replace(&mut parsed.decls, Decls::new(alloc));
    let section = parsed.section;
    match parsed.blocks.push(Block { section, decls }) {
        Ok(()) => Ok(Place::AtBlock),
        Err(Memory) => Err(SyntaxFault::Memory),
    }
}

// A block of no declarations yet.
fn begin(alloc: Global, parsed: &mut Parsed, section: Section)
    ensures { view.opening parsed.new ≡ machine.begun (view.front parsed.old) section }
{
    parsed.section = section;
    parsed.decls = Decls::new(alloc);
}

// A token where a declaration may begin.
fn decl_at(source: Source, parsed: &mut Parsed, mark: Mark, t: Token) -> Result<Place, SyntaxFault>
    requires inside { IsInside source.text.now t }
    ensures { Gives (view.program parsed.new) result
        (machine.decl_at (record { bytes = bytes_in source.entry.text.now; most = source.entry.most }) (view.opening parsed.old) mark t) }
{
    if is(mark, Mark::Name) {
        parsed.names = DeclaredNames::new(source.alloc);
        return add_name(source, parsed, t);
    }
    if is(mark, Mark::EndVar) {
        return with_block(source.alloc, parsed);
    }
    refuse_program(t)
}

// A token of the body.
fn body_step(source: Source, parsed: &mut Parsed, t: Token) -> Result<Place, SyntaxFault>
    requires inside { IsInside source.text.now t }
    ensures { Gives (view.program parsed.new) result (machine.body_step (view.front parsed.old)
        (stmt_step_of (record { bytes = bytes_in source.entry.text.now; most = source.entry.most }) (levels parsed.old.bodies.outer.items)
        (stmt_trees parsed.old.bodies.stmts.items.items) (phase_of parsed.old.bodies.phase) t)) }
{
    let phase = mem::replace(&mut parsed.bodies.phase, Phase::Start);
    match stmt_step(source, &mut parsed.bodies, phase, t) {
        Ok(phase) => {
            discard_phase(mem::replace(&mut parsed.bodies.phase, phase));
            Ok(Place::InBody)
        }
        Err(fault) => Err(fault),
    }
}

// The token behind PROGRAM.
fn name_at(source: Source, parsed: &mut Parsed, t: Token) -> Result<Place, SyntaxFault>
    requires inside { IsInside source.text.now t }
    ensures { Gives (view.program parsed.new) result
        (machine.program_step (record { bytes = bytes_in source.entry.text.now; most = source.entry.most }) machine.at_name t) }
{
    if has(t, Mark::Name) {
        return match name_of(source.alloc, source.text, t) {
            Ok(name) => {
                parsed.name = name;
                parsed.blocks = Blocks::new(source.alloc);
                Ok(Place::AtBlock)
            }
            Err(Memory) => Err(SyntaxFault::Memory),
        };
    }
    refuse_program(t)
}

// A token where a block may begin, or the body.
fn block_at(source: Source, parsed: &mut Parsed, t: Token) -> Result<Place, SyntaxFault>
    requires inside { IsInside source.text.now t }
    ensures { Gives (view.program parsed.new) result
        (machine.block_at (record { bytes = bytes_in source.entry.text.now; most = source.entry.most }) (view.front parsed.old) (mark t.tok) t) }
{
    let mark = mark_of(t.tok);
    if is(mark, Mark::VarInput) {
        begin(source.alloc, parsed, Section::Input);
        return Ok(Place::AtDecl);
    }
    if is(mark, Mark::VarOutput) {
        begin(source.alloc, parsed, Section::Output);
        return Ok(Place::AtDecl);
    }
    if is(mark, Mark::Var) {
        return Ok(Place::AtVar);
    }
    parsed.bodies = nothing_read(source.alloc);
    body_step(source, parsed, t)
}

// A token behind VAR.
fn var_at(source: Source, parsed: &mut Parsed, t: Token) -> Result<Place, SyntaxFault>
    requires inside { IsInside source.text.now t }
    ensures { Gives (view.program parsed.new) result
        (machine.var_at (record { bytes = bytes_in source.entry.text.now; most = source.entry.most }) (view.front parsed.old) (mark t.tok) t) }
{
    let mark = mark_of(t.tok);
    match mark {
        Mark::Constant => {
            begin(source.alloc, parsed, Section::Constant);
            Ok(Place::AtDecl)
        }
        Mark::Retain => {
            begin(source.alloc, parsed, Section::Retain);
            Ok(Place::AtDecl)
        }
        _ => {
            begin(source.alloc, parsed, Section::Local);
            decl_at(source, parsed, mark, t)
        }
    }
}

// The token behind the colon of a declaration.
fn type_at(parsed: &mut Parsed, t: Token) -> Result<Place, SyntaxFault>
    ensures { Gives (view.program parsed.new) result (machine.type_at (view.opening parsed.old) (view.names parsed.old) (mark t.tok) t) }
{
    let ty = match mark_of(t.tok) {
        Mark::Bool => Ty::Bool,
        Mark::Int => Ty::Int,
        Mark::Dint => Ty::Dint,
        Mark::Lint => Ty::Lint,
        _ => return refuse_program(t),
    };
    parsed.ty = ty;
    Ok(Place::AtInit)
}

// The token behind the type of a declaration.
fn init_begins(alloc: Global, parsed: &mut Parsed, t: Token) -> Result<Place, SyntaxFault>
    ensures { (c : Context) → Gives (view.program parsed.new) result
        (machine.program_step c (machine.at_init (view.opening parsed.old) (view.names parsed.old) parsed.old.ty) t) }
{
    let mark = mark_of(t.tok);
    if is(mark, Mark::Semi) {
        return with_decl(alloc, parsed, None);
    }
    if is(mark, Mark::Assign) {
        parsed.forms = no_forms(alloc);
        parsed.mode = Mode::Want;
        return Ok(Place::InInit);
    }
    refuse_program(t)
}

// A token of an initial value, or the one behind it.
fn init_at(source: Source, parsed: &mut Parsed, t: Token) -> Result<Place, SyntaxFault>
    requires inside { IsInside source.text.now t }
    ensures { Gives (view.program parsed.new) result
        (machine.program_step (record { bytes = bytes_in source.entry.text.now; most = source.entry.most })
        (machine.in_init (view.opening parsed.old) (view.names parsed.old) parsed.old.ty
        (form_view.forms parsed.old.forms.items) (form_view.mode parsed.old.mode)) t) }
{
    let mode = mem::replace(&mut parsed.mode, Mode::Want);
    match read(source, 0, &mut parsed.forms, mode, t) {
        Ok(Progress::On(mode)) => {
            parsed.mode = mode;
            Ok(Place::InInit)
        }
        Ok(Progress::Ended(e)) => {
            if has(t, Mark::Semi) {
                return with_decl(source.alloc, parsed, Some(e));
            }
            discard(e);
            refuse_program(t)
        }
        Err(fault) => Err(fault),
    }
}

/// A token of a program.
pub fn program_step(
    source: Source,
    parsed: &mut Parsed,
    place: Place,
    t: Token,
) -> Result<Place, SyntaxFault>
    requires inside { IsInside source.text.now t }
    ensures { Gives (view.program parsed.new) result
        (machine.program_step (record { bytes = bytes_in source.entry.text.now; most = source.entry.most }) (view.program parsed.old place) t) }
{
    match place {
        Place::AtProgram => {
            if has(t, Mark::Program) {
                return Ok(Place::AtName);
            }
            refuse_program(t)
        }
        Place::AtName => name_at(source, parsed, t),
        Place::AtBlock => block_at(source, parsed, t),
        Place::AtVar => var_at(source, parsed, t),
        Place::AtDecl => decl_at(source, parsed, mark_of(t.tok), t),
        Place::AtComma => {
            let mark = mark_of(t.tok);
            if is(mark, Mark::Comma) {
                return Ok(Place::AtNextName);
            }
            if is(mark, Mark::Colon) {
                return Ok(Place::AtType);
            }
            refuse_program(t)
        }
        Place::AtNextName => {
            if has(t, Mark::Name) {
                return add_name(source, parsed, t);
            }
            refuse_program(t)
        }
        Place::AtType => type_at(parsed, t),
        Place::AtInit => init_begins(source.alloc, parsed, t),
        Place::InInit => init_at(source, parsed, t),
        Place::InBody => body_step(source, parsed, t),
    }
}
