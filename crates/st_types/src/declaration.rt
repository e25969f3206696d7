//! The typing of declarations.

ghost use Rattle.std.specs.Prelude.{◌≡◌, IfOk, OnOk, false, length, map};
ghost use Rattle.st_tree.specs.ExprViews.{expr_tree_or_none};
ghost use Rattle.st_tree.specs.ProgramViews.{block_tree, decl_tree, declared_tree};
ghost use Rattle.st_types.specs.declared.fault.Rule.TheVariants as rule_;
ghost use Rattle.st_types.specs.DeclSteps.{made_by, DeclForm, JudgesInit, Makes, MakesAll, MakesBlocks, MakesDecls, MakesNames};
ghost use Rattle.st_types.specs.DeclTyping.{nothing_made, is_new, slots_with, after_name, after_decl, value_or_zero as zero_or, Misfit};
ghost use Rattle.st_types.specs.Faults.{fault};
ghost use Rattle.st_types.specs.Notes.{Notes};
ghost use Rattle.st_types.specs.Full.{UnlessFull};

use crate::constants::Known;
use crate::environment::Environment;
use crate::fault::{Fault, Rule};
use crate::initial::initial;
use crate::names::{Entry, Names};
use crate::note::{Noted, note};
use crate::variable::is_constant;
use st_tree::{Block, Decl, Declared, Expr, Section};
use std::alloc::Global;
use vcp_base::{Memory, Spot, Text, Ty, within};
use vcp_typed::{Slot, Slots};

/// What the declarations so far have made: the names, and the slots of those that are no constants.
#[derive(Drop)]
pub(crate) struct Declarations {
    pub names: Names,
    pub slots: Slots,
}

/// What a declaration says of its names: the constant that is their initial value is none where there is none.
#[derive(Clone, Copy, Drop)]
struct Kind {
    section: Section,
    ty: Ty,
    init: Option<Known>,
}

// An initial value that isn't given, or is none, is 0.
fn value_or_zero(known: Option<Known>) -> i64
    ensures { result ≡ zero_or known }
{
    match known {
        None => 0,
        Some(known) => known.value,
    }
}

// Notes an initial value of a type that doesn't widen to the declared one.
fn note_misfit(kind: Kind, spot: Spot, first: &mut Option<Fault>)
    ensures { Notes first.old first.new (λ f. (f ≡ fault rule_.Mismatch spot) × Misfit kind.init kind.ty) }
{
    match kind.init {
        None => {}
        Some(known) => {
            if !within(known.ty, kind.ty) {
                note(first, Rule::Mismatch, spot);
            }
        }
    }
}

// The entry of a name; a variable's slot is the next one. From 2^32 slots on there is no room for one.
fn entry_of(alloc: Global, slots: &Slots, kind: Kind, d: &Declared) -> Result<Entry, Memory>
    ensures { IfOk result (λ e. e ≡ record {
      name = d.now.name;
      section = kind.section;
      ty = kind.ty;
      value = zero_or kind.init;
      slot = length slots.now.items.items;
    }) }
{
    match u32::try_from(slots.len()) {
        Ok(slot) => match Text::copy_of(alloc, d.name.bytes()) {
            Ok(name) => Ok(Entry {
                name,
                section: kind.section,
                ty: kind.ty,
                value: value_or_zero(kind.init),
                slot,
            }),
            Err(Memory) => Err(Memory),
        },
        Err(_) => Err(Memory),
    }
}

// Appends the variable that a name declares; a constant has no slot.
fn add_slot(alloc: Global, slots: &mut Slots, kind: Kind, d: &Declared) -> Result<(), Memory>
    ensures { OnOk result (slots.new.items.items ≡ slots_with slots.old.items.items kind.section (declared_tree d.now) kind.ty (zero_or kind.init)) }
{
    if is_constant(kind.section) {
        return Ok(());
    }
    match Text::copy_of(alloc, d.name.bytes()) {
        Ok(name) => slots.push(Slot {
            name,
            spot: d.spot,
            section: kind.section,
            ty: kind.ty,
            init: value_or_zero(kind.init),
        }),
        Err(Memory) => Err(Memory),
    }
}

// Adds a name; of one that is declared before the first declaration counts, and it is noted.
fn add_name(alloc: Global, made: &mut Declarations, kind: Kind, d: &Declared, noted: &mut Noted)
    ensures { UnlessFull noted.old.full noted.new.full
        (Makes noted.old.first noted.new.first (made_by made.new)
        (after_name (made_by made.old) kind.section kind.ty (zero_or kind.init) (declared_tree d.now))
        (λ f. (f ≡ fault rule_.Duplicate d.now.spot) × (is_new (made_by made.old) d.now.name ≡ false))) }
{
    let Ok(entry) = entry_of(alloc, &made.slots, kind, d) else {
        noted.full = true;
        return;
    };
    match made.names.declare(entry) {
        Ok(true) => match add_slot(alloc, &mut made.slots, kind, d) {
            Ok(()) => {}
            Err(Memory) => noted.full = true,
        },
        Ok(false) => note(&mut noted.first, Rule::Duplicate, d.spot),
        Err(Memory) => noted.full = true,
    }
}

// Adds the names of a declaration. Each of them tells an initial value of another type.
fn add_names(
    alloc: Global,
    made: &mut Declarations,
    kind: Kind,
    names: &[Declared],
    noted: &mut Noted,
)
    ensures { UnlessFull noted.old.full noted.new.full
        (MakesNames kind.section kind.ty kind.init (map declared_tree names.now) (made_by made.old) (made_by made.new) noted.old.first noted.new.first) }
{
    'each: for d in names {
        add_name(alloc, made, kind, d, noted);
        note_misfit(kind, d.spot, &mut noted.first);
    }
}

// The constant that an initial value is, where one is given.
fn initial_or_none(
    made: &Declarations,
    init: &Option<Expr>,
    first: &mut Option<Fault>,
) -> Option<Known>
    ensures { JudgesInit (made_by made.now) (expr_tree_or_none init.now) first.old first.new result }
{
    match init {
        None => None,
        Some(e) => initial(&made.names, e, first),
    }
}

// Adds a declaration. Its initial value is judged by what was declared before it.
fn add_declaration(
    alloc: Global,
    made: &mut Declarations,
    section: Section,
    d: &Decl,
    noted: &mut Noted,
)
    ensures { UnlessFull noted.old.full noted.new.full
        (Makes noted.old.first noted.new.first (made_by made.new)
        (after_decl section (made_by made.old) (decl_tree d.now))
        (DeclForm section (made_by made.old) (decl_tree d.now))) }
{
    let init = initial_or_none(made, &d.init, &mut noted.first);
    let kind = Kind {
        section,
        ty: d.ty,
        init,
    };
    add_names(alloc, made, kind, &d.names.items, noted);
}

// Adds the declarations of a block.
fn add_declarations(
    alloc: Global,
    made: &mut Declarations,
    section: Section,
    decls: &[Decl],
    noted: &mut Noted,
)
    ensures { UnlessFull noted.old.full noted.new.full
        (MakesDecls section (map decl_tree decls.now) (made_by made.old) (made_by made.new) noted.old.first noted.new.first) }
{
    'each: for d in decls {
        add_declaration(alloc, made, section, d, noted);
    }
}

// Adds all blocks.
fn add_blocks(alloc: Global, made: &mut Declarations, blocks: &[Block], noted: &mut Noted)
    ensures { UnlessFull noted.old.full noted.new.full
        (MakesBlocks (map block_tree blocks.now) (made_by made.old) (made_by made.new) noted.old.first noted.new.first) }
{
    'each: for b in blocks {
        add_declarations(alloc, made, b.section, &b.decls.items, noted);
    }
}

/// What the blocks of a program declare: their faults are noted, those inside initial values as well. There is no room
/// for more than 2^32 slots.
pub(crate) fn declared(alloc: Global, blocks: &[Block], noted: &mut Noted) -> Declarations
    ensures { UnlessFull noted.old.full noted.new.full
        (MakesAll (map block_tree blocks.now) nothing_made (made_by result) noted.old.first noted.new.first) }
{
    let mut made = Declarations {
        names: Names::new(alloc),
        slots: Slots::new(alloc),
    };
    add_blocks(alloc, &mut made, blocks, noted);
    let whole = Environment {
        alloc,
        names: &made.names,
        held: &[],
    };
    whole.inside_blocks(blocks, noted);
    made
}
