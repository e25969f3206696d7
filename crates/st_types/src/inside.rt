//! The faults inside initial values, which hold names of the whole program.

ghost use Rattle.std.specs.Prelude.{map};
ghost use Rattle.st_tree.specs.ExprViews.{expr_tree, expr_tree_or_none};
ghost use Rattle.st_tree.specs.ProgramViews.{block_tree, decl_tree};
ghost use Rattle.st_types.specs.DeclSteps.{BlocksInside, DeclsInside, InitInside};
ghost use Rattle.st_types.specs.Notes.{Notes};
ghost use Rattle.st_types.specs.Full.{UnlessFull};

use crate::environment::Environment;
use crate::note::Noted;
use crate::refusals::discard_some;
use st_tree::{Block, Decl, Expr};

impl Environment<'_> {
    // Notes the faults inside an initial value, where one is given.
    fn inside_init(&self, init: &Option<Expr>, noted: &mut Noted)
        ensures { UnlessFull noted.old.full noted.new.full
            (Notes noted.old.first noted.new.first (InitInside self.now.names.now (expr_tree_or_none init.now))) }
    {
        match init {
            None => {}
            Some(e) => discard_some(self.type_expression(e, noted)),
        }
    }

    // The same of the declarations of a block.
    fn inside_declarations(&self, decls: &[Decl], noted: &mut Noted)
        ensures { UnlessFull noted.old.full noted.new.full
            (Notes noted.old.first noted.new.first (DeclsInside self.now.names.now (map decl_tree decls.now))) }
    {
        'each: for d in decls {
            self.inside_init(&d.init, noted);
        }
    }

    /// Notes the faults inside the initial values: `names` are all of the program.
    pub(crate) fn inside_blocks(&self, blocks: &[Block], noted: &mut Noted)
        ensures { UnlessFull noted.old.full noted.new.full
            (Notes noted.old.first noted.new.first (BlocksInside self.now.names.now (map block_tree blocks.now))) }
    {
        'each: for b in blocks {
            self.inside_declarations(&b.decls.items, noted);
        }
    }
}
