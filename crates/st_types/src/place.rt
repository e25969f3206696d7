//! Places of declared names.

ghost use Rattle.std.specs.Prelude.{◌≤◌, IfErr, IfNone, IfOk, IfSome, length, map};
ghost use Rattle.st_tree.specs.ProgramViews.{block_tree, decl_tree};
ghost use Rattle.st_types.specs.Places.{IsAfter, IsAmong, IsAt, block_names, decl_names};

use st_tree::{Block, Decl};
use vcp_base::Spot;

// The spot of the name at place `n`, or the place after the names of these declarations.
fn in_declarations(decls: &[Decl], n: usize) -> Result<Spot, usize>
    ensures ok { IfOk result (IsAmong (decl_names (map decl_tree decls.now)) n) }
    ensures err { IfErr result (IsAfter (decl_names (map decl_tree decls.now)) n) }
{
    let mut left = n;
    'each: for d in decls {
        let count = d.names.len();
        if left < count {
            return Ok(d.names.at(left).spot);
        }
        left -= count;
    }
    Err(left)
}

/// The spot of the name at place `n`, counted from 0; none where so many aren't declared.
pub(crate) fn name_at(blocks: &[Block], n: usize) -> Option<Spot>
    ensures some { IfSome result (IsAt (block_names (map block_tree blocks.now)) n) }
    ensures none { IfNone result (length (block_names (map block_tree blocks.now)) ≤ n) }
{
    let mut left = n;
    'each: for b in blocks {
        match in_declarations(&b.decls.items, left) {
            Ok(spot) => return Some(spot),
            Err(rest) => left = rest,
        }
    }
    None
}
