//! The operations of an image.

ghost use Rattle.std.specs.Prelude.{◌≡◌, ◌≤◌, length, None, unsigned_abs};
ghost use Rattle.vcp_base.specs.Limits.{most_step, most_operations};
ghost use Rattle.op_graph.specs.Rules.{entry_of as entry_of_place, kind_fits as kind_fits_of, from_fits as from_fits_of, ty_fits as ty_fits_of};
ghost use Rattle.op_graph.specs.Rules.{operand_fits as operand_fits_of, reads_as as reads_as_of, imm_fits as imm_fits_of, turn_fits as turn_fits_of};
ghost use Rattle.signature_table.specs.Signatures.{store_of as store_of_cell};
ghost use Rattle.image_file.specs.Pieces.{listed};
ghost use Rattle.image_file.specs.Fields.{kind_field, type_field, signed, number, operand};
ghost use Rattle.image_file.specs.Image.{corrected, correction_of, op_by, op_piece};
ghost use Rattle.image_file.specs.Readings.{Takes};
ghost use Rattle.image_file.specs.Views.{scope_of, said_of, Rising};

use crate::fields::{FieldFault, Reader};
use crate::scope::Scope;
use crate::walk::Walk;
use op_graph::{
    Cell, Op, Place, entry_of, from_fits, imm_fits, kind_fits, operand_fits, reads_as, turn_fits,
    ty_fits,
};
use signature_table::correction;
use std::alloc::Global;
use vcp_base::{Kind, Profile, Residue, Spot, Ty};

/// The kind at the front, one that the place may have.
fn kind_here(p: &Place, bytes: &mut Reader<'_>) -> Kind
    ensures { Takes bytes.old bytes.new (kind_field (kind_fits_of p.now)).read result }
{
    let left = bytes.left.len();
    let kind = bytes.any_kind();
    bytes.check(kind_fits(p, kind), FieldFault::Field { left });
    kind
}

/// The type of the operands at the front.
fn from_here(profile: Profile, p: &Place, kind: Kind, bytes: &mut Reader<'_>) -> Ty
    ensures { Takes bytes.old bytes.new (type_field profile (from_fits_of (entry_of_place p.now kind) kind)).read result }
{
    let left = bytes.left.len();
    let ty = bytes.any_ty(profile);
    bytes.check(
        from_fits(entry_of(p, kind), kind, ty),
        FieldFault::Field { left },
    );
    ty
}

/// The type of the result at the front.
fn ty_here(profile: Profile, kind: Kind, from: Ty, bytes: &mut Reader<'_>) -> Ty
    ensures { Takes bytes.old bytes.new (type_field profile (ty_fits_of kind from)).read result }
{
    let left = bytes.left.len();
    let ty = bytes.any_ty(profile);
    bytes.check(ty_fits(kind, from, ty), FieldFault::Field { left });
    ty
}

/// Operand `j` at the front, counted from 0.
fn operand_here(earlier: &[Op], kind: Kind, from: Ty, j: u32, bytes: &mut Reader<'_>) -> u32
    ensures { Takes bytes.old bytes.new (operand (operand_fits_of earlier.now (reads_as_of kind from j))).read result }
{
    let left = bytes.left.len();
    let n = bytes.read_u32();
    bytes.check(
        operand_fits(earlier, reads_as(kind, from, j), n),
        FieldFault::Operand { left },
    );
    n
}

/// The operation's own number at the front.
fn imm_here(p: &Place, kind: Kind, to: Ty, bytes: &mut Reader<'_>) -> i64
    ensures { Takes bytes.old bytes.new (signed (imm_fits_of (entry_of_place p.now kind) kind to)).read result }
{
    let left = bytes.left.len();
    let imm = bytes.any_value();
    bytes.check(
        imm_fits(entry_of(p, kind), kind, to, imm),
        FieldFault::Field { left },
    );
    imm
}

/// The turn at the front.
fn turn_here(p: &Place, kind: Kind, turn_nodes: u32, bytes: &mut Reader<'_>) -> u32
    ensures { Takes bytes.old bytes.new (number (turn_fits_of (entry_of_place p.now kind) turn_nodes)).read result }
{
    let left = bytes.left.len();
    let n = bytes.read_u32();
    bytes.check(
        turn_fits(entry_of(p, kind), turn_nodes, n),
        FieldFault::Field { left },
    );
    n
}

/// The number of the STORE of the cell that an operation's own number names, where it is there.
fn store_read(cells: &[Cell], imm: i64) -> Option<u32>
    ensures { result ≡ store_of_cell cells.now (unsigned_abs imm) }
{
    let k = imm.unsigned_abs();
    if k >= cells.len() as u64 {
        return None;
    }
    Some(cells[k as usize].store)
}

/// The correction that an operation after others has.
fn expected(s: &Scope<'_>, earlier: &[Op], op: &Op) -> Residue
    requires step { s.now.step ≤ most_step }
    requires few { length earlier.now ≤ most_operations }
    ensures { result ≡ correction_of (said_of s.now) earlier.now op.now }
{
    correction(
        s.profile,
        s.seed,
        s.step,
        earlier.len() as u32,
        op,
        store_read(s.cells, op.imm),
    )
}

/// The correction of an operation after others, which must be at the front.
fn correction_here(s: &Scope<'_>, earlier: &[Op], op: &Op, bytes: &mut Reader<'_>)
    requires step { s.now.step ≤ most_step }
    requires few { length earlier.now ≤ most_operations }
    ensures { Takes bytes.old bytes.new (corrected (said_of s.now) earlier.now op.now).read op.now }
{
    let expected = expected(s, earlier, op);
    let left = bytes.left.len();
    let stored = bytes.read_residue(s.profile);
    bytes.check(
        stored == expected,
        FieldFault::Table {
            left,
            stored,
            expected,
        },
    );
}

/// The operation at the front, after others, which is this by the other lists.
fn op_of(s: &Scope<'_>, p: &Place, earlier: &[Op], bytes: &mut Reader<'_>) -> Op
    requires step { s.now.step ≤ most_step }
    requires few { length earlier.now ≤ most_operations }
    ensures { Takes bytes.old bytes.new (op_by p.now (said_of s.now) earlier.now).read result }
{
    let kind = kind_here(p, bytes);
    let from = from_here(s.profile, p, kind, bytes);
    let ty = ty_here(s.profile, kind, from, bytes);
    let a = operand_here(earlier, kind, from, 0, bytes);
    let b = operand_here(earlier, kind, from, 1, bytes);
    let c = operand_here(earlier, kind, from, 2, bytes);
    let imm = imm_here(p, kind, ty, bytes);
    let line = bytes.read_u32();
    let col = bytes.read_u32();
    let turn = turn_here(p, kind, s.turn_nodes, bytes);
    let op = Op {
        kind,
        from,
        ty,
        a,
        b,
        c,
        imm,
        spot: Spot { line, col },
        turn,
    };
    correction_here(s, earlier, &op, bytes);
    op
}

/// That many operations.
pub(crate) fn operations_of(
    alloc: Global,
    s: &Scope<'_>,
    count: u32,
    bytes: &mut Reader<'_>,
) -> Vec<Op>
    requires step { s.now.step ≤ most_step }
    requires few { count ≤ most_operations }
    requires rising { bytes.old.fault ≡ None → Rising (scope_of s.now) }
    ensures { Takes bytes.old bytes.new (listed count (op_piece (said_of s.now))).read result.items }
{
    let mut found: Vec<Op> = Vec::new(alloc);
    let mut walk = Walk::new(s);
    'entries: for i in 0..count {
        if bytes.fault.is_some() {
            return found;
        }
        let place = walk.place(s, i);
        let entry = op_of(s, &place, &found, bytes);
        bytes.push(&mut found, entry);
    }
    found
}
