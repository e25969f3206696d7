//! The inputs, outputs, cells and turn nodes of an image, one at a time.

ghost use Rattle.std.specs.Prelude.{◌≡◌, ◌<◌, ◌&&◌, ◌-◌, ◌^◌, nat_lt, length, true, slice_get};
ghost use Rattle.image_file.specs.Fields.{number};
ghost use Rattle.image_file.specs.Entries.{above as above_of, number_of, input_piece, output_piece, cell_piece, turn_piece};
ghost use Rattle.image_file.specs.Readings.{Takes};

use crate::fields::fault::FieldFault;
use crate::fields::reading::Reader;
use op_graph::{Cell, Outlet, TurnNode, Var};
use vcp_base::Profile;

/// Whether a number is above the last one.
fn above(last: Option<u32>, n: u32) -> bool
    ensures { result ≡ above_of last n }
{
    match last {
        None => true,
        Some(m) => m < n,
    }
}

/// The name of the last input.
fn last_input(before: &[Var]) -> Option<u32>
    ensures { result ≡ number_of (λ w. w.name) (slice_get before.now (length before.now - 1)) }
{
    match before.last() {
        None => None,
        Some(w) => Some(w.name),
    }
}

/// The name of the last output.
fn last_output(before: &[Outlet]) -> Option<u32>
    ensures { result ≡ number_of (λ w. w.name) (slice_get before.now (length before.now - 1)) }
{
    match before.last() {
        None => None,
        Some(w) => Some(w.name),
    }
}

/// The operation of the last output.
fn last_output_op(before: &[Outlet]) -> Option<u32>
    ensures { result ≡ number_of (λ w. w.op) (slice_get before.now (length before.now - 1)) }
{
    match before.last() {
        None => None,
        Some(w) => Some(w.op),
    }
}

/// The LOAD of the last cell.
fn last_load(before: &[Cell]) -> Option<u32>
    ensures { result ≡ number_of (λ w. w.load) (slice_get before.now (length before.now - 1)) }
{
    match before.last() {
        None => None,
        Some(w) => Some(w.load),
    }
}

/// The STORE of the last cell.
fn last_store(before: &[Cell]) -> Option<u32>
    ensures { result ≡ number_of (λ w. w.store) (slice_get before.now (length before.now - 1)) }
{
    match before.last() {
        None => None,
        Some(w) => Some(w.store),
    }
}

/// Whether a number is below a limit and above the last one.
fn is_rising(last: Option<u32>, limit: u32, n: u32) -> bool
    ensures { result ≡ (nat_lt n limit && above_of last n) }
{
    n < limit && above(last, n)
}

/// The same of a STORE, which is also above its cell's LOAD.
fn is_rising_store(load: u32, last: Option<u32>, limit: u32, n: u32) -> bool
    ensures { result ≡ (nat_lt load n && nat_lt n limit && above_of last n) }
{
    load < n && n < limit && above(last, n)
}

/// A number below a limit and above the last one; another one is `Field`.
fn rising(bytes: &mut Reader<'_>, limit: u32, last: Option<u32>) -> u32
    ensures { Takes bytes.old bytes.new (number (λ n. nat_lt n limit && above_of last n)).read result }
{
    let left = bytes.left.len();
    let n = bytes.read_u32();
    bytes.check(is_rising(last, limit, n), FieldFault::Field { left });
    n
}

/// The STORE of a cell after its LOAD: a number below a limit and above the last one.
fn store_after(bytes: &mut Reader<'_>, load: u32, limit: u32, last: Option<u32>) -> u32
    ensures { Takes bytes.old bytes.new (number (λ n. nat_lt load n && nat_lt n limit && above_of last n)).read result }
{
    let left = bytes.left.len();
    let n = bytes.read_u32();
    bytes.check(
        is_rising_store(load, last, limit, n),
        FieldFault::Field { left },
    );
    n
}

/// The next input, after others: its name is there and above theirs, and its type is of the code.
pub fn input_of(profile: Profile, names: u32, before: &[Var], bytes: &mut Reader<'_>) -> Var
    ensures { Takes bytes.old bytes.new (input_piece profile names before.now).read result }
{
    let name = rising(bytes, names, last_input(before));
    let ty = bytes.any_ty(profile);
    Var { name, ty }
}

/// The next output, after others: its name and its operation are there and above theirs, and its type is of the code.
pub fn output_of(
    profile: Profile,
    names: u32,
    operations: u32,
    before: &[Outlet],
    bytes: &mut Reader<'_>,
) -> Outlet
    ensures { Takes bytes.old bytes.new (output_piece profile names operations before.now).read result }
{
    let name = rising(bytes, names, last_output(before));
    let ty = bytes.any_ty(profile);
    let op = rising(bytes, operations, last_output_op(before));
    Outlet { name, ty, op }
}

/// The next cell, after others: its name is there, its type is of the code, its initial value is in its type,
/// and its LOAD and its STORE, which comes later, are there and above theirs.
pub fn cell_of(
    profile: Profile,
    names: u32,
    operations: u32,
    before: &[Cell],
    bytes: &mut Reader<'_>,
) -> Cell
    ensures { Takes bytes.old bytes.new (cell_piece profile names operations before.now).read result }
{
    let name = bytes.below(names);
    let ty = bytes.any_ty(profile);
    let init = bytes.value(ty);
    let load = rising(bytes, operations, last_load(before));
    let store = store_after(bytes, load, operations, last_store(before));
    Cell {
        name,
        ty,
        init,
        load,
        store,
    }
}

/// The next turn node, after others: its parent, counted from 1, is one of them, or 0 for none.
pub fn turn_of(names: u32, before: &[TurnNode], bytes: &mut Reader<'_>) -> TurnNode
    requires { length before.now < 2 ^ 32 }
    ensures { Takes bytes.old bytes.new (turn_piece names before.now).read result }
{
    let parent = bytes.at_most(before.len() as u32);
    let name = bytes.below(names);
    let value = bytes.any_value();
    TurnNode {
        parent,
        name,
        value,
    }
}
