//! The head of an image.

ghost use Rattle.std.specs.Prelude.{◌≡◌, ◌≤◌, ◌&&◌, ℕ, List, nat_le, Result};
ghost use Rattle.image_file.specs.declared.fields.fault.FieldFault.{FieldFault as Fault};
ghost use Rattle.image_file.specs.declared.fields.fault.FieldFault.TheVariants as fault;
ghost use Rattle.image_file.specs.Fields.{number16, version_field, behind};
ghost use Rattle.image_file.specs.Image.{Head, head_piece};
ghost use Rattle.image_file.specs.Codes.{version_of};
ghost use Rattle.image_file.specs.Readings.{GoesOn, Takes};
ghost use Rattle.vcp_base.specs.Limits.{most_step, most_operations, most_turn_nodes};
ghost use Rattle.image_file.specs.Views.{head as head_of};

use crate::fields::{FieldFault, ReadError, Reader};
use vcp_base::{
    MOST_CELLS, MOST_NAMES, MOST_OPERATIONS, MOST_STEP, MOST_TURN_NODES, Profile, SEEDS,
};

/// The numbers in front.
#[derive(Clone, Copy)]
pub(crate) struct Counts {
    pub(crate) profile: Profile,
    pub(crate) step: u16,
    pub(crate) seed: u32,
    pub(crate) names: u32,
    pub(crate) inputs: u32,
    pub(crate) outputs: u32,
    pub(crate) cells: u32,
    pub(crate) turn_nodes: u32,
    pub(crate) operations: u32,
}

/// These bytes of the magic.
fn magic_here(wanted: &[u8], bytes: &mut Reader<'_>)
    ensures { (next : List ℕ → Result (Head × List ℕ) Fault) →
        GoesOn bytes.old.fault bytes.new.fault (behind wanted.now next bytes.old.left.now) (next bytes.new.left.now) }
{
    'wanted: for i in 0..wanted.len() {
        let left = bytes.left.len();
        let n = bytes.read_u8();
        bytes.check(n == wanted[i], FieldFault::Magic { left });
    }
}

/// The code of a version.
fn profile_named(n: u16) -> Option<Profile>
    ensures { result ≡ version_of n }
{
    match n {
        1 => Some(Profile::Narrow),
        2 => Some(Profile::Wide),
        _ => None,
    }
}

/// The version at the front, as the code that it means.
fn version_here(bytes: &mut Reader<'_>) -> Profile
    ensures { Takes bytes.old bytes.new version_field.read result }
{
    let left = bytes.left.len();
    let n = bytes.read_u16();
    match profile_named(n) {
        Some(profile) => profile,
        None => {
            bytes.refuse(ReadError::FieldFault(FieldFault::Version { left }));
            Profile::Narrow
        }
    }
}

/// The step at the front, 1 to 1000.
fn step_here(bytes: &mut Reader<'_>) -> u16
    ensures is { Takes bytes.old bytes.new (number16 (λ n. nat_le 1 n && nat_le n most_step) (λ left n. fault.Field left)).read result }
    ensures to { result ≤ most_step }
{
    let left = bytes.left.len();
    let n = bytes.read_u16();
    if 1 <= n && n <= MOST_STEP {
        n
    } else {
        bytes.refuse(ReadError::FieldFault(FieldFault::Field { left }));
        1
    }
}

/// The head at the front.
pub(crate) fn head_here(bytes: &mut Reader<'_>) -> Counts
    ensures is { Takes bytes.old bytes.new head_piece.read (head_of result) }
    ensures below { (result.step ≤ most_step) × (result.turn_nodes ≤ most_turn_nodes) × (result.operations ≤ most_operations) }
{
    magic_here(b"VCPANBD\n", bytes);
    let profile = version_here(bytes);
    let step = step_here(bytes);
    let seed = bytes.below(SEEDS);
    let names = bytes.at_most(MOST_NAMES);
    let inputs = bytes.at_most(MOST_NAMES);
    let outputs = bytes.at_most(MOST_NAMES);
    let cells = bytes.at_most(MOST_CELLS);
    let turn_nodes = bytes.at_most(MOST_TURN_NODES);
    let operations = bytes.between(inputs + outputs + 2 * cells, MOST_OPERATIONS);
    Counts {
        profile,
        step,
        seed,
        names,
        inputs,
        outputs,
        cells,
        turn_nodes,
        operations,
    }
}
