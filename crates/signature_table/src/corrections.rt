//! Corrections.

ghost use Rattle.std.specs.Prelude.{◌≡◌, ◌<◌, ◌≤◌, pos, ◌*ℤ◌, ◌-ℤ◌};
ghost use Rattle.vcp_base.specs.Code.{modulus};
ghost use Rattle.vcp_base.specs.Kinds.{multiplier as multiplier_of};
ghost use Rattle.vcp_base.specs.Limits.{most_step};
ghost use Rattle.coded_unit.specs.Words.{Small as Moderate};
ghost use Rattle.signature_table.specs.Signatures.{IsReadSignature, stored_signature as stored_signature_of, read_signature as read_signature_of};
ghost use Rattle.signature_table.specs.Signatures.{correction as correction_of};

use crate::signatures::signature_of;
use coded_unit::remainder;
use op_graph::Op;
use vcp_base::{Kind, Profile, Residue, multiplier};

/// The correction of operation `k`, which is `op`, in a code with a seed and a step. It is below the
/// constant of the code.
///
/// `store` is the number of the STORE of the cell that a LOAD reads; no other kind reads it. `None`
/// says that there is no such cell, and counts as the signature 0.
pub fn correction(
    profile: Profile,
    seed: u32,
    step: u16,
    k: u32,
    op: &Op,
    store: Option<u32>,
) -> Residue
    requires { step ≤ most_step }
    ensures value { result ≡ correction_of profile seed step k op.now store }
    ensures below { result < modulus profile }
{
    let first = weighed(
        op.kind,
        0,
        read_signature(profile, seed, step, store, op.kind, op.a),
    );
    let second = weighed(
        op.kind,
        1,
        read_signature(profile, seed, step, store, op.kind, op.b),
    );
    let third = weighed(
        op.kind,
        2,
        read_signature(profile, seed, step, store, op.kind, op.c),
    );
    let own = signature_of(profile, seed, k);
    remainder(profile, taken_out(own, first, second, third))
}

/// The signature of an operand that reads operation `n`; of a LOAD's, that of the STORE of its cell, less the step. It is 2^60 at most,
/// and -1000 at least.
pub fn read_signature(
    profile: Profile,
    seed: u32,
    step: u16,
    store: Option<u32>,
    kind: Kind,
    n: u32,
) -> i64
    requires { step ≤ most_step }
    ensures value { result ≡ read_signature_of profile seed step store kind n }
    ensures range { IsReadSignature result }
{
    match kind {
        Kind::Load => stored_signature(profile, seed, step, store),
        _ => signature_of(profile, seed, n) as i64,
    }
}

/// The signature of what the LOAD of a cell reads: that of its STORE, less the step.
fn stored_signature(profile: Profile, seed: u32, step: u16, store: Option<u32>) -> i64
    requires { step ≤ most_step }
    ensures value { result ≡ stored_signature_of profile seed step store }
    ensures range { IsReadSignature result }
{
    match store {
        Some(n) => signature_of(profile, seed, n) as i64 - step as i64,
        None => 0,
    }
}

/// The signature of an operand of a kind of operation, counted from 0, weighed by its multiplier.
fn weighed(kind: Kind, operand: u32, signature: i64) -> i128
    requires { IsReadSignature signature }
    ensures value { result ≡ multiplier_of kind operand *ℤ signature }
    ensures fits { Moderate result }
{
    multiplier(kind, operand) as i128 * signature as i128
}

/// A signature, with three others taken out of it.
fn taken_out(signature: Residue, first: i128, second: i128, third: i128) -> i128
    requires first { Moderate first }
    requires second { Moderate second }
    requires third { Moderate third }
    ensures { result ≡ pos signature -ℤ first -ℤ second -ℤ third }
{
    signature as i128 - first - second - third
}
