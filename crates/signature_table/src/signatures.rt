//! Signatures and stamps.

ghost use Rattle.std.specs.Prelude.{◌≡◌, ◌<◌, ◌≤◌, ◌^◌};
ghost use Rattle.vcp_base.specs.Code.{modulus};
ghost use Rattle.vcp_base.specs.Limits.{most_step, most_cycles, most_stamp};
ghost use Rattle.signature_table.specs.Signatures.{signatures, signature, stamp as stamp_value, expected as expected_value};

use vcp_base::{Profile, Residue};

/// The signature of operation `i` for a seed: below 2^30 in the narrow code, and below 2^60 in the wide
/// one. Each operation of a graph has its own, as `signatures_are_distinct` says.
#[tactic(auto, unfolding(crate::specs::Signatures::signature))]
pub fn signature_of(profile: Profile, seed: u32, i: u32) -> Residue
    ensures value { result ≡ signature profile seed i }
    ensures below { result < signatures profile }
    ensures small { result < 2 ^ 60 }
{
    match profile {
        Profile::Narrow => (seed as u64 + 214748365 * i as u64) % (1 << 30),
        Profile::Wide => ((seed as u128 + 922337203685477581 * i as u128) % (1 << 60)) as Residue,
    }
}

/// The stamp of a cycle, counted from 0 and below 1,000,000: the step, which is at most 1000, as often as
/// cycles have begun. It is at most 1,000,000,000.
pub fn stamp(step: u16, cycle: u32) -> u32
    requires step { step ≤ most_step }
    requires cycle { cycle < most_cycles }
    ensures value { result ≡ stamp_value step cycle }
    ensures below { result ≤ most_stamp }
{
    step as u32 * (cycle + 1)
}

/// The residue that the word of operation `i` has in a cycle, counted from 0 and below 1,000,000, where
/// nothing is amiss: the operation's signature and the cycle's stamp. The step is at most 1000.
pub fn expected(profile: Profile, seed: u32, step: u16, i: u32, cycle: u32) -> Residue
    requires step { step ≤ most_step }
    requires cycle { cycle < most_cycles }
    ensures value { result ≡ expected_value profile seed step i cycle }
    ensures below { result < modulus profile }
{
    signature_of(profile, seed, i) + stamp(step, cycle) as Residue
}
