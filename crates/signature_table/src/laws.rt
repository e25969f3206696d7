//! Laws of signatures.

ghost use Rattle.std.specs.Prelude.{◌≡◌, ℕ, ◌<◌, ◌≤◌, ◌+◌, ◌*◌, ◌^◌};
ghost use Rattle.vcp_base.specs.declared.code.Profile.{Profile};
ghost use Rattle.vcp_base.specs.Code.{modulus};
ghost use Rattle.vcp_base.specs.Limits.{most_operations, most_step, most_cycles};
ghost use Rattle.signature_table.specs.Signatures.{signature, expected};

/// The constant of each code is positive and below 2^61. It does nothing: it states a law.
pub fn constants_are_in_range()
    ensures positive { (p : Profile) → 0 < modulus p }
    ensures small { (p : Profile) → modulus p < 2 ^ 61 }
{}

/// In each code distinct operations have distinct signatures. It does nothing: it states a law.
pub fn signatures_are_distinct()
    ensures { (p : Profile) (seed i j : ℕ) → i < most_operations → j < most_operations → signature p seed j ≡ signature p seed i → j ≡ i }
{}

/// Where operation `j` in a cycle and operation `i` in the next one have the same expected residue, `j` is
/// `i + 5 * step`, whatever the seed: so a word of the cycle before can represent a word of this one at no
/// other operation. It does nothing: it states a law.
pub fn a_cycle_later_residues_are_five_steps_apart()
    ensures { (p : Profile) (seed step i j n : ℕ) → step ≤ most_step → i < most_operations → j < most_operations →
        expected p seed step j n ≡ expected p seed step i (n + 1) → j ≡ i + 5 * step }
{}

/// Expected residues are below the constant of their code. It does nothing: it states a law.
pub fn expected_residues_are_residues()
    ensures { (p : Profile) (seed step i n : ℕ) → step ≤ most_step → n < most_cycles → expected p seed step i n < modulus p }
{}
