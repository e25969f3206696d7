//! Sending.

ghost use Rattle.std.specs.Prelude.{◌≡◌, ◌<◌, ◌≤◌, ◌-◌, ◌^◌, ◌∷◌, [], true};
ghost use Rattle.vcp_base.specs.declared.ty.Ty.TheVariants.{Dint};
ghost use Rattle.vcp_base.specs.Limits.{seeds, most_step, most_cycles};
ghost use Rattle.vcp_base.specs.Types.{fits};
ghost use Rattle.vcp_outside.specs.Counts.{Rose};
ghost use Rattle.coded_unit.specs.declared.call.Answer.TheVariants as answer;
ghost use Rattle.coded_unit.specs.Asked.{Asked};
ghost use Rattle.coded_unit.specs.Log.{GrowsBy, Counts};
ghost use Rattle.coded_unit.specs.Right.{Right};
ghost use Rattle.telegram.specs.Sendings.{most_senders, send_call, telegram_word, IsNoWord};

use coded_unit::{Answer, Call, Unit, Word, words_split_in_one_way};
use signature_table::{expected_residues_are_residues, signature_of, stamp};
use vcp_base::{Kind, Profile, Ty};

/// Has a unit code the value that sender `id` sends in the cycle `number`, and answers the unit's
/// answer: the word of a telegram, unless the unit fails.
///
/// It makes one call. There are 16 senders at most; the seed is below 2^30 and the step 1 to 1000, the
/// number below 1,000,000, and the value a DINT. It takes no memory.
///
/// It is a call of CONST: the operation is the sender, the cycle the number, the correction the sender's
/// signature, the stamp the cycle's, and each operand the zero word. Where the unit's log is known, it grows
/// by that call with its answer. Where the count of wrong answers stays, below its last value, the answer is
/// the word of the value with the residue of the sender and the cycle; it is no word only where the count
/// rose.
pub fn send<U: Unit>(unit: &mut U, id: u32, seed: u32, step: u16, number: u32, value: i64) -> Answer
    requires id { id < most_senders }
    requires seed { seed < seeds }
    requires step_from { 1 ≤ step }
    requires step_to { step ≤ most_step }
    requires number { number < most_cycles }
    requires value { fits Dint value ≡ true }
    ensures log { GrowsBy (U.seen unit.old).log (U.seen unit.new).log ((send_call id seed step number value, result) ∷ []) }
    ensures wrong { Counts result (Right (send_call id seed step number value)) (U.seen unit.old).wrong (U.seen unit.new).wrong }
    ensures honest { (U.seen unit.new).wrong ≡ (U.seen unit.old).wrong → (U.seen unit.old).wrong < 2 ^ 64 - 1
        → result ≡ answer.Word (telegram_word id seed step number value) }
    ensures failed { IsNoWord result → Rose (U.seen unit.old).wrong (U.seen unit.new).wrong }
{
    let call = call_of(id, seed, step, number, value);
    unit.perform(&call)
}

/// The call by which a sender has its value coded.
fn call_of(id: u32, seed: u32, step: u16, number: u32, value: i64) -> Call
    requires step { step ≤ most_step }
    requires number { number < most_cycles }
    requires value { fits Dint value ≡ true }
    ensures call { result ≡ send_call id seed step number value }
    ensures asked { Asked result }
    ensures right { Right (send_call id seed step number value) ≡ answer.Word (telegram_word id seed step number value) }
{
    words_split_in_one_way();
    expected_residues_are_residues();
    Call {
        profile: Profile::Narrow,
        op: id,
        cycle: number,
        kind: Kind::Const,
        from: Ty::Dint,
        ty: Ty::Dint,
        a: Word::ZERO,
        b: Word::ZERO,
        c: Word::ZERO,
        imm: value,
        corr: signature_of(Profile::Narrow, seed, id),
        stamp: stamp(step, number),
    }
}
