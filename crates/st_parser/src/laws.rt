//! Laws of the answers.

ghost use Rattle.std.specs.Prelude.{◌≡◌, ◌≢◌, ◌⊎◌, ℕ, List};
ghost use Rattle.vcp_base.specs.Limits.{most_depth};
ghost use Rattle.vcp_base.specs.declared.spot.Spot.{Spot};
ghost use Rattle.st_lexer.specs.declared.token.Token.{Token};
ghost use Rattle.st_tree.specs.ProgramTree.{ProgramTree};
ghost use Rattle.st_tree.specs.Spelling.{Spells, SpellsWithin};
ghost use Rattle.st_parser.specs.Answers.{NoneTooDeep, Refuses};
ghost use Rattle.st_parser.specs.declared.fault.SyntaxFault.{SyntaxFault};
ghost use Rattle.st_parser.specs.declared.fault.SyntaxFault.TheVariants as fault;

use st_tree::spelling_begins;

/// The laws of the answers. Tokens spell a program within the limit or are refused, never both; they spell
/// one program at most, and are refused in one way. They spell a program within the limit exactly where they
/// spell it and none of them is too deep, whatever program the tokens through it begin. So, but for want of
/// memory, `parse` is exact.
pub fn one_answer()
    ensures some { (text : List ℕ) (ts : List Token) (end : Spot) → ((p : ProgramTree) × SpellsWithin most_depth p text ts)
        ⊎ ((f : SyntaxFault) × (f ≢ fault.Memory) × Refuses text ts end f) }
    ensures either { (p : ProgramTree) (text : List ℕ) (ts : List Token) (end : Spot) (f : SyntaxFault) → SpellsWithin most_depth p text ts
        → Refuses text ts end f → f ≡ fault.Memory }
    ensures program { (p q : ProgramTree) (text : List ℕ) (ts : List Token) → Spells p text ts → Spells q text ts → p ≡ q }
    ensures refused { (text : List ℕ) (ts : List Token) (end : Spot) (f g : SyntaxFault) → f ≢ fault.Memory → g ≢ fault.Memory
        → Refuses text ts end f → Refuses text ts end g → f ≡ g }
    ensures shallow { (p : ProgramTree) (text : List ℕ) (ts : List Token) → SpellsWithin most_depth p text ts → NoneTooDeep ts }
    ensures within { (p : ProgramTree) (text : List ℕ) (ts : List Token) → Spells p text ts → NoneTooDeep ts → SpellsWithin most_depth p text ts }
{
    spelling_begins();
}
