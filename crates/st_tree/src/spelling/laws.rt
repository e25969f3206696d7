//! Laws of spelling.

ghost use Rattle.std.specs.Prelude.{◌≡◌, [], ◌∷◌, ◌++◌, ◌≤◌, ℕ, List, length, take};
ghost use Rattle.vcp_base.specs.Limits.{most_source_bytes};
ghost use Rattle.st_lexer.specs.Reading.{Reads};
ghost use Rattle.st_lexer.specs.declared.token.Key.{Key};
ghost use Rattle.st_lexer.specs.declared.token.Tok.TheVariants as tok;
ghost use Rattle.st_lexer.specs.declared.token.Token.{Token};
ghost use Rattle.st_tree.specs.Declarable.{HasNames};
ghost use Rattle.st_tree.specs.ProgramTree.{ProgramTree};
ghost use Rattle.st_tree.specs.Placed.{Placed};
ghost use Rattle.st_tree.specs.Programs.{SpellsProgram};
ghost use Rattle.st_tree.specs.Spelling.{Spells, Begins};

/// What tokens spell, but for the bytes of names, depends on the tokens alone: with other bytes they
/// spell a program too, at the same depths. So the tokens of a program begin one, and so do those of
/// every front of tokens that begin one.
pub fn spelling_begins()
    ensures renamed { (b c : Token → List ℕ) (p : ProgramTree) (ps : List Placed) → SpellsProgram b p ps → (q : ProgramTree) × SpellsProgram c q ps }
    ensures program { (p : ProgramTree) (text : List ℕ) (ts : List Token) → Spells p text ts → Begins ts }
    ensures front { (ts us : List Token) → Begins (ts ++ us) → Begins ts }
{}

/// Each name that a program declares is one that may be declared, where the tokens of a source spell
/// the program: a letter or `_`, and then letters, digits and `_`, no longer than the source. So too where the first tokens of a
/// reading and a reserved word spell it, with more bytes behind the text.
pub fn spelled_names_are_declarable()
    ensures names { (p : ProgramTree) (text : List ℕ) (ts : List Token) → Reads text ts → length text ≤ most_source_bytes → Spells p text ts → HasNames p }
    ensures begun { (p : ProgramTree) (text more : List ℕ) (k : ℕ) (ts : List Token) (e : Token) (w : Key) → Reads text ts
        → length (text ++ more) ≤ most_source_bytes → e.tok ≡ tok.Key w → Spells p (text ++ more) (take k ts ++ e ∷ []) → HasNames p }
{}
