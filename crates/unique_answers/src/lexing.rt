//! What `lex` of `erl_lexer` answers.

ghost use Rattle.std.specs.Prelude.{◌≡◌, ◌≢◌, ℕ, List};
ghost use Rattle.erl_tree.specs.Profile.{IsLexed};
ghost use Rattle.erl_tree.specs.declared.token.Placed.{Placed};
ghost use Rattle.erl_lexer.specs.Faults.{IsFault};
ghost use Rattle.erl_lexer.specs.declared.LexFault.{LexFault};
ghost use Rattle.erl_lexer.specs.declared.LexFault.TheVariants.{NoMemory};

/// Bytes spell one list of tokens, or have one first fault.
pub fn tokens_or_one_fault()
    ensures one_list { (bytes : List ℕ) (ts us : List Placed) → IsLexed bytes ts → IsLexed bytes us → ts ≡ us }
    ensures one_fault { (bytes : List ℕ) (f g : LexFault) → IsFault bytes f → IsFault bytes g → f ≢ NoMemory → g ≢ NoMemory → f ≡ g }
    ensures never_both { (bytes : List ℕ) (tokens : List Placed) (f : LexFault) → IsLexed bytes tokens → IsFault bytes f → f ≡ NoMemory }
{}
