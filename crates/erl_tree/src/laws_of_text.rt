//! Laws of what a text spells.

ghost use Rattle.std.specs.Prelude.{◌≡◌, ◌⊎◌, true, ℕ, List, encode_utf8_all};
ghost use Rattle.std.specs.Str.{all_scalars};
ghost use Rattle.erl_tree.specs.Faults.{FaultKind, IsFaultAt};
ghost use Rattle.erl_tree.specs.Lexis.{SpellsTokens};
ghost use Rattle.erl_tree.specs.Profile.{IsLexed};
ghost use Rattle.erl_tree.specs.declared.token.Place.{Place as Position};
ghost use Rattle.erl_tree.specs.declared.token.Placed.{Placed as Entry};

/// Bytes spell at most one list of tokens.
pub fn one_spelling()
    ensures { (bytes : List ℕ) (ts us : List Entry) → SpellsTokens bytes ts → SpellsTokens bytes us → ts ≡ us }
{}

/// What is lexed is spelled.
pub fn what_is_lexed_is_spelled()
    ensures { (bytes : List ℕ) (tokens : List Entry) → IsLexed bytes tokens → SpellsTokens bytes tokens }
{}

/// Each text has an answer: a list of tokens, or a first fault with its place.
pub fn each_text_has_an_answer()
    ensures { (text : List ℕ) → all_scalars text ≡ true
        → ((tokens : List Entry) × IsLexed (encode_utf8_all text) tokens) ⊎ ((p : Position) × (f : FaultKind) × IsFaultAt text p f) }
{}

/// A text has one answer at most: one list of tokens, or one first fault with its place.
pub fn one_answer()
    ensures one_list { (bytes : List ℕ) (ts us : List Entry) → IsLexed bytes ts → IsLexed bytes us → ts ≡ us }
    ensures list_or_fault { (text : List ℕ) (tokens : List Entry) (p : Position) (f : FaultKind) → IsLexed (encode_utf8_all text) tokens → IsFaultAt text p f → ⊥ }
    ensures one_fault { (text : List ℕ) (p q : Position) (f g : FaultKind) → IsFaultAt text p f → IsFaultAt text q g → (p ≡ q) × (f ≡ g) }
{}
