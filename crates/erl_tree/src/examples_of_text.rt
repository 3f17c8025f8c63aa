//! Small texts, and what they spell: the definitions hold of something, and not of everything.

ghost use Rattle.std.specs.Prelude.{◌≡◌, ◌∷◌, [], List, Some, None, codes, pos};
ghost use Rattle.erl_tree.specs.Faults.{IsFaultAt, outside, wide, escape, no_token};
ghost use Rattle.erl_tree.specs.Lexis.{IsLongest, SpellsTokens, token_of};
ghost use Rattle.erl_tree.specs.Profile.{IsLexed, bad_escape, outside_form};
ghost use Rattle.erl_tree.specs.declared.token.Placed.{Placed as Entry};
ghost use Rattle.erl_tree.specs.declared.token.Token.TheVariants.{
  Atom,
  Var,
  Int,
  Char,
  Str,
  Word,
  Mark,
  Dot,
};
ghost use Rattle.erl_tree.specs.SmallText.{
  place,
  small_text,
  small_tokens,
  text_with_a_string,
  tokens_with_a_string,
};

/// The text `-module(a).` spells seven tokens, the end of the text among them, each at its place.
pub fn a_text_that_is_spelled()
    ensures { SpellsTokens small_text small_tokens }
{}

/// The text `$` spells no tokens, since a character has to follow the dollar sign.
pub fn a_text_that_is_not_spelled()
    ensures { (tokens : List Entry) → SpellsTokens (codes "$") tokens → ⊥ }
{}

/// Names: an atom, a reserved word, a variable and the wildcard.
pub fn names_of_texts()
    ensures atom { token_of (codes "ab@1") (codes "(X)") ≡ Some (Atom (codes "ab@1")) }
    ensures word { token_of (codes "case") (codes " X of") ≡ Some (Word (codes "case")) }
    ensures variable { token_of (codes "X_1") [] ≡ Some (Var (codes "X_1")) }
    ensures wildcard { token_of (codes "_") [] ≡ Some (Var (codes "_")) }
{}

/// Integers have single underscores between digits, and a base from 2 to 36.
pub fn integers_of_texts()
    ensures decimal { token_of (codes "12") [] ≡ Some (Int (pos 12)) }
    ensures grouped { token_of (codes "1_000") [] ≡ Some (Int (pos 1000)) }
    ensures based { token_of (codes "16#fF") [] ≡ Some (Int (pos 255)) }
    ensures grouped_and_based { token_of (codes "2#1_01") [] ≡ Some (Int (pos 5)) }
    ensures two_underscores { token_of (codes "1__0") [] ≡ None }
    ensures underscore_last { token_of (codes "1_") [] ≡ None }
    ensures base_too_large { token_of (codes "37#1") [] ≡ None }
    ensures digit_too_large { token_of (codes "2#12") [] ≡ None }
{}

/// A character is the one that follows `$`, or that its escape stands for.
pub fn characters_of_texts()
    ensures letter { token_of (codes "$a") [] ≡ Some (Char 97) }
    ensures line_feed { token_of (codes "$\\n") [] ≡ Some (Char 10) }
    ensures backslash { token_of (codes "$\\\\") [] ≡ Some (Char 92) }
    ensures quote { token_of (codes "$'") [] ≡ Some (Char 39) }
    ensures none { token_of (codes "$") [] ≡ None }
    ensures bad_escape { token_of (codes "$\\q") [] ≡ None }
{}

/// Quoted atoms and strings hold the UTF-8 of what stands between the quotes.
pub fn quoted_texts()
    ensures atom { token_of (codes "'a b'") [] ≡ Some (Atom (codes "a b")) }
    ensures string { token_of (codes "\"a\\tb\"") [] ≡ Some (Str (97 ∷ 9 ∷ 98 ∷ [])) }
    ensures quote { token_of (codes "'\\''") [] ≡ Some (Atom (codes "'")) }
    ensures empty { token_of (codes "''") [] ≡ Some (Atom []) }
    ensures reserved { token_of (codes "'case'") [] ≡ Some (Atom (codes "case")) }
    ensures two_bytes { token_of (39 ∷ 233 ∷ 39 ∷ []) [] ≡ Some (Atom (195 ∷ 169 ∷ [])) }
    ensures cut { token_of (codes "'a") [] ≡ None }
    ensures closed_early { token_of (codes "'a'b'") [] ≡ None }
    ensures bad_escape { token_of (codes "'\\q'") [] ≡ None }
{}

/// Punctuation: a dot ends a form before white space, a comment or the end of the text, and is a mark
/// elsewhere.
pub fn marks_of_texts()
    ensures arrow { token_of (codes "->") (codes "a") ≡ Some (Mark (codes "->")) }
    ensures dot_at_the_end { token_of (codes ".") [] ≡ Some Dot }
    ensures dot_before_a_space { token_of (codes ".") (codes " a") ≡ Some Dot }
    ensures dot_before_a_comment { token_of (codes ".") (codes "%a") ≡ Some Dot }
    ensures dot_before_a_letter { token_of (codes ".") (codes "a") ≡ Some (Mark (codes ".")) }
    ensures none { token_of (codes "->>") [] ≡ None }
{}

/// `=:=1` begins with the text `=:=`, and not with `=` and then `:=`.
pub fn the_longest_text_counts()
    ensures longest { IsLongest (codes "=:=") (codes "1") }
    ensures whole { token_of (codes "=:=") (codes "1") ≡ Some (Mark (codes "=:=")) }
    ensures front { token_of (codes "=") (codes ":=1") ≡ Some (Mark (codes "=")) }
    ensures shorter { IsLongest (codes "=") (codes ":=1") → ⊥ }
{}

/// Forms outside of the profile, and texts that only look like one.
pub fn forms_outside()
    ensures float { outside_form (codes "1.5") ≡ Some (codes "float") }
    ensures grouped_float { outside_form (codes "1_0.5") ≡ Some (codes "float") }
    ensures range { outside_form (codes "1..2") ≡ None }
    ensures integer_and_dot { outside_form (codes "1.") ≡ None }
    ensures macro_use { outside_form (codes "?M") ≡ Some (codes "macro") }
    ensures binary { outside_form (codes "<<1>>") ≡ Some (codes "binary") }
    ensures generator { outside_form (codes "<-") ≡ None }
    ensures send { outside_form (codes "!") ≡ Some (codes "send") }
    ensures list_difference { outside_form (codes "--") ≡ Some (codes "list difference") }
    ensures arrow { outside_form (codes "->") ≡ None }
    ensures triple { outside_form (codes "\"\"\"") ≡ Some (codes "triple-quoted string") }
    ensures empty_string { outside_form (codes "\"\"") ≡ None }
    ensures sigil { outside_form (codes "~s") ≡ Some (codes "sigil") }
    ensures name { outside_form (233 ∷ []) ≡ Some (codes "non-ASCII name") }
    ensures strict { outside_form (codes "<:-") ≡ Some (codes "strict generator") }
{}

/// How many characters stand before a backslash that heads no escape.
pub fn bad_escapes()
    ensures quoted { bad_escape (codes "'\\q'") ≡ Some 1 }
    ensures second { bad_escape (codes "\"a\\n\\q") ≡ Some 4 }
    ensures character { bad_escape (codes "$\\q") ≡ Some 1 }
    ensures last { bad_escape (codes "'\\") ≡ Some 1 }
    ensures good { bad_escape (codes "\"a\\\\\"") ≡ None }
    ensures behind { bad_escape (codes "'a'\\q") ≡ None }
    ensures elsewhere { bad_escape (codes "\\q") ≡ None }
{}

/// The text `'a` spells no tokens, since a quote has to close it.
pub fn an_open_quote()
    ensures { (tokens : List Entry) → SpellsTokens (codes "'a") tokens → ⊥ }
{}

/// `X="a\n".%b` is lexed to a variable, a mark, a string of an `a` and a line feed, a dot and the end.
pub fn a_text_that_is_lexed()
    ensures { IsLexed text_with_a_string tokens_with_a_string }
{}

/// A fault of each kind. The place of a bad escape is that of its backslash. The greatest integer is
/// no fault, and the next one is.
pub fn first_faults()
    ensures outside { IsFaultAt (codes "a 1.5") (place 3) (outside (codes "float")) }
    ensures wide { IsFaultAt (codes "a 170141183460469231731687303715884105727") (place 3) wide }
    ensures bad_escape { IsFaultAt (codes "a '\\q'") (place 4) escape }
    ensures bad_token { IsFaultAt (codes "a 'b") (place 3) no_token }
    ensures within { IsFaultAt (codes "170141183460469231731687303715884105726") (place 1) wide → ⊥ }
{}
