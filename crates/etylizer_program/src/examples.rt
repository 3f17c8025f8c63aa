//! Small texts that are safe and that are not: the headline's definition holds of something, and not
//! of everything.

ghost use Rattle.std.specs.Prelude.{codes};
ghost use Rattle.erl_tree.specs.SmallText.{small_text};
ghost use Rattle.text_reader_rules.specs.SafeTexts.{IsSafeText};

/// The text `-module(a).` is a safe text.
pub fn a_safe_text()
    ensures { IsSafeText small_text }
{}

/// The text `$` is no safe text, since it spells nothing.
pub fn a_text_that_is_not_safe()
    ensures { IsSafeText (codes "$") → ⊥ }
{}
