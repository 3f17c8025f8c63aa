//! Texts with a function, each the contract of a function that does nothing.

ghost use Rattle.erl_grammar.specs.Texts.{SpellsModule};
ghost use Rattle.text_reader_rules.specs.Readable.{IsReadable};
ghost use Rattle.text_reader_rules.specs.SafeTexts.{IsSafeText};
ghost use Rattle.examples_texts.specs.SmallTexts.{
  text_that_keeps,
  text_that_breaks,
  module_that_keeps,
  module_that_breaks,
};

/// The text `-module(a). -spec f(integer()) -> integer(). f(X) -> X.` is a safe text.
pub fn a_safe_text_with_a_function()
    ensures spelled { SpellsModule text_that_keeps module_that_keeps }
    ensures safe { IsSafeText text_that_keeps }
{}

/// The text `-module(a). -spec f(integer()) -> integer(). f(X) -> a.` spells a module that is readable,
/// and it is no safe text: f(0) gives a.
pub fn a_readable_text_that_is_not_safe()
    ensures spelled { SpellsModule text_that_breaks module_that_breaks }
    ensures readable { IsReadable module_that_breaks }
    ensures not_safe { IsSafeText text_that_breaks → ⊥ }
{}
