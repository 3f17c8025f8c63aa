//! A small text and its module, the contract of a function that does nothing.

ghost use Rattle.erl_grammar.specs.Texts.{SpellsModule};
ghost use Rattle.erl_tree.specs.SmallText.{small_text, small_module};

/// The text `-module(a).` spells the module named a without forms.
pub fn a_text_that_is_spelled()
    ensures { SpellsModule small_text small_module }
{}
