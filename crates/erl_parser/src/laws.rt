//! Laws of reading texts: no tokens, and no bytes, are those of two modules. Each is the contract of a
//! function that does nothing.

ghost use Rattle.std.specs.Prelude.{◌≡◌, ℕ, List};
ghost use Rattle.erl_tree.specs.declared.form.Module.{Module};
ghost use Rattle.erl_grammar.specs.FormSpelling.{module_tokens};
ghost use Rattle.erl_grammar.specs.FormGrammar.{IsModule};
ghost use Rattle.erl_grammar.specs.Texts.{SpellsModule};

/// No tokens are those of two well-formed modules, however deep their parts are nested.
pub fn one_tree()
    ensures modules { (m n : Module) → IsModule m → IsModule n → module_tokens m ≡ module_tokens n → m ≡ n }
{}

/// No bytes spell two modules.
pub fn one_module()
    ensures { (bytes : List ℕ) (m n : Module) → SpellsModule bytes m → SpellsModule bytes n → m ≡ n }
{}
