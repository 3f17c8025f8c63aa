//! A law of the functions of a readable module, the contract of a function that does nothing.

ghost use Rattle.erl_tree.specs.declared.form.Function.{Function};
ghost use Rattle.erl_tree.specs.declared.form.Module.{Module};
ghost use Rattle.erl_tree.specs.Functions.{functions_of};
ghost use Rattle.erl_tree.specs.Lists.{Among};
ghost use Rattle.erl_grammar.specs.FormGrammar.{IsModule};
ghost use Rattle.text_reader_rules.specs.Readable.{IsReadable};
ghost use Rattle.text_reader_laws.specs.EachFunction.{HasItsArrows};

/// Each function of a well-formed readable module has exactly one spec. The spec has at least one clause,
/// and its clauses are the arrows by which safety judges the function: each of them, and no other.
pub fn each_function_has_its_arrows()
    ensures { (m : Module) → IsModule m → (readable : IsReadable m) (f : Function) → Among f (functions_of m) →
        HasItsArrows m readable.specs.functions f }
{}
