//! How the test for flat modules agrees with the grammar of flat modules, and what a flat module is by
//! that grammar. Each law is the contract of a function that does nothing.

ghost use Rattle.std.specs.Prelude.{◌≡◌, true, false, Option, Some};
ghost use Rattle.type_terms.specs.Keys.{Name};
ghost use Rattle.type_terms.specs.declared.term.Term.{Term};
ghost use Rattle.erl_tree.specs.declared.token.Node.{Node};
ghost use Rattle.erl_tree.specs.declared.type_expr.TypeKind.{TypeKind};
ghost use Rattle.typespecs_rules.specs.Declarations.{Declarations};
ghost use Rattle.typespecs_rules.specs.TypeTerms.{type_term};
ghost use Rattle.typespecs_rules.specs.SpecTerms.{module_specs};
ghost use Rattle.erl_scope_rules.specs.ScopeFaults.{HasRightNames};
ghost use Rattle.flat_modules.specs.FlatSpecs.{type_term as flat_term, read_specs, specs_of, HasFlatSpecs, module_specs_of};
ghost use Rattle.erl_tree.specs.Functions.{functions_of, function_ids};
ghost use Rattle.erl_tree.specs.Limits.{IsInLimit};
ghost use Rattle.erl_tree.specs.Lists.{Every};
ghost use Rattle.erl_tree.specs.declared.form.Module.{Module as Tree};
ghost use Rattle.erl_grammar.specs.FormGrammar.{IsModule};
ghost use Rattle.erl_grammar.specs.FormNesting.{IsModuleWithin};
ghost use Rattle.erl_grammar.specs.FormSpelling.{module_tokens};
ghost use Rattle.erl_grammar.specs.Nesting.{nesting_limit};
ghost use Rattle.erl_runs.specs.Names.{is_built_in};
ghost use Rattle.text_reader_rules.specs.Readable.{IsReadable};
ghost use Rattle.flat_modules.specs.FlatNames.{FunctionCallsOnly};
ghost use Rattle.flat_modules.specs.Calls.{HasCallsInProfile};
ghost use Rattle.flat_modules.specs.Flat.{is_flat};
ghost use Rattle.flat_modules.specs.FlatModules.{HasDistinctHeads, IsFlatModule};
ghost use Rattle.flat_modules.specs.FlatNames.{HasRightFlatNames};
ghost use Rattle.flat_modules.specs.Grammar.{IsWellFormed};
ghost use Rattle.flat_modules.specs.Spelling.{tokens_of};

/// A well-formed flat module passes the test, has the same tokens in the grammar of all modules, and is
/// well formed there where its calls are in the profile. A call `is_function(F, N)` may be none: the
/// grammar of flat modules lets N be any expression.
pub fn flat_modules_are_modules()
    ensures formed { (m : Tree) → IsWellFormed m → HasCallsInProfile m → IsModule m }
    ensures tokens { (m : Tree) → IsWellFormed m → tokens_of m ≡ module_tokens m }
    ensures flat { (m : Tree) → IsWellFormed m → is_flat m ≡ true }
{}

/// A well-formed module that passes the test is a well-formed flat module.
pub fn modules_that_are_flat()
    ensures { (m : Tree) → IsModule m → is_flat m ≡ true → IsWellFormed m }
{}

/// What right names come to in a well-formed flat module whose specs have terms: no function is defined
/// twice or is built in, each function has a spec and each spec a function, and each variable that is used
/// is bound in its clause's head.
pub fn right_names_of_flat_modules()
    ensures { (m : Tree) → IsWellFormed m → HasRightNames m → HasFlatSpecs m → HasRightFlatNames m }
{}

/// In a well-formed flat module whose calls are of its own functions alone, none of which is built in,
/// each call is in the profile: the calls outside of it are of `is_function` with two arguments.
pub fn flat_modules_have_calls_in_profile()
    ensures { (m : Tree) → IsWellFormed m → Every (λ id. is_built_in id ≡ false) (function_ids m) →
        Every (FunctionCallsOnly (function_ids m)) (functions_of m) → HasCallsInProfile m }
{}

/// A flat module is well formed in the grammar of flat modules. A module that is well formed there is a
/// flat module where names, types and specs are used rightly, each spec has terms of flat types, the
/// variables of each head are distinct, calls are of its own functions alone, and it keeps the limits of
/// nesting and of integers.
pub fn flat_modules_by_their_grammar()
    ensures formed { (m : Tree) → IsFlatModule m → IsWellFormed m }
    ensures flat { (m : Tree) → IsWellFormed m → IsReadable m → HasFlatSpecs m → Every HasDistinctHeads (functions_of m) →
        Every (FunctionCallsOnly (function_ids m)) (functions_of m) → IsModuleWithin nesting_limit m →
        Every (λ t. IsInLimit t.token) (tokens_of m) → IsFlatModule m }
{}

/// A type of a flat module has the term that it has there, whatever is declared.
pub fn a_flat_type_has_its_term()
    ensures { (declared : Declarations) (variables : Name → Option Term) (t : Node TypeKind) (u : Term) → flat_term t ≡ Some u → type_term declared variables t ≡ Some u }
{}

/// The types, records and specs of a flat module are its specs as flat terms, and no types and records: no
/// variable stands in them, and the definitions are those that are given.
pub fn specs_of_flat_modules()
    ensures specs { (m : Tree) → IsFlatModule m → module_specs m ≡ Some (module_specs_of m) }
    ensures readable { (m : Tree) (flat : IsFlatModule m) → flat.readable.specs ≡ module_specs_of m }
{}

/// In a readable module no function has two specs, so that specs are those of a flat module where each has
/// terms.
pub fn flat_specs_of_specs()
    ensures { (m : Tree) → IsReadable m → read_specs m ≡ Some (specs_of m) → HasFlatSpecs m }
{}
