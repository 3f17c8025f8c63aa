//! Small types and their terms, each the contract of a function that does nothing.

ghost use Rattle.std.specs.Prelude.{◌≡◌, pos, Some, None};
ghost use Rattle.erl_grammar.specs.TypeGrammar.{IsType};
ghost use Rattle.erl_runs.specs.SmallTrees.{range_type_of, range_or_atom};
ghost use Rattle.erl_runs.specs.SmallPrograms.{range_or_atom_term};
ghost use Rattle.flat_modules.specs.FlatSpecs.{type_term};

/// `1..3|a` is well formed, and is the integers from 1 to 3 or the atom a. `3..1` is well formed too,
/// but has no term.
pub fn terms_of_types()
    ensures union_formed { IsType range_or_atom }
    ensures union { type_term range_or_atom ≡ Some range_or_atom_term }
    ensures empty_formed { IsType (range_type_of (pos 3) (pos 1)) }
    ensures empty { type_term (range_type_of (pos 3) (pos 1)) ≡ None }
{}
