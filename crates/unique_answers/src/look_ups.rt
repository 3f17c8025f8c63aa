//! What `NameTable` of `name_table`, `Scopes` of `erl_scope_numbers` and `DeclaredNumbers` of `typespecs_names` answer.

ghost use Rattle.std.specs.Prelude.{◌≡◌, ℕ, Bool, List, None, Option, cond};
ghost use Rattle.type_terms.specs.Keys.{Name};
ghost use Rattle.erl_tree.specs.Functions.{FunctionId, of_function};
ghost use Rattle.erl_tree.specs.Lists.{AreDistinct};
ghost use Rattle.erl_tree.specs.declared.token.Place.{Place};
ghost use Rattle.name_table.specs.Table.{Entry, ids, IsFound, IsInsertion};
ghost use Rattle.erl_scope_rules.specs.declared.resolved.Resolved.{Resolved};
ghost use Rattle.erl_scope_numbers.specs.Table.{IsTableOf, Table, number_of, place_of};
ghost use Rattle.typespecs_rules.specs.BuiltInTypes.{is_built_in_name};
ghost use Rattle.typespecs_rules.specs.Declarations.{Declarations};
ghost use Rattle.typespecs_names.specs.Numbers.{first_number, KnowsNumbers};
ghost use Rattle.typespecs_names.specs.declared.numbers.DeclaredNumbers.{DeclaredNumbers};

/// Whether a name is added to a table, and what the table is afterwards.
pub fn one_insertion()
    ensures { (old : List Entry) (id : FunctionId) (number : ℕ) (a b : Bool) (new other : List Entry) →
        IsInsertion a old id number new → IsInsertion b old id number other → (a ≡ b) × (new ≡ other) }
{}

/// What a table of distinct names gives for a name.
pub fn one_number_in_a_table()
    ensures { (entries : List Entry) (id : FunctionId) (a b : Option ℕ) → AreDistinct (ids entries) → IsFound entries id a → IsFound entries id b → a ≡ b }
{}

/// Two tables of the numbers of one list of variables give the same.
pub fn one_number_of_a_variable()
    ensures numbers { (found : List Resolved) (s t : Table) → IsTableOf found s → IsTableOf found t → (place : Place) → number_of s place ≡ number_of t place }
    ensures places { (found : List Resolved) (s t : Table) → IsTableOf found s → IsTableOf found t → (number : ℕ) → place_of s number ≡ place_of t number }
{}

/// Two tables of the numbers of the same declarations give the same.
pub fn one_number_of_a_declaration()
    ensures types { (d : Declarations) (s t : DeclaredNumbers) → KnowsNumbers s d → KnowsNumbers t d → (name : Name) (count : ℕ) →
        cond (is_built_in_name name) None (first_number s.types (of_function name count)) ≡ cond (is_built_in_name name) None (first_number t.types (of_function name count)) }
    ensures records { (d : Declarations) (s t : DeclaredNumbers) → KnowsNumbers s d → KnowsNumbers t d → (name : Name) →
        first_number s.records (of_function name 0) ≡ first_number t.records (of_function name 0) }
{}
