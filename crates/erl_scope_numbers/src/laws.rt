//! Laws of the look-ups, each the contract of a function that does nothing.

ghost use Rattle.std.specs.Prelude.{◌≡◌, ◌≤◌, ◌↔◌, ℕ, None, Some, false, length, true};
ghost use Rattle.erl_tree.specs.declared.form.Module.{Module};
ghost use Rattle.erl_tree.specs.declared.token.Place.{Place};
ghost use Rattle.erl_tree.specs.Lists.{Among, Every};
ghost use Rattle.erl_scope_rules.specs.Occurrences.{Occurrence, occurrences_of};
ghost use Rattle.erl_scope_rules.specs.Bindings.{variable_number, binding_place, bindings_of, is_binding, same_place};
ghost use Rattle.erl_scope_rules.specs.Resolution.{resolved_of};
ghost use Rattle.erl_scope_rules.specs.ScopeFaults.{HasRightNames};
ghost use Rattle.erl_scope_numbers.specs.Numbers.{number_in_resolved, place_in_resolved};
ghost use Rattle.erl_scope_numbers.specs.Table.{Table, IsTableOf, number_of, place_of};

/// In the list of what became of a module's variables, each place has the number that the rules of names
/// give the variable that stands there.
pub fn numbers_are_those_of_the_module()
    ensures { (m : Module) (place : Place) → number_in_resolved (resolved_of m) place ≡ variable_number m place }
{}

/// In the list of what became of a module's variables, each number is that of the binding to which the rules
/// of names give it.
pub fn places_are_those_of_the_module()
    ensures { (m : Module) (number : ℕ) → place_in_resolved (resolved_of m) number ≡ binding_place m number }
{}

/// So a table of what became of a module's variables tells what the rules of names tell of the module.
pub fn a_table_tells_what_the_rules_tell()
    ensures numbers { (m : Module) (table : Table) (place : Place) → IsTableOf (resolved_of m) table → number_of table place ≡ variable_number m place }
    ensures places { (m : Module) (table : Table) (number : ℕ) → IsTableOf (resolved_of m) table → place_of table number ≡ binding_place m number }
{}

/// In a module with right names exactly the places where no variable stands have no number: each variable that stands
/// has a binding, and its binding has a number.
pub fn a_number_exactly_where_a_variable_stands()
    ensures { (m : Module) → HasRightNames m → (place : Place) →
        (variable_number m place ≡ None) ↔ Every (λ (o : Occurrence). same_place o.mark.place place ≡ false) (occurrences_of m) }
{}

/// The place that a number gives is one where a binding stands, and a number gives none exactly where there are not so
/// many bindings.
pub fn a_binding_stands_at_its_number()
    ensures place { (m : Module) (number : ℕ) (place : Place) → binding_place m number ≡ Some place →
        (o : Occurrence) × Among o (occurrences_of m) × (is_binding o ≡ true) × (o.mark.place ≡ place) }
    ensures none { (m : Module) (number : ℕ) → (binding_place m number ≡ None) ↔ (length (bindings_of m) ≤ number) }
{}

/// So a table of a module's variables has no number exactly where no variable stands, if the names are right, and no
/// place exactly where there are not so many bindings; and at the places that it has bindings stand.
pub fn a_table_is_silent_only_where_nothing_stands()
    ensures numbers { (m : Module) (table : Table) → IsTableOf (resolved_of m) table → HasRightNames m → (place : Place) →
        (number_of table place ≡ None) ↔ Every (λ (o : Occurrence). same_place o.mark.place place ≡ false) (occurrences_of m) }
    ensures place { (m : Module) (table : Table) → IsTableOf (resolved_of m) table → (number : ℕ) (place : Place) → place_of table number ≡ Some place →
        (o : Occurrence) × Among o (occurrences_of m) × (is_binding o ≡ true) × (o.mark.place ≡ place) }
    ensures none { (m : Module) (table : Table) → IsTableOf (resolved_of m) table → (number : ℕ) →
        (place_of table number ≡ None) ↔ (length (bindings_of m) ≤ number) }
{}
