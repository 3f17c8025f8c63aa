//! Laws of the rules of names, each the contract of a function that does nothing: what stands behind a part of the text sees
//! what its place sees, and which fault is the first.

ghost use Rattle.std.specs.Prelude.{◌≡◌, ◌++◌, List, [], ◌∷◌, Option, Some, None, false};
ghost use Rattle.type_terms.specs.Keys.{Name};
ghost use Rattle.erl_tree.specs.declared.token.Place.{Place};
ghost use Rattle.erl_tree.specs.declared.form.Module.{Module};
ghost use Rattle.erl_scope_rules.specs.declared.role.Role.{Role};
ghost use Rattle.erl_scope_rules.specs.Occurrences.{Mark, Occurrence, seeing, behind, row_behind, marks_behind, occurrences_of};
ghost use Rattle.erl_scope_rules.specs.Bindings.{binding_of, bindings_in, bindings_of};
ghost use Rattle.erl_tree.specs.Lists.{Among, Every};
ghost use Rattle.erl_scope_rules.specs.declared.fault.PlacedFault.{PlacedFault as Fault};
ghost use Rattle.erl_scope_rules.specs.ScopeFaults.{is_earlier};
ghost use Rattle.erl_scope_rules.specs.Earliest.{earliest};

/// Occurrences that stand in turn see, and have behind them, what each of them does; what they see outside comes behind what
/// they see inside; and it doesn't matter which of the two is told first.
pub fn occurrences_in_turn()
    ensures seen { (marks : List Mark) (os ps : List Occurrence) → seeing marks (os ++ ps) ≡ seeing marks os ++ seeing marks ps }
    ensures ended { (names : List Name) (os ps : List Occurrence) → behind names (os ++ ps) ≡ behind names os ++ behind names ps }
    ensures seen_outside { (outer inner : List Mark) (os : List Occurrence) → seeing outer (seeing inner os) ≡ seeing (inner ++ outer) os }
    ensures ended_outside { (outer inner : List Name) (os : List Occurrence) → behind outer (behind inner os) ≡ behind (inner ++ outer) os }
    ensures seen_and_ended { (seen : List Mark) (ended : List Name) (os : List Occurrence) → seeing seen (behind ended os) ≡ behind ended (seeing seen os) }
{}

/// A row of variables that goes on stands behind its first part, and the bindings of occurrences in turn are those of each, in turn.
pub fn rows_in_turn()
    ensures row { (role : Role) (before : List Mark) (vs ws : List (Name × Place)) →
        row_behind role before (vs ++ ws) ≡ row_behind role before vs ++ row_behind role (marks_behind role before vs) ws }
    ensures marks { (role : Role) (before : List Mark) (vs ws : List (Name × Place)) →
        marks_behind role before (vs ++ ws) ≡ marks_behind role (marks_behind role before vs) ws }
    ensures bindings { (os ps : List Occurrence) → bindings_in (os ++ ps) ≡ bindings_in os ++ bindings_in ps }
{}

/// Among the variables that an occurrence sees, those behind each are the ones that this one sees itself, where it stands. So what
/// an occurrence has as its binding is one of the module's bindings, and has a number.
pub fn what_is_seen_behind_a_variable()
    ensures behind { (m : Module) (o : Occurrence) → Among o (occurrences_of m) → (before : List Mark) (mark : Mark) (outer : List Mark) → o.sees ≡ before ++ mark ∷ outer →
        (p : Occurrence) × Among p (occurrences_of m) × (p.mark ≡ mark) × (p.sees ≡ outer) }
    ensures binding { (m : Module) (o : Occurrence) (b : Mark) → Among o (occurrences_of m) → binding_of o ≡ Some b → Among b (bindings_of m) }
{}

/// The first of some faults and of others behind them is found in two steps.
pub fn faults_in_two_steps()
    ensures { (first : Option Fault) (fs gs : List Fault) → earliest first (fs ++ gs) ≡ earliest (earliest first fs) gs }
{}

/// The first of some faults is one of them, none of them is earlier, and there is none only where there are no
/// faults.
pub fn the_first_fault()
    ensures stands { (fs : List Fault) (f : Fault) → earliest None fs ≡ Some f → Among f fs }
    ensures first { (fs : List Fault) (f : Fault) → earliest None fs ≡ Some f → Every (λ g. is_earlier g f ≡ false) fs }
    ensures none { (fs : List Fault) → earliest None fs ≡ None → fs ≡ [] }
{}
