//! What `least_on_cycle` and `reached_from` of `type_terms` answer, and `first_graph_fault` of `typespecs_cycles`.

ghost use Rattle.std.specs.Prelude.{◌≡◌, ◌<◌, ◌↔◌, ℕ, Bool, List, MatchOption, Option, false, get_or, true};
ghost use Rattle.type_terms.specs.Paths.{IsPath};
ghost use Rattle.erl_tree.specs.declared.form.Module.{Module};
ghost use Rattle.typespecs_rules.specs.TypeFaults.{is_earlier};
ghost use Rattle.typespecs_rules.specs.declared.fault.PlacedFault.{PlacedFault as Fault};
ghost use Rattle.typespecs_cycles.specs.GraphFaults.{IsGraphFault};

/// Of the nodes of a graph that lead back to themselves one is the least, or there is none.
pub fn one_least_on_a_cycle()
    ensures { (graph : List (List ℕ)) (a b : Option ℕ) →
        MatchOption a ((n : ℕ) → IsPath graph n n → ⊥) (λ n. IsPath graph n n × ((m : ℕ) → m < n → IsPath graph m m → ⊥)) →
        MatchOption b ((n : ℕ) → IsPath graph n n → ⊥) (λ n. IsPath graph n n × ((m : ℕ) → m < n → IsPath graph m m → ⊥)) → a ≡ b }
{}

/// Two lists that tell which nodes are reached from one tell the same of each node.
pub fn one_set_of_reached_nodes()
    ensures { (graph : List (List ℕ)) (node : ℕ) (seen other : List Bool) →
        ((m : ℕ) → (get_or seen m false ≡ true) ↔ IsPath graph node m) →
        ((m : ℕ) → (get_or other m false ≡ true) ↔ IsPath graph node m) → (m : ℕ) → get_or seen m false ≡ get_or other m false }
{}

/// Of the faults of a module that are told by mentions which lead back one is the first, or there is none.
pub fn one_graph_fault_is_first()
    ensures { (m : Module) (a b : Option Fault) →
        MatchOption a ((f : Fault) → IsGraphFault m f → ⊥) (λ f. IsGraphFault m f × ((g : Fault) → IsGraphFault m g → is_earlier g f ≡ false)) →
        MatchOption b ((f : Fault) → IsGraphFault m f → ⊥) (λ f. IsGraphFault m f × ((g : Fault) → IsGraphFault m g → is_earlier g f ≡ false)) → a ≡ b }
{}
