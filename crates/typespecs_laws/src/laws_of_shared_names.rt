//! The names of the variables of types that are read one after the other.

ghost use Rattle.std.specs.Prelude.{◌≡◌, ℕ, List, Some};
ghost use Rattle.type_terms.specs.Keys.{Name};
ghost use Rattle.erl_tree.specs.Lists.{Among, AreDistinct};
ghost use Rattle.erl_tree.specs.declared.token.Node.{Node};
ghost use Rattle.erl_tree.specs.declared.type_expr.TypeKind.{TypeKind};
ghost use Rattle.typespecs_rules.specs.TypeVariables.{variables_of, place_among, and_variables_of};

/// With a type's variables behind them, distinct names stay distinct, each name keeps its number, and each variable of the type
/// stands among them.
pub fn types_share_their_variables()
    ensures distinct { (names : List Name) (t : Node TypeKind) → AreDistinct names → AreDistinct (and_variables_of names t) }
    ensures kept { (names : List Name) (t : Node TypeKind) (x : Name) (i : ℕ) → place_among names x ≡ Some i → place_among (and_variables_of names t) x ≡ Some i }
    ensures added { (names : List Name) (t : Node TypeKind) (x : Name) → Among x (variables_of t) → Among x (and_variables_of names t) }
{}
