//! Laws of well-formed types, each the contract of a function that does nothing: at which place a node
//! begins, how many marks it has, and that its depth is bounded.

ghost use Rattle.std.specs.Prelude.{ℕ};
ghost use Rattle.type_terms.specs.Keys.{Name};
ghost use Rattle.erl_tree.specs.declared.token.Node.{Node};
ghost use Rattle.erl_tree.specs.declared.pattern.LiteralKind.{LiteralKind};
ghost use Rattle.erl_tree.specs.declared.type_expr.TypeKind.{TypeKind};
ghost use Rattle.erl_tree.specs.declared.type_expr.MapPart.{MapPart};
ghost use Rattle.erl_grammar.specs.Pieces.{BeginsAt, HasMarkEach};
ghost use Rattle.erl_grammar.specs.Spelling.{literal_tokens};
ghost use Rattle.erl_grammar.specs.TypeSpelling.{type_tokens, map_part_tokens, type_field_tokens};
ghost use Rattle.erl_grammar.specs.TypeNesting.{IsTypeWithin};
ghost use Rattle.erl_grammar.specs.TypeGrammar.{
  IsRangeEnd,
  IsType,
  IsParameter,
  IsMapPart,
  IsFieldType,
};

/// A well-formed node of a type begins at its place: it has a first token, and this stands there.
pub fn each_node_of_a_type_begins_at_its_place()
    ensures type_expression { (t : Node TypeKind) → IsType t → BeginsAt t.place (type_tokens t) }
    ensures parameter { (t : Node TypeKind) → IsParameter t → BeginsAt t.place (type_tokens t) }
    ensures range_end { (k : Node LiteralKind) → IsRangeEnd k → BeginsAt k.place (literal_tokens k) }
    ensures map_part { (part : Node MapPart) → IsMapPart part → BeginsAt part.place (map_part_tokens part) }
    ensures field_type { (f : Node (Name × Node TypeKind)) → IsFieldType f → BeginsAt f.place (type_field_tokens f) }
{}

/// A well-formed node of a type has as many marks as tokens of its own, so that none is wanting or
/// left over.
pub fn each_node_of_a_type_has_a_mark_for_each_of_its_tokens()
    ensures type_expression { (t : Node TypeKind) → IsType t → HasMarkEach type_tokens t }
    ensures parameter { (t : Node TypeKind) → IsParameter t → HasMarkEach type_tokens t }
    ensures range_end { (k : Node LiteralKind) → IsRangeEnd k → HasMarkEach literal_tokens k }
    ensures map_part { (part : Node MapPart) → IsMapPart part → HasMarkEach map_part_tokens part }
    ensures field_type { (f : Node (Name × Node TypeKind)) → IsFieldType f → HasMarkEach type_field_tokens f }
{}

/// Each well-formed type and parameter is nested within some number of levels.
pub fn every_type_has_a_depth()
    ensures type_expression { (t : Node TypeKind) → IsType t → (levels : ℕ) × IsTypeWithin levels t }
    ensures parameter { (t : Node TypeKind) → IsParameter t → (levels : ℕ) × IsTypeWithin levels t }
{}
