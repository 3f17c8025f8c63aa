//! Laws of well-formed patterns and expressions, each the contract of a function that does nothing: at
//! which place a node begins, how many marks it has, and that its depth is bounded.

ghost use Rattle.std.specs.Prelude.{ℕ, Bool, List};
ghost use Rattle.type_terms.specs.Keys.{Name};
ghost use Rattle.erl_tree.specs.declared.token.Node.{Node};
ghost use Rattle.erl_tree.specs.declared.pattern.LiteralKind.{LiteralKind};
ghost use Rattle.erl_tree.specs.declared.pattern.PatternKind.{PatternKind};
ghost use Rattle.erl_tree.specs.declared.expr.ExprKind.{ExprKind};
ghost use Rattle.erl_tree.specs.declared.expr.ItemKind.{ItemKind};
ghost use Rattle.erl_tree.specs.declared.expr.ClauseKind.{ClauseKind};
ghost use Rattle.erl_tree.specs.declared.expr.QualifierKind.{QualifierKind};
ghost use Rattle.erl_tree.specs.declared.expr.AssocKind.{AssocKind};
ghost use Rattle.erl_tree.specs.declared.expr.CatchKind.{CatchKind};
ghost use Rattle.erl_grammar.specs.Pieces.{BeginsAt, HasMarkEach};
ghost use Rattle.erl_grammar.specs.Spelling.{
  literal_tokens,
  pattern_tokens,
  pattern_entry_tokens,
  pattern_field_tokens,
  expr_tokens,
  item_tokens,
  qualifier_tokens,
  assoc_tokens,
  expr_field_tokens,
  expr_guard_tokens,
  case_clause_tokens,
  if_clause_tokens,
  fun_clause_tokens,
  catch_tokens,
};
ghost use Rattle.erl_grammar.specs.Nesting.{IsPatternWithin, IsExprWithin};
ghost use Rattle.erl_grammar.specs.Grammar.{
  IsKey,
  IsPattern,
  IsEntry,
  IsFieldPattern,
  IsExpr,
  IsItem,
  IsQualifier,
  IsAssoc,
  IsField,
  IsGuard,
  IsCaseClause,
  IsIfClause,
  IsFunClause,
  IsCatch,
};

/// A well-formed node begins at its place: it has a first token, and this stands there.
pub fn each_node_begins_at_its_place()
    ensures pattern { (p : Node PatternKind) → IsPattern p → BeginsAt p.place (pattern_tokens p) }
    ensures key { (k : Node LiteralKind) → IsKey k → BeginsAt k.place (literal_tokens k) }
    ensures entry { (n : Node (Node LiteralKind × Node PatternKind)) → IsEntry n → BeginsAt n.place (pattern_entry_tokens n) }
    ensures field_of_pattern { (f : Node (Name × Node PatternKind)) → IsFieldPattern f → BeginsAt f.place (pattern_field_tokens f) }
    ensures expr { (least : ℕ) (e : Node ExprKind) → IsExpr least e → BeginsAt e.place (expr_tokens e) }
    ensures item { (i : Node ItemKind) → IsItem i → BeginsAt i.place (item_tokens i) }
    ensures qualifier { (q : Node QualifierKind) → IsQualifier q → BeginsAt q.place (qualifier_tokens q) }
    ensures association { (may_be_exact : Bool) (a : Node AssocKind) → IsAssoc may_be_exact a → BeginsAt a.place (assoc_tokens a) }
    ensures field { (f : Node (Name × Node ExprKind)) → IsField f → BeginsAt f.place (expr_field_tokens f) }
    ensures guard { (g : Node (List (List (Node ExprKind)))) → IsGuard g → BeginsAt g.place (expr_guard_tokens g) }
    ensures case_clause { (c : Node ClauseKind) → IsCaseClause c → BeginsAt c.place (case_clause_tokens c) }
    ensures if_clause { (c : Node ClauseKind) → IsIfClause c → BeginsAt c.place (if_clause_tokens c) }
    ensures fun_clause { (c : Node ClauseKind) → IsFunClause c → BeginsAt c.place (fun_clause_tokens c) }
    ensures catch_clause { (c : Node CatchKind) → IsCatch c → BeginsAt c.place (catch_tokens c) }
{}

/// A well-formed node has as many marks as tokens of its own, so that none is wanting or left over.
pub fn each_node_has_a_mark_for_each_of_its_tokens()
    ensures pattern { (p : Node PatternKind) → IsPattern p → HasMarkEach pattern_tokens p }
    ensures key { (k : Node LiteralKind) → IsKey k → HasMarkEach literal_tokens k }
    ensures entry { (n : Node (Node LiteralKind × Node PatternKind)) → IsEntry n → HasMarkEach pattern_entry_tokens n }
    ensures field_of_pattern { (f : Node (Name × Node PatternKind)) → IsFieldPattern f → HasMarkEach pattern_field_tokens f }
    ensures expr { (least : ℕ) (e : Node ExprKind) → IsExpr least e → HasMarkEach expr_tokens e }
    ensures item { (i : Node ItemKind) → IsItem i → HasMarkEach item_tokens i }
    ensures qualifier { (q : Node QualifierKind) → IsQualifier q → HasMarkEach qualifier_tokens q }
    ensures association { (may_be_exact : Bool) (a : Node AssocKind) → IsAssoc may_be_exact a → HasMarkEach assoc_tokens a }
    ensures field { (f : Node (Name × Node ExprKind)) → IsField f → HasMarkEach expr_field_tokens f }
    ensures guard { (g : Node (List (List (Node ExprKind)))) → IsGuard g → HasMarkEach expr_guard_tokens g }
    ensures case_clause { (c : Node ClauseKind) → IsCaseClause c → HasMarkEach case_clause_tokens c }
    ensures if_clause { (c : Node ClauseKind) → IsIfClause c → HasMarkEach if_clause_tokens c }
    ensures fun_clause { (c : Node ClauseKind) → IsFunClause c → HasMarkEach fun_clause_tokens c }
    ensures catch_clause { (c : Node CatchKind) → IsCatch c → HasMarkEach catch_tokens c }
{}

/// Each well-formed pattern and expression is nested within some number of levels.
pub fn every_expression_has_a_depth()
    ensures pattern { (p : Node PatternKind) → IsPattern p → (levels : ℕ) × IsPatternWithin levels p }
    ensures expr { (least : ℕ) (e : Node ExprKind) → IsExpr least e → (levels : ℕ) × IsExprWithin levels e }
{}
