//! Laws of well-formed forms and modules, each the contract of a function that does nothing: at which
//! place a form begins, how many marks it has, and that the depth of a module is bounded.

ghost use Rattle.std.specs.Prelude.{ℕ};
ghost use Rattle.type_terms.specs.Keys.{Name};
ghost use Rattle.erl_tree.specs.declared.token.Node.{Node};
ghost use Rattle.erl_tree.specs.declared.expr.ClauseKind.{ClauseKind};
ghost use Rattle.erl_tree.specs.declared.form.ExportKind.{ExportKind};
ghost use Rattle.erl_tree.specs.declared.form.RecDefKind.{RecDefKind};
ghost use Rattle.erl_tree.specs.declared.form.RecFieldKind.{RecFieldKind};
ghost use Rattle.erl_tree.specs.declared.form.TypeDefKind.{TypeDefKind};
ghost use Rattle.erl_tree.specs.declared.form.SpecKind.{SpecKind};
ghost use Rattle.erl_tree.specs.declared.form.SpecClauseKind.{SpecClauseKind};
ghost use Rattle.erl_tree.specs.declared.form.SkippedKind.{SkippedKind};
ghost use Rattle.erl_tree.specs.declared.form.Function.{Function};
ghost use Rattle.erl_tree.specs.declared.form.Module.{Module};
ghost use Rattle.erl_grammar.specs.Pieces.{BeginsAt, HasMarks, HasMarkEach};
ghost use Rattle.erl_grammar.specs.FormSpelling.{
  export_tokens,
  record_field_tokens,
  record_definition_tokens,
  type_definition_tokens,
  spec_clause_tokens,
  spec_tokens,
  skipped_tokens,
  function_clause_tokens,
  function_tokens,
  function_text,
  module_text,
};
ghost use Rattle.erl_grammar.specs.FormNesting.{IsModuleWithin};
ghost use Rattle.erl_grammar.specs.FormGrammar.{
  IsExport,
  IsRecordField,
  IsRecordDefinition,
  IsTypeDefinition,
  IsSpecClause,
  IsSpec,
  IsSkipped,
  IsFunctionClause,
  IsFunction,
  IsModule,
};

/// A well-formed form, and each well-formed node in it, begins at its place: it has a first token, and
/// this stands there.
pub fn each_node_of_a_form_begins_at_its_place()
    ensures export { (e : Node ExportKind) → IsExport e → BeginsAt e.place (export_tokens e) }
    ensures record_field { (f : Node RecFieldKind) → IsRecordField f → BeginsAt f.place (record_field_tokens f) }
    ensures record_definition { (r : Node RecDefKind) → IsRecordDefinition r → BeginsAt r.place (record_definition_tokens r) }
    ensures type_definition { (d : Node TypeDefKind) → IsTypeDefinition d → BeginsAt d.place (type_definition_tokens d) }
    ensures spec_clause { (c : Node SpecClauseKind) → IsSpecClause c → BeginsAt c.place (spec_clause_tokens c) }
    ensures spec { (s : Node SpecKind) → IsSpec s → BeginsAt s.place (spec_tokens s) }
    ensures skipped { (s : Node SkippedKind) → IsSkipped s → BeginsAt s.place (skipped_tokens s) }
    ensures function_clause { (name : Name) (c : Node ClauseKind) → IsFunctionClause c → BeginsAt c.place (function_clause_tokens name c) }
    ensures function { (f : Function) → IsFunction f → BeginsAt f.place (function_tokens f) }
{}

/// A well-formed form, each well-formed node in it and a well-formed module have as many marks as
/// tokens of their own, so that none is wanting or left over.
pub fn each_node_of_a_form_has_a_mark_for_each_of_its_tokens()
    ensures export { (e : Node ExportKind) → IsExport e → HasMarkEach export_tokens e }
    ensures record_field { (f : Node RecFieldKind) → IsRecordField f → HasMarkEach record_field_tokens f }
    ensures record_definition { (r : Node RecDefKind) → IsRecordDefinition r → HasMarkEach record_definition_tokens r }
    ensures type_definition { (d : Node TypeDefKind) → IsTypeDefinition d → HasMarkEach type_definition_tokens d }
    ensures spec_clause { (c : Node SpecClauseKind) → IsSpecClause c → HasMarkEach spec_clause_tokens c }
    ensures spec { (s : Node SpecKind) → IsSpec s → HasMarkEach spec_tokens s }
    ensures skipped { (s : Node SkippedKind) → IsSkipped s → HasMarkEach skipped_tokens s }
    ensures function_clause { (name : Name) (c : Node ClauseKind) → IsFunctionClause c → HasMarkEach (function_clause_tokens name) c }
    ensures function { (f : Function) → IsFunction f → HasMarks (function_text f) f.marks }
    ensures module { (m : Module) → IsModule m → HasMarks (module_text m) m.marks }
{}

/// Each well-formed module is nested within some number of levels.
pub fn every_module_has_a_depth()
    ensures { (m : Module) → IsModule m → (levels : ℕ) × IsModuleWithin levels m }
{}
