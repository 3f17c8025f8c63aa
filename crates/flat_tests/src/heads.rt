//! Whether the variables of a head are distinct.

ghost use Rattle.std.specs.Prelude.{◌≡◌, ◌↔◌, IsTrue};
ghost use Rattle.std.specs.Option.{option_copied};
ghost use Rattle.erl_tree.specs.declared.pattern.PatternKind.{out-PatternKind};
ghost use Rattle.erl_tree.specs.Lists.{Every, Among, AreDistinct};
ghost use Rattle.flat_modules.specs.FlatModules.{HasDistinctHead};
ghost use Rattle.flat_modules.specs.FlatNames.{bound_by, bound_layer};
ghost use Rattle.flat_tests.specs.Names.{listed, IsFresh};

use erl_scope_built_ins::is_text;
use erl_tree::{Clause, Pattern, PatternKind};
use type_terms::Text;

/// The variable that a pattern binds.
fn bound_name(pattern: &Pattern) -> Option<&Text>
    ensures { bound_layer (out-PatternKind pattern.now.kind) ≡ listed (option_copied result) }
{
    match pattern.kind.get() {
        PatternKind::Var(name) => {
            if is_text(name, b"_") {
                None
            } else {
                Some(name)
            }
        }
        _ => None,
    }
}

fn binds(pattern: &Pattern, name: &Text) -> bool
    ensures { IsTrue result ↔ Among name.now (bound_layer (out-PatternKind pattern.now.kind)) }
{
    match bound_name(pattern) {
        None => false,
        Some(bound) => is_text(name, bound.as_slice()),
    }
}

fn is_bound(name: &Text, patterns: &[Pattern]) -> bool
    ensures { IsTrue result ↔ Among name.now (bound_by patterns.now) }
{
    for pattern in patterns {
        if binds(pattern, name) {
            return true;
        }
    }
    false
}

fn is_fresh(pattern: &Pattern, others: &[Pattern]) -> bool
    ensures { IsTrue result ↔ IsFresh pattern.now others.now }
{
    match bound_name(pattern) {
        None => true,
        Some(name) => !is_bound(name, others),
    }
}

fn has_distinct_names(patterns: &[Pattern]) -> bool
    ensures { IsTrue result ↔ AreDistinct (bound_by patterns.now) }
{
    for (i, pattern) in patterns.iter().enumerate() {
        if !is_fresh(pattern, &patterns[i + 1..]) {
            return false;
        }
    }
    true
}

fn has_distinct_head(clause: &Clause) -> bool
    ensures { IsTrue result ↔ HasDistinctHead clause.now }
{
    has_distinct_names(clause.kind.get().patterns.as_slice())
}

/// Whether the variables of each clause's head are distinct.
pub fn have_distinct_heads(clauses: &[Clause]) -> bool
    ensures { IsTrue result ↔ Every HasDistinctHead clauses.now }
{
    for clause in clauses {
        if !has_distinct_head(clause) {
            return false;
        }
    }
    true
}
