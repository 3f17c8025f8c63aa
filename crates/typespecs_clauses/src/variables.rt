//! The variables of type expressions.

ghost use Rattle.std.specs.Prelude.{◌≡◌, [], ◌∷◌, ◌++◌, List, OnOk};
ghost use Rattle.std.specs.Option.{option_copied};
ghost use Rattle.type_terms.specs.Keys.{Name};
ghost use Rattle.erl_runs.specs.Names.{is_wildcard as is_wildcard_name};
ghost use Rattle.typespecs_rules.specs.TypeVariables as rules;
ghost use Rattle.typespecs_clauses.specs.Occurrences.{AreOccurrences, as_list};

use crate::names::NameNumbers;
use erl_tree::{TypeExpr, TypeKind};
use std::alloc::Global;
use type_terms::{NoMemory, Text};

/// The names of a list, each once in the order of first occurrence, and how often each stands there.
#[derive(Drop)]
pub(crate) struct Occurrences<'a> {
    pub(crate) counts: NameNumbers<'a>,
    pub(crate) firsts: Vec<&'a Text>,
}

impl<'a> Occurrences<'a> {
    /// No names.
    pub(crate) fn new(alloc: Global) -> Occurrences<'a>
        ensures { AreOccurrences result [] }
    {
        Occurrences {
            counts: NameNumbers::new(alloc),
            firsts: Vec::new(alloc),
        }
    }

    /// One more name behind the others.
    ///
    /// # Errors
    ///
    /// `NoMemory` where memory runs out, or a name stands more often than can be counted.
    pub(crate) fn add(&mut self, name: &'a Text) -> Result<(), NoMemory>
        ensures { OnOk result ((names : List Name) → AreOccurrences self.old names → AreOccurrences self.new (names ++ name.now ∷ [])) }
    {
        match self.counts.get(name) {
            None => {
                self.firsts.push(name)?;
                self.counts.set(name, 1)
            }
            Some(count) => match count.checked_add(1) {
                None => Err(NoMemory),
                Some(count) => self.counts.set(name, count),
            },
        }
    }
}

fn is_wildcard(name: &Text) -> bool
    ensures { result ≡ is_wildcard_name name.now }
{
    name.as_slice() == b"_".as_slice()
}

/// The variable that a type expression is, if it is one. `_` is none.
pub fn own_variable(t: &TypeExpr) -> Option<&Text>
    ensures { as_list (option_copied result) ≡ rules.own_variable t.now }
{
    match t.kind.get() {
        TypeKind::Var(name) => { if is_wildcard(name) { None } else { Some(name) } }
        _ => None,
    }
}
