//! Tables of terms and of records' tuples by name.

ghost use Rattle.std.specs.Prelude.{◌≡◌, None, Some, IfOk, OnOk, cond};
ghost use Rattle.std.specs.Option.{option_copied};
ghost use Rattle.type_terms.specs.Keys.{Name, same_name};
ghost use Rattle.typespecs_terms.specs.Tables.{first_named, terms_in, tuples_in, tuple_as};

use indexmap::IndexMap;
use std::alloc::Global;
use type_terms::{List, NoMemory, Plain, Term, Text};
use typespecs_names::DeclaredNumbers;

/// Terms by name.
#[derive(Drop)]
pub struct TermTable {
    terms: IndexMap<Vec<u8>, Term>,
}

/// A record's tag, and the terms of its fields by their names, in the order of their declaration.
#[derive(Drop)]
pub struct Fields {
    pub tag: Text,
    pub fields: List<(Text, Term)>,
}

/// The tuples that records stand for, by the records' names.
#[derive(Drop)]
pub struct TupleTable {
    tuples: IndexMap<Vec<u8>, Fields>,
}

/// What types are read with: the numbers of the module's definitions, the tuples of its records, and the terms
/// that variables stand for.
#[derive(Clone, Copy)]
pub struct Reading<'a> {
    pub alloc: Global,
    pub numbers: &'a DeclaredNumbers,
    pub tuples: &'a TupleTable,
    pub variables: &'a TermTable,
}

impl TermTable {
    /// The empty table.
    pub fn new(alloc: Global) -> TermTable
        ensures { (x : Name) → terms_in result x ≡ None }
    {
        TermTable {
            terms: IndexMap::new(alloc),
        }
    }

    /// Gives a name a term, in the place of the one that it has, if it has one.
    ///
    /// # Errors
    ///
    /// `NoMemory` where memory runs out.
    pub fn insert(&mut self, alloc: Global, name: &Text, term: Term) -> Result<(), NoMemory>
        ensures { OnOk result ((x : Name) → terms_in self.new x ≡ cond (same_name name.now x) (Some term) (terms_in self.old x)) }
    {
        let key = Vec::from_slice(alloc, name.as_slice())?;
        self.terms.insert(key, term)?;
        Ok(())
    }

    /// The term of a name, if it has one.
    pub fn get(&self, name: &Text) -> Option<&Term>
        ensures { option_copied result ≡ terms_in self.now name.now }
    {
        self.terms.get(name.as_slice())
    }

    /// A copy of the term of a name, if it has one.
    ///
    /// # Errors
    ///
    /// `NoMemory` where memory runs out.
    pub fn copy_of(&self, alloc: Global, name: &Text) -> Result<Option<Term>, NoMemory>
        ensures { IfOk result (λ term. term ≡ terms_in self.now name.now) }
    {
        match self.get(name) {
            None => Ok(None),
            Some(term) => Ok(Some(term.copy(alloc)?)),
        }
    }
}

impl TupleTable {
    /// The empty table.
    pub fn new(alloc: Global) -> TupleTable
        ensures { (x : Name) → tuples_in result x ≡ None }
    {
        TupleTable {
            tuples: IndexMap::new(alloc),
        }
    }

    /// Gives a record's name these tuples, in the place of those that it has, if it has any.
    ///
    /// # Errors
    ///
    /// `NoMemory` where memory runs out.
    pub fn insert(&mut self, alloc: Global, name: &Text, tuple: Fields) -> Result<(), NoMemory>
        ensures { OnOk result ((x : Name) → tuples_in self.new x ≡ cond (same_name name.now x) (Some (tuple_as tuple)) (tuples_in self.old x)) }
    {
        let key = Vec::from_slice(alloc, name.as_slice())?;
        self.tuples.insert(key, tuple)?;
        Ok(())
    }

    /// The tuples of a record, if the table has them.
    pub fn get(&self, name: &Text) -> Option<&Fields>
        ensures { option_copied result ≡ first_named self.now.tuples.entries name.now }
    {
        self.tuples.get(name.as_slice())
    }
}
