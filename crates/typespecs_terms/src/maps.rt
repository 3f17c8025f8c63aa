//! Map types.

ghost use Rattle.std.specs.Prelude.{◌≡◌, IfOk, map};
ghost use Rattle.std.specs.Option.{option_map};
ghost use Rattle.erl_tree.specs.declared.type_expr.TypeKind.{out-TypeKind};
ghost use Rattle.erl_runs.specs.Specs.{and_then};
ghost use Rattle.typespecs_rules.specs.TypeTerms as types;
ghost use Rattle.typespecs_terms.specs.Entries.{key_as, entry_as, IsTaken};

use crate::forms::negated;
use erl_tree::TypeKind;
use sqlite_items::Boxed;
use std::alloc::Global;
use type_terms::{Field, Key, List, NoMemory, Plain, Term, Text};
use typespecs_built_ins::is_text;
use typespecs_fields::in_order;

/// What stands before `:=` or `=>` in a map type: one key, all integers, all atoms, or what is no key.
#[derive(Drop)]
pub(crate) enum EntryKey {
    This(Key),
    Integers,
    Atoms,
    NoKey,
}

/// A part of a map type, with the term of its values.
#[derive(Drop)]
pub(crate) struct Entry {
    pub key: EntryKey,
    pub required: bool,
    pub value: Term,
}

fn keys_of_type(name: &Text) -> EntryKey
    ensures { key_as result ≡ types.keys_of_type name.now }
{
    if is_text(name, b"integer") {
        EntryKey::Integers
    } else if is_text(name, b"atom") {
        EntryKey::Atoms
    } else {
        EntryKey::NoKey
    }
}

/// The key that a type expression is.
fn key_of(alloc: Global, key: &TypeKind) -> Result<EntryKey, NoMemory>
    ensures { IfOk result (λ k. key_as k ≡ types.key_layer (out-TypeKind key.now)) }
{
    match key {
        TypeKind::Atom(name) => Ok(EntryKey::This(Key::Atom(name.copy(alloc)?))),
        TypeKind::Int(number) => Ok(EntryKey::This(Key::Int(*number))),
        TypeKind::NegInt(number) => Ok(EntryKey::This(Key::Int(negated(*number)?))),
        TypeKind::Char(code) => Ok(EntryKey::This(Key::Int(i128::from(*code)))),
        TypeKind::Use { prefix, name, args } => {
            if prefix.is_none() && args.len() == 0 {
                Ok(keys_of_type(name))
            } else {
                Ok(EntryKey::NoKey)
            }
        }
        _ => Ok(EntryKey::NoKey),
    }
}

/// The same before `:=`, where only one key may stand.
fn required_key(key: EntryKey) -> EntryKey
    ensures { key_as result ≡ types.required_key (key_as key) }
{
    match key {
        EntryKey::This(key) => EntryKey::This(key),
        _ => EntryKey::NoKey,
    }
}

/// The key of a part of a map type.
fn map_key(alloc: Global, required: bool, key: &TypeKind) -> Result<EntryKey, NoMemory>
    ensures { IfOk result (λ k. key_as k ≡ types.map_key required key.now) }
{
    let key = key_of(alloc, key)?;
    if required {
        Ok(required_key(key))
    } else {
        Ok(key)
    }
}

/// The entry for a part of a map type, where it has a key and a term.
pub(crate) fn entry_of(
    alloc: Global,
    key: &TypeKind,
    required: bool,
    value: Option<Term>,
) -> Result<Option<Entry>, NoMemory>
    ensures { IfOk result (λ entry. option_map entry_as entry ≡ and_then value (λ own. types.entry_of (types.map_key required key.now) required own)) }
{
    match value {
        None => Ok(None),
        Some(value) => match map_key(alloc, required, key)? {
            EntryKey::NoKey => Ok(None),
            key => Ok(Some(Entry {
                key,
                required,
                value,
            })),
        },
    }
}

/// The parts of a map type's term: the fields from the last entry to the first, and the terms of all other keys' values.
#[derive(Drop)]
struct Parts {
    fields: Vec<Field>,
    rest_int: Option<Term>,
    rest_atom: Option<Term>,
}

impl Parts {
    /// Takes the entry before those that were taken.
    fn take(self, entry: Entry) -> Result<Parts, NoMemory>
        ensures { IfOk result (λ parts. IsTaken self entry parts) }
    {
        let mut parts = self;
        let Entry {
            key,
            required,
            value,
        } = entry;
        match key {
            EntryKey::This(key) => parts.fields.push(Field {
                key,
                required,
                term: value,
            })?,
            EntryKey::Integers => parts.rest_int = Some(value),
            EntryKey::Atoms => parts.rest_atom = Some(value),
            EntryKey::NoKey => {}
        }
        Ok(parts)
    }
}

fn boxed(alloc: Global, rest: Option<Term>) -> Result<Option<Boxed<Term>>, NoMemory>
    ensures { IfOk result (λ made. made ≡ rest) }
{
    match rest {
        None => Ok(None),
        Some(rest) => Ok(Some(Boxed::new(alloc, rest)?)),
    }
}

/// The term of a map type with these entries.
fn map_term(alloc: Global, entries: List<Entry>) -> Result<Term, NoMemory>
    ensures { IfOk result (λ term. term ≡ types.map_term (map entry_as entries)) }
{
    let mut entries = entries;
    let mut parts = Parts {
        fields: Vec::new(alloc),
        rest_int: None,
        rest_atom: None,
    };
    'entries: while let Some(entry) = entries.pop() {
        parts = parts.take(entry)?;
    }
    let fields = in_order(parts.fields)?;
    let rest_int = boxed(alloc, parts.rest_int)?;
    let rest_atom = boxed(alloc, parts.rest_atom)?;
    Ok(Term::Map {
        fields,
        rest_int,
        rest_atom,
    })
}

/// The term of a map type, where its parts have entries.
pub(crate) fn map_type(
    alloc: Global,
    entries: Option<List<Entry>>,
) -> Result<Option<Term>, NoMemory>
    ensures { IfOk result (λ term. term ≡ option_map types.map_term (option_map (map entry_as) entries)) }
{
    match entries {
        None => Ok(None),
        Some(entries) => Ok(Some(map_term(alloc, entries)?)),
    }
}
