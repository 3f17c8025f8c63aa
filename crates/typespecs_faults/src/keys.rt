//! The keys of map types.

ghost use Rattle.std.specs.Prelude.{◌≡◌, ◌∷◌, [], List, length, not, IfOk, OnOk};
ghost use Rattle.std.specs.List.{list_any};
ghost use Rattle.typespecs_rules.specs.TypeTerms.{MapKey, map_key, key_layer, required_key};
ghost use Rattle.erl_tree.specs.declared.token.Node.{Node};
ghost use Rattle.erl_tree.specs.declared.type_expr.TypeKind.{TypeKind, out-TypeKind};
ghost use Rattle.erl_tree.specs.declared.type_expr.MapPart.{out-MapPart};
ghost use Rattle.typespecs_rules.specs.TypeFaults.{same_map_key, keys_faults, key_faults};
ghost use Rattle.typespecs_rules.specs.TypeFaults as faults;
ghost use Rattle.typespecs_rules.specs.Earliest.{earliest};
ghost use Rattle.typespecs_faults.specs.SeenKeys.{IsSeen, meant, use_key};

use crate::first::{First, note_unless};
use crate::ranges::negated;
use erl_tree::{MapPart, Node, Place, TypeKind};
use indexmap::IndexSet;
use std::alloc::Global;
use type_terms::{NoMemory, Text};
use typespecs_built_ins::is_text;
use typespecs_rules::{Outside, TypeFault};

/// What stands before `:=` or `=>`.
pub enum Key<'a> {
    Int(i128),
    Atom(&'a Text),
    AllIntegers,
    AllAtoms,
    None,
}

/// Keys that stand before one.
#[derive(Drop)]
pub struct SeenKeys<'a> {
    pub integers: IndexSet<i128>,
    pub atoms: IndexSet<&'a [u8]>,
    pub all_integers: bool,
    pub all_atoms: bool,
}

impl<'a> SeenKeys<'a> {
    /// No keys.
    fn new(alloc: Global) -> SeenKeys<'a>
        ensures { IsSeen result [] }
    {
        SeenKeys {
            integers: IndexSet::new(alloc),
            atoms: IndexSet::new(alloc),
            all_integers: false,
            all_atoms: false,
        }
    }

    /// Adds a key, and gives whether it is a new one.
    fn insert(&mut self, key: Key<'a>) -> Result<bool, NoMemory>
        ensures is_new { IfOk result (λ is_new. (before : List MapKey) → IsSeen self.old before → is_new ≡ not (list_any (same_map_key (meant key.entry)) before)) }
        ensures added { OnOk result ((before : List MapKey) → IsSeen self.old before → IsSeen self.new (meant key.entry ∷ before)) }
    {
        match key {
            Key::Int(number) => Ok(self.integers.insert(number)?),
            Key::Atom(name) => Ok(self.atoms.insert(name.as_slice())?),
            Key::AllIntegers => {
                let is_new = !self.all_integers;
                self.all_integers = true;
                Ok(is_new)
            }
            Key::AllAtoms => {
                let is_new = !self.all_atoms;
                self.all_atoms = true;
                Ok(is_new)
            }
            Key::None => Ok(true),
        }
    }
}

/// All integers or all atoms, by the name of their type.
fn key_of_name<'a>(name: &'a Text, count: usize) -> Key<'a>
    ensures { (args : List (Node TypeKind)) → count ≡ length args → meant result ≡ use_key name.now args }
{
    if count != 0 {
        Key::None
    } else if is_text(name, b"integer") {
        Key::AllIntegers
    } else if is_text(name, b"atom") {
        Key::AllAtoms
    } else {
        Key::None
    }
}

/// The key that a type expression is.
fn key_of<'a>(kind: &'a TypeKind) -> Result<Key<'a>, NoMemory>
    ensures { IfOk result (λ key. meant key ≡ key_layer (out-TypeKind kind.now)) }
{
    match kind {
        TypeKind::Atom(name) => Ok(Key::Atom(name)),
        TypeKind::Int(number) => Ok(Key::Int(*number)),
        TypeKind::NegInt(number) => Ok(Key::Int(negated(*number)?)),
        TypeKind::Char(code) => Ok(Key::Int(i128::from(*code))),
        TypeKind::Use { prefix, name, args } => match prefix {
            None => Ok(key_of_name(name, args.len())),
            Some(_) => Ok(Key::None),
        },
        _ => Ok(Key::None),
    }
}

/// The key of a part of a map type, which may be required.
fn key_of_part<'a>(part: &'a MapPart) -> Result<Key<'a>, NoMemory>
    ensures { IfOk result (λ key. meant key ≡ map_key (out-MapPart part.now).required (out-MapPart part.now).key.kind) }
{
    let key = key_of(part.key.kind.get())?;
    if part.required {
        return Ok(required(key));
    }
    Ok(key)
}

/// A key before `:=`.
fn required<'a>(key: Key<'a>) -> Key<'a>
    ensures { meant result ≡ required_key (meant key.entry) }
{
    match key {
        Key::AllIntegers => Key::None,
        Key::AllAtoms => Key::None,
        other => other,
    }
}

fn is_key(key: &Key<'_>) -> bool
    ensures { result ≡ faults.is_key (meant key.now) }
{
    match key {
        Key::None => false,
        _ => true,
    }
}

/// One key at a place, behind others, to which it is added.
fn note_key<'a>(
    seen: &mut SeenKeys<'a>,
    key: Key<'a>,
    place: Place,
    first: &mut First,
) -> Result<(), NoMemory>
    ensures noted { OnOk result ((before : List MapKey) → IsSeen seen.old before → first.new ≡ earliest first.old (key_faults before (meant key.entry) place)) }
    ensures added { OnOk result ((before : List MapKey) → IsSeen seen.old before → IsSeen seen.new (meant key.entry ∷ before)) }
{
    let is_key = is_key(&key);
    note_unless(
        first,
        is_key,
        place,
        TypeFault::OutOfProfile(Outside::MapKey),
    );
    let is_new = seen.insert(key)?;
    note_unless(first, is_new, place, TypeFault::Repeated);
    Ok(())
}

/// The keys of a map type.
pub fn note_keys(alloc: Global, parts: &[Node<MapPart>], first: &mut First) -> Result<(), NoMemory>
    ensures { OnOk result (first.new ≡ earliest first.old (keys_faults [] parts.now)) }
{
    let mut seen = SeenKeys::new(alloc);
    for part in parts {
        let kind = part.kind.get();
        let key = key_of_part(kind)?;
        note_key(&mut seen, key, kind.key.place, first)?;
    }
    Ok(())
}
