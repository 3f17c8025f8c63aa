//! The terms of built-in types, and of the types with the prefix `ety`.

ghost use Rattle.std.specs.Prelude.{◌≡◌, IfOk, [], ◌∷◌};
ghost use Rattle.typespecs_rules.specs.BuiltInTypes as built_in;
ghost use Rattle.typespecs_rules.specs.TypeTerms as types;
ghost use Rattle.typespecs_built_ins.specs.PlainTypes as plain_types;
ghost use Rattle.typespecs_built_ins.specs.declared.plain.PlainType.TheVariants as variants;
ghost use Rattle.type_terms.specs.declared.term.Term.{AtomLit};

use crate::plain::{PlainType, plain_type};
use crate::text::is_text;
use sqlite_items::Boxed;
use std::alloc::Global;
use type_terms::{List, NoMemory, Plain, Term, Text};

/// The lists of a type.
///
/// # Errors
///
/// `NoMemory` where memory runs out.
pub fn list_of(alloc: Global, element: Term) -> Result<Term, NoMemory>
    ensures { IfOk result (λ t. t ≡ built_in.list_of element) }
{
    let mut args = List::new(alloc);
    args.push(element)?;
    Ok(Term::Name(0, args))
}

/// The lists of a type that aren't empty.
///
/// # Errors
///
/// `NoMemory` where memory runs out.
pub fn nonempty_list_of(alloc: Global, element: Term) -> Result<Term, NoMemory>
    ensures { IfOk result (λ t. t ≡ built_in.nonempty_list_of element) }
{
    let head = element.copy(alloc)?;
    let tail = list_of(alloc, element)?;
    let head = Boxed::new(alloc, head)?;
    let tail = Boxed::new(alloc, tail)?;
    Ok(Term::Cons(head, tail))
}

fn characters() -> Term
    ensures { result ≡ built_in.characters }
{
    Term::Ints(Some(0), Some(1114111))
}

fn atom(alloc: Global, name: &[u8]) -> Result<Term, NoMemory>
    ensures { IfOk result (λ t. t ≡ AtomLit name.now) }
{
    let name = Text::from_slice(alloc, name)?;
    Ok(Term::AtomLit(name))
}

fn pair(alloc: Global, first: Term, second: Term) -> Result<List<Term>, NoMemory>
    ensures { IfOk result (λ both. both ≡ first ∷ second ∷ []) }
{
    let mut both = List::new(alloc);
    both.push(first)?;
    both.push(second)?;
    Ok(both)
}

fn boolean(alloc: Global) -> Result<Term, NoMemory>
    ensures { IfOk result (λ t. t ≡ plain_types.plain_term variants.Boolean) }
{
    let yes = atom(alloc, b"true")?;
    let no = atom(alloc, b"false")?;
    Ok(Term::Or(pair(alloc, yes, no)?))
}

fn timeout(alloc: Global) -> Result<Term, NoMemory>
    ensures { IfOk result (λ t. t ≡ plain_types.plain_term variants.Timeout) }
{
    let infinity = atom(alloc, b"infinity")?;
    Ok(Term::Or(pair(alloc, infinity, Term::Ints(Some(0), None))?))
}

fn mfa(alloc: Global) -> Result<Term, NoMemory>
    ensures { IfOk result (λ t. t ≡ plain_types.plain_term variants.Mfa) }
{
    let mut parts = pair(alloc, Term::AnyAtom, Term::AnyAtom)?;
    parts.push(Term::Ints(Some(0), Some(255)))?;
    Ok(Term::Tuple(parts))
}

fn any_map(alloc: Global) -> Result<Term, NoMemory>
    ensures { IfOk result (λ t. t ≡ plain_types.plain_term variants.Map) }
{
    let rest_int = Boxed::new(alloc, Term::Any)?;
    let rest_atom = Boxed::new(alloc, Term::Any)?;
    Ok(Term::Map {
        fields: List::new(alloc),
        rest_int: Some(rest_int),
        rest_atom: Some(rest_atom),
    })
}

fn plain_term(alloc: Global, plain: PlainType) -> Result<Term, NoMemory>
    ensures { IfOk result (λ t. t ≡ plain_types.plain_term plain) }
{
    match plain {
        PlainType::Any => Ok(Term::Any),
        PlainType::None => Ok(Term::None),
        PlainType::Integer => Ok(Term::Ints(None, None)),
        PlainType::NotNegative => Ok(Term::Ints(Some(0), None)),
        PlainType::Positive => Ok(Term::Ints(Some(1), None)),
        PlainType::Negative => Ok(Term::Ints(None, Some(-1))),
        PlainType::Byte => Ok(Term::Ints(Some(0), Some(255))),
        PlainType::Char => Ok(characters()),
        PlainType::Atom => Ok(Term::AnyAtom),
        PlainType::Boolean => boolean(alloc),
        PlainType::Timeout => timeout(alloc),
        PlainType::Nil => Ok(Term::Nil),
        PlainType::List => list_of(alloc, Term::Any),
        PlainType::NonemptyList => nonempty_list_of(alloc, Term::Any),
        PlainType::String => list_of(alloc, characters()),
        PlainType::NonemptyString => nonempty_list_of(alloc, characters()),
        PlainType::Tuple => Ok(Term::AnyTuple),
        PlainType::Mfa => mfa(alloc),
        PlainType::Map => any_map(alloc),
        PlainType::Function => Ok(Term::AnyFun(None)),
    }
}

fn named_plain_term(alloc: Global, name: &Text) -> Result<Option<Term>, NoMemory>
    ensures { IfOk result (λ t. t ≡ built_in.term_among built_in.plain_types name.now) }
{
    match plain_type(name) {
        Some(plain) => Ok(Some(plain_term(alloc, plain)?)),
        None => Ok(None),
    }
}

fn list_type(alloc: Global, name: &Text, element: Term) -> Result<Option<Term>, NoMemory>
    ensures { IfOk result (λ t. t ≡ built_in.list_type name.now element) }
{
    if is_text(name, b"list") {
        Ok(Some(list_of(alloc, element)?))
    } else if is_text(name, b"nonempty_list") {
        Ok(Some(nonempty_list_of(alloc, element)?))
    } else {
        Ok(None)
    }
}

/// The term of a built-in type with these arguments, if there is such a type.
///
/// # Errors
///
/// `NoMemory` where memory runs out.
pub fn built_in_term(alloc: Global, name: &Text, args: List<Term>) -> Result<Option<Term>, NoMemory>
    ensures { IfOk result (λ t. t ≡ built_in.built_in_term name.now args) }
{
    let mut args = args;
    match args.len() {
        0 => named_plain_term(alloc, name),
        1 => match args.pop() {
            Some(element) => list_type(alloc, name, element),
            None => Ok(None),
        },
        _ => Ok(None),
    }
}

fn negation(alloc: Global, name: &Text, negated: Term) -> Result<Option<Term>, NoMemory>
    ensures { IfOk result (λ t. t ≡ types.set_operation name.now (negated ∷ [])) }
{
    if is_text(name, b"negation") {
        Ok(Some(Term::Not(Boxed::new(alloc, negated)?)))
    } else {
        Ok(None)
    }
}

/// The term of `ety:intersection(T, U)` or `ety:negation(T)`, by the name and the arguments; there is no other type with this
/// prefix.
///
/// # Errors
///
/// `NoMemory` where memory runs out.
pub fn set_operation(alloc: Global, name: &Text, args: List<Term>) -> Result<Option<Term>, NoMemory>
    ensures { IfOk result (λ t. t ≡ types.set_operation name.now args) }
{
    let mut args = args;
    match args.len() {
        1 => match args.pop() {
            Some(negated) => negation(alloc, name, negated),
            None => Ok(None),
        },
        2 => {
            if is_text(name, b"intersection") {
                Ok(Some(Term::And(args)))
            } else {
                Ok(None)
            }
        }
        _ => Ok(None),
    }
}
