//! Forms and modules: each form, each field of a record, each clause of a spec and each bound stands in
//! round brackets. An attribute that means nothing is shown by its tokens.

use crate::pieces::Piece::{Glued, Number, Word};
use crate::pieces::{Piece, Waiting, add, add_between, add_in, add_pair};
use crate::{clauses, expressions, types};
use erl_tree::{
    ExportKind, Module, Node, RecDefKind, RecFieldKind, SpecClause, SpecClauseKind, Token,
    TreeForm, TypeDefKind, TypeExpr,
};
use type_terms::{List, NoMemory, Text};

/// A part of the text of a module.
#[derive(Clone, Copy)]
pub(crate) enum Part<'a> {
    Module(&'a Module),
    Forms(&'a [TreeForm]),
    Names(&'a [(Text, i128)]),
    Fields(&'a [Node<RecFieldKind>]),
    Variables(&'a [Text]),
    Specs(&'a [SpecClause]),
    Bounds(&'a [(Text, TypeExpr)]),
    Tokens(&'a [Token]),
}

/// A module.
pub(crate) fn module(module: &Module) -> Piece<'_> {
    Piece::Form(Part::Module(module))
}

/// Forms with spaces between them.
pub(crate) fn all(forms: &List<TreeForm>) -> Piece<'_> {
    Piece::Form(Part::Forms(forms.as_slice()))
}

/// Of a list its first element and the others wait, of a module its parts.
pub(crate) fn expand<'a>(waiting: &mut Waiting<'a>, part: Part<'a>) -> Result<(), NoMemory> {
    match part {
        Part::Module(module) => {
            let name = Word(module.name.as_slice());
            add_pair(waiting, b"(module", name, all(&module.forms))
        }
        Part::Forms([first, rest @ ..]) => {
            add(waiting, &[Piece::Form(Part::Forms(rest))])?;
            add_form(waiting, first)
        }
        Part::Variables([first, rest @ ..]) => {
            let rest = Piece::Form(Part::Variables(rest));
            add(waiting, &[Word(first.as_slice()), rest])
        }
        Part::Fields([first, rest @ ..]) => {
            add(waiting, &[Piece::Form(Part::Fields(rest))])?;
            add_field(waiting, first.kind.get())
        }
        Part::Specs([first, rest @ ..]) => {
            add(waiting, &[Piece::Form(Part::Specs(rest))])?;
            add_spec_clause(waiting, first.kind.get())
        }
        Part::Tokens([first, rest @ ..]) => {
            add(waiting, &[Piece::Form(Part::Tokens(rest))])?;
            add_token(waiting, first)
        }
        Part::Names(names) => expand_names(waiting, names),
        Part::Bounds(bounds) => expand_bounds(waiting, bounds),
        Part::Forms([])
        | Part::Variables([])
        | Part::Fields([])
        | Part::Specs([])
        | Part::Tokens([]) => Ok(()),
    }
}

/// `name/arity` and the others.
fn expand_names<'a>(waiting: &mut Waiting<'a>, names: &'a [(Text, i128)]) -> Result<(), NoMemory> {
    let [(name, arity), rest @ ..] = names else {
        return Ok(());
    };
    let name = Word(name.as_slice());
    let rest = Piece::Form(Part::Names(rest));
    add(waiting, &[name, Glued(b"/"), Number(*arity), rest])
}

/// `(X :: T)` and the others.
fn expand_bounds<'a>(
    waiting: &mut Waiting<'a>,
    bounds: &'a [(Text, TypeExpr)],
) -> Result<(), NoMemory> {
    let [(name, bound), rest @ ..] = bounds else {
        return Ok(());
    };
    add(waiting, &[Piece::Form(Part::Bounds(rest))])?;
    let name = Word(name.as_slice());
    add_between(waiting, name, b"::", types::one(bound))
}

fn add_form<'a>(waiting: &mut Waiting<'a>, form: &'a TreeForm) -> Result<(), NoMemory> {
    match form {
        TreeForm::Export(node) => add_export(waiting, node.kind.get()),
        TreeForm::RecDef(node) => add_record_definition(waiting, node.kind.get()),
        TreeForm::TypeDef(node) => add_type_definition(waiting, node.kind.get()),
        TreeForm::Spec(node) => {
            let kind = node.kind.get();
            let clauses = Piece::Form(Part::Specs(kind.clauses.as_slice()));
            add_pair(waiting, b"(spec", Word(kind.name.as_slice()), clauses)
        }
        TreeForm::Skipped(node) => {
            let kind = node.kind.get();
            let tokens = Piece::Form(Part::Tokens(kind.tokens.as_slice()));
            add_pair(waiting, b"(skipped", Word(kind.name.as_slice()), tokens)
        }
        TreeForm::Function(function) => {
            let name = Word(function.name.as_slice());
            add_pair(waiting, b"(function", name, clauses::all(&function.clauses))
        }
    }
}

/// `(export NAMES)`, or `(export_type NAMES)`.
fn add_export<'a>(waiting: &mut Waiting<'a>, kind: &'a ExportKind) -> Result<(), NoMemory> {
    let opening: &'static [u8] = if kind.types {
        b"(export_type"
    } else {
        b"(export"
    };
    let names = Piece::Form(Part::Names(kind.names.as_slice()));
    add_in(waiting, opening, names, b")")
}

/// `(record name FIELDS)`, with the first element of the record's tuples behind the name where it
/// differs, which no text has.
fn add_record_definition<'a>(
    waiting: &mut Waiting<'a>,
    kind: &'a RecDefKind,
) -> Result<(), NoMemory> {
    let fields = Piece::Form(Part::Fields(kind.fields.as_slice()));
    add(waiting, &[fields, Glued(b")")])?;
    let name = kind.name.as_slice();
    let tag = kind.tag.as_slice();
    if name != tag {
        add(waiting, &[Word(tag)])?;
    }
    add(waiting, &[Word(b"(record"), Word(name)])
}

/// `(name = E :: T)`, without the parts that are not there.
fn add_field<'a>(waiting: &mut Waiting<'a>, field: &'a RecFieldKind) -> Result<(), NoMemory> {
    add(waiting, &[Glued(b")")])?;
    if let Some(ty) = &field.ty {
        add(waiting, &[Word(b"::"), types::one(ty)])?;
    }
    if let Some(value) = &field.default {
        add(waiting, &[Word(b"="), expressions::one(value)])?;
    }
    add(waiting, &[Word(b"("), Word(field.name.as_slice())])
}

/// `(type name (VARIABLES) :: T)`, or the same with `opaque`.
fn add_type_definition<'a>(
    waiting: &mut Waiting<'a>,
    kind: &'a TypeDefKind,
) -> Result<(), NoMemory> {
    add_in(waiting, b"::", types::one(&kind.body), b")")?;
    let variables = Piece::Form(Part::Variables(kind.params.as_slice()));
    add_in(waiting, b"(", variables, b")")?;
    let opening: &'static [u8] = if kind.opaque { b"(opaque" } else { b"(type" };
    add(waiting, &[Word(opening), Word(kind.name.as_slice())])
}

/// `(TYPES -> T when BOUNDS)`, without `when` where there are no bounds.
fn add_spec_clause<'a>(
    waiting: &mut Waiting<'a>,
    clause: &'a SpecClauseKind,
) -> Result<(), NoMemory> {
    add(waiting, &[Glued(b")")])?;
    if !clause.bounds.is_empty() {
        let bounds = Piece::Form(Part::Bounds(clause.bounds.as_slice()));
        add(waiting, &[Word(b"when"), bounds])?;
    }
    add(waiting, &[Word(b"->"), types::one(&clause.result)])?;
    add(waiting, &[Word(b"("), types::all(&clause.params)])
}

fn add_token<'a>(waiting: &mut Waiting<'a>, token: &'a Token) -> Result<(), NoMemory> {
    match token {
        Token::Atom(text) | Token::Var(text) | Token::Word(text) | Token::Mark(text) => {
            add(waiting, &[Word(text.as_slice())])
        }
        Token::Int(value) => add(waiting, &[Word(b""), Number(*value)]),
        Token::Char(code) => add(waiting, &[Word(b"$"), Number(*code as i128)]),
        Token::Str(text) => add(waiting, &[Piece::Quoted(text.as_slice())]),
        Token::Dot => add(waiting, &[Word(b"dot")]),
        Token::End => add(waiting, &[Word(b"end of text")]),
    }
}
