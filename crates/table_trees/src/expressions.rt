//! Expressions: each operation and construct stands in round brackets, and parentheses of the source
//! as `(paren E)`.

use crate::operators::{binary_text, unary_text};
use crate::pieces::Piece::{Glued, Number, Word};
use crate::pieces::{
    Piece, Waiting, add, add_between, add_call, add_cells, add_in, add_pair, add_record,
};
use crate::{clauses, patterns};
use erl_tree::{Assoc, AssocKind, Expr, ExprKind, FieldValue, Qualifier, QualifierKind};
use type_terms::{List, NoMemory, Text};

/// A part of the text of an expression.
#[derive(Clone, Copy)]
pub(crate) enum Part<'a> {
    One(&'a Expr),
    All(&'a [Expr]),
    Fields(&'a [FieldValue]),
    Assocs(&'a [Assoc]),
    Qualifiers(&'a [Qualifier]),
}

/// An expression.
pub(crate) fn one(expr: &Expr) -> Piece<'_> {
    Piece::Expression(Part::One(expr))
}

/// Expressions with spaces between them.
pub(crate) fn all(exprs: &List<Expr>) -> Piece<'_> {
    Piece::Expression(Part::All(exprs.as_slice()))
}

/// Fields of a record with their values.
fn values(fields: &List<FieldValue>) -> Piece<'_> {
    Piece::Expression(Part::Fields(fields.as_slice()))
}

/// Parts of a map.
fn assocs(parts: &List<Assoc>) -> Piece<'_> {
    Piece::Expression(Part::Assocs(parts.as_slice()))
}

/// Of a list its first element and the others wait, of an expression its parts.
pub(crate) fn expand<'a>(waiting: &mut Waiting<'a>, part: Part<'a>) -> Result<(), NoMemory> {
    match part {
        Part::One(expr) => add_expr(waiting, expr.kind.get()),
        Part::All([first, rest @ ..]) => {
            add(waiting, &[one(first), Piece::Expression(Part::All(rest))])
        }
        Part::Fields([first, rest @ ..]) => {
            let (name, value) = first.kind.get();
            let rest = Piece::Expression(Part::Fields(rest));
            add(
                waiting,
                &[Word(name.as_slice()), Word(b"="), one(value), rest],
            )
        }
        Part::Assocs([first, rest @ ..]) => {
            add(waiting, &[Piece::Expression(Part::Assocs(rest))])?;
            add_assoc(waiting, first.kind.get())
        }
        Part::Qualifiers([first, rest @ ..]) => {
            add(waiting, &[Piece::Expression(Part::Qualifiers(rest))])?;
            add_qualifier(waiting, first.kind.get())
        }
        Part::All([]) | Part::Fields([]) | Part::Assocs([]) | Part::Qualifiers([]) => Ok(()),
    }
}

fn add_expr<'a>(waiting: &mut Waiting<'a>, kind: &'a ExprKind) -> Result<(), NoMemory> {
    match kind {
        ExprKind::Atom(name) | ExprKind::Var(name) => add(waiting, &[Word(name.as_slice())]),
        ExprKind::Int(value) => add(waiting, &[Word(b""), Number(*value)]),
        ExprKind::Char(code) => add(waiting, &[Word(b"$"), Number(*code as i128)]),
        ExprKind::Str(text) => add(waiting, &[Piece::Quoted(text.as_slice())]),
        ExprKind::Paren(inner) => add_in(waiting, b"(paren", one(inner), b")"),
        ExprKind::Tuple(parts) => add_in(waiting, b"{", all(parts), b"}"),
        ExprKind::Cells(items, None) => add_in(waiting, b"[", all(items), b"]"),
        ExprKind::Cells(items, Some(tail)) => add_cells(waiting, all(items), one(tail)),
        ExprKind::Comp(head, parts) => add_comprehension(waiting, head, parts.as_slice()),
        ExprKind::Unary(operator, inner) => {
            add_pair(waiting, b"(unary", Word(unary_text(*operator)), one(inner))
        }
        ExprKind::Binary(operator, left, right) => {
            add_operation(waiting, binary_text(*operator), left, right)
        }
        ExprKind::Call { prefix, name, args } => add_call(waiting, prefix, name, all(args)),
        ExprKind::Apply(called, args) => add_pair(waiting, b"(apply", one(called), all(args)),
        ExprKind::MapNew(parts) => add_in(waiting, b"#{", assocs(parts), b"}"),
        ExprKind::MapChange(of, parts) => add_map_change(waiting, one(of), assocs(parts)),
        ExprKind::RecNew { name, tag, fields } => add_record(waiting, name, tag, values(fields)),
        ExprKind::RecChange { .. } | ExprKind::RecGet { .. } => add_record_use(waiting, kind),
        ExprKind::Begin(items) => add_in(waiting, b"(begin", clauses::items(items), b")"),
        ExprKind::Case(subject, parts) => {
            add_pair(waiting, b"(case", one(subject), clauses::all(parts))
        }
        ExprKind::If(parts) => add_in(waiting, b"(if", clauses::all(parts), b")"),
        ExprKind::FunName(name, arity) => add_fun_name(waiting, name, *arity),
        ExprKind::Fun(parts) => add_in(waiting, b"(fun", clauses::all(parts), b")"),
        ExprKind::Try { .. } => add_try(waiting, kind),
    }
}

/// `(OPERATOR L R)`.
fn add_operation<'a>(
    waiting: &mut Waiting<'a>,
    operator: &'a [u8],
    left: &'a Expr,
    right: &'a Expr,
) -> Result<(), NoMemory> {
    add(waiting, &[one(left), one(right), Glued(b")")])?;
    add(waiting, &[Word(b"("), Word(operator)])
}

/// `[E || QUALIFIERS]`.
fn add_comprehension<'a>(
    waiting: &mut Waiting<'a>,
    head: &'a Expr,
    qualifiers: &'a [Qualifier],
) -> Result<(), NoMemory> {
    let qualifiers = Piece::Expression(Part::Qualifiers(qualifiers));
    add(waiting, &[Word(b"||"), qualifiers, Glued(b"]")])?;
    add(waiting, &[Word(b"["), one(head)])
}

/// `(M #{PARTS})`.
fn add_map_change<'a>(
    waiting: &mut Waiting<'a>,
    of: Piece<'a>,
    parts: Piece<'a>,
) -> Result<(), NoMemory> {
    add(waiting, &[Word(b"("), of, Word(b"#{"), parts, Glued(b"})")])
}

/// `(R #name{FIELDS})`, or `(R #name.field)`.
fn add_record_use<'a>(waiting: &mut Waiting<'a>, kind: &'a ExprKind) -> Result<(), NoMemory> {
    match kind {
        ExprKind::RecChange {
            of,
            name,
            tag,
            fields,
        } => {
            add(waiting, &[Glued(b"{"), values(fields), Glued(b"})")])?;
            add(waiting, &[Word(b"("), one(of), Piece::Record(name, tag)])
        }
        ExprKind::RecGet {
            of,
            name,
            tag,
            field,
        } => {
            let field = Glued(field.as_slice());
            add(waiting, &[Glued(b"."), field, Glued(b")")])?;
            add(waiting, &[Word(b"("), one(of), Piece::Record(name, tag)])
        }
        _ => Ok(()),
    }
}

/// `(fun name/arity)`.
fn add_fun_name<'a>(
    waiting: &mut Waiting<'a>,
    name: &'a Text,
    arity: i128,
) -> Result<(), NoMemory> {
    add(waiting, &[Glued(b"/"), Number(arity), Glued(b")")])?;
    add(waiting, &[Word(b"(fun"), Word(name.as_slice())])
}

/// `(try ITEMS of CLAUSES catch CLAUSES after ITEMS)`, without the parts that are not there.
fn add_try<'a>(waiting: &mut Waiting<'a>, kind: &'a ExprKind) -> Result<(), NoMemory> {
    let ExprKind::Try {
        body,
        of_clauses,
        catches,
        after,
    } = kind
    else {
        return Ok(());
    };
    add(waiting, &[Glued(b")")])?;
    if let Some(items) = after {
        add(waiting, &[Word(b"after"), clauses::items(items)])?;
    }
    if !catches.is_empty() {
        add(waiting, &[Word(b"catch"), clauses::catches(catches)])?;
    }
    if !of_clauses.is_empty() {
        add(waiting, &[Word(b"of"), clauses::all(of_clauses)])?;
    }
    add(waiting, &[Word(b"(try"), clauses::items(body)])
}

/// `K := V` for a key that must be there, else `K => V`.
fn add_assoc<'a>(waiting: &mut Waiting<'a>, assoc: &'a AssocKind) -> Result<(), NoMemory> {
    let arrow: &'static [u8] = if assoc.exact { b":=" } else { b"=>" };
    add(waiting, &[Word(arrow), one(&assoc.value)])?;
    add(waiting, &[one(&assoc.key)])
}

/// `(P <- E)`, or a filter as it is.
fn add_qualifier<'a>(waiting: &mut Waiting<'a>, kind: &'a QualifierKind) -> Result<(), NoMemory> {
    match kind {
        QualifierKind::Filter(expr) => add(waiting, &[one(expr)]),
        QualifierKind::Generator(pattern, expr) => {
            add_between(waiting, patterns::one(pattern), b"<-", one(expr))
        }
    }
}
