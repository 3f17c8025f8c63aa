//! Lists of many definitions, and definitions that are added to others.

use crate::simple::{are_simple, simple_defs};
use crate::terms::{add_def, boxed, name, name_of, one};
use std::alloc::Global;
use std::test::Fail;
use type_terms::{Def, DefFault, Defs, List, NoMemory, Term};

/// How the definitions of a list lead to each other.
#[derive(Clone, Copy)]
enum Shape {
    /// Each is the next one or `a`, and the last one `[]`.
    Chain,
    /// Each is a tuple of the next one, and the last one of the first.
    ThroughTuples,
    /// Each is the one before or `[]`, and the first one a fun type.
    BackChain,
    /// Each is the next one, and the last one the first.
    Cycle,
    /// Each is the next one, and the last one itself.
    CycleAtLast,
    /// The last one has a name that isn't defined.
    Undefined,
}

fn body(alloc: Global, shape: Shape, next: u32, count: u32) -> Result<Term, NoMemory> {
    let is_last = next == count;
    let around = if is_last { 0 } else { next };
    match shape {
        Shape::Chain => {
            if is_last {
                return Ok(Term::Nil);
            }
            let mut parts = one(alloc, name(alloc, next))?;
            parts.push(Term::AtomLit(List::from_slice(alloc, b"a".as_slice())?))?;
            Ok(Term::Or(parts))
        }
        Shape::BackChain => {
            if next == 1 {
                return Ok(Term::Fun(List::new(alloc), boxed(alloc, Term::Any)?));
            }
            let mut parts = one(alloc, name(alloc, next.wrapping_sub(2)))?;
            parts.push(Term::Nil)?;
            Ok(Term::Or(parts))
        }
        Shape::ThroughTuples => Ok(Term::Tuple(one(alloc, name(alloc, around))?)),
        Shape::Cycle => Ok(name(alloc, around)),
        Shape::CycleAtLast => Ok(name(alloc, next.min(count.saturating_sub(1)))),
        Shape::Undefined => Ok(name(alloc, next)),
    }
}

fn definitions(alloc: Global, shape: Shape, count: u32) -> Result<List<Def>, NoMemory> {
    let mut list = List::new(alloc);
    for number in 0..count {
        let body = body(alloc, shape, number.wrapping_add(1), count)?;
        list.push(Def { params: 0, body })?;
    }
    Ok(list)
}

/// As what such definitions are refused, if they are.
fn fault_of(alloc: Global, shape: Shape, count: u32) -> Result<Option<DefFault>, NoMemory> {
    let list = definitions(alloc, shape, count)?;
    match simple_defs(alloc, list) {
        Ok(_) => Ok(None),
        Err(fault) => Ok(Some(fault)),
    }
}

#[test]
fn lists_of_definitions(rt: HostRuntime) -> Result<(), Fail> {
    let alloc = rt.alloc();
    for (shape, count, fault) in [
        (Shape::Chain, 4096, None),
        (Shape::ThroughTuples, 4096, None),
        (Shape::BackChain, 4096, None),
        (Shape::Cycle, 4096, Some(DefFault::NotContractive(0))),
        (
            Shape::CycleAtLast,
            4096,
            Some(DefFault::NotContractive(4095)),
        ),
        (Shape::Undefined, 512, Some(DefFault::NoName(512))),
    ] {
        assert!(rt; fault_of(alloc, shape, count)? == fault);
    }
    Ok(())
}

/// What is added to two definitions of a chain.
#[derive(Clone, Copy)]
enum Added {
    /// `t(A) = {c0}` and `u = c0`.
    Old,
    /// `t(A) = []` and `u = t`, without the argument.
    WithoutArgument,
    /// `t(A) = A` and `u = t(u)`.
    ThroughArgument,
}

fn added_list(alloc: Global, added: Added) -> Result<List<Def>, NoMemory> {
    let (first, second) = match added {
        Added::Old => (Term::Tuple(one(alloc, name(alloc, 0))?), name(alloc, 0)),
        Added::WithoutArgument => (Term::Nil, name(alloc, 2)),
        Added::ThroughArgument => (Term::Var(0), name_of(alloc, 2, name(alloc, 3))?),
    };
    let mut list = List::new(alloc);
    add_def(&mut list, 1, first)?;
    add_def(&mut list, 0, second)?;
    Ok(list)
}

/// Adds definitions to two of a chain.
fn with_added(alloc: Global, added: Added) -> Result<(Defs, Option<DefFault>), DefFault> {
    let whole = definitions(alloc, Shape::Chain, 2)?;
    let more = added_list(alloc, added)?;
    if !are_simple(more.as_slice()) {
        return Err(DefFault::NoMemory);
    }
    let mut defs = simple_defs(alloc, whole)?;
    match defs.add(more) {
        Ok(()) => Ok((defs, None)),
        Err(fault) => Ok((defs, Some(fault))),
    }
}

#[test]
fn added_definitions(rt: HostRuntime) -> Result<(), Fail> {
    // The last definition that stands afterwards, and the fault.
    for (added, last, wanted) in [
        (Added::Old, 3, None),
        (Added::WithoutArgument, 1, Some(DefFault::NoName(2))),
        (Added::ThroughArgument, 1, Some(DefFault::NotContractive(3))),
    ] {
        let (defs, fault) = with_added(rt.alloc(), added).ok().ok_or("refused")?;
        assert!(rt; fault == wanted);
        assert!(rt; defs.get(last).is_some());
        assert!(rt; defs.get(last.wrapping_add(1)).is_none());
    }
    Ok(())
}
