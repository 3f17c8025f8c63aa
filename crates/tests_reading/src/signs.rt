//! Which terms are well signed. The test takes no memory.

use crate::simple::simple_defs;
use crate::terms::{add_def, boxed, name, name_of, not, one, one_field};
use std::alloc::Global;
use std::test::Fail;
use type_terms::{Def, DefFault, Defs, List, NoMemory, Term, well_signed};

/// `[] | {A, l(A)}`
fn list_body(alloc: Global) -> Result<Term, NoMemory> {
    let mut cell = one(alloc, Term::Var(0))?;
    cell.push(name_of(alloc, 0, Term::Var(0))?)?;
    let mut parts = one(alloc, Term::Nil)?;
    parts.push(Term::Tuple(cell))?;
    Ok(Term::Or(parts))
}

/// `{A, not A}`
fn pair_body(alloc: Global) -> Result<Term, NoMemory> {
    let mut pair = one(alloc, Term::Var(0))?;
    pair.push(not(alloc, Term::Var(0))?)?;
    Ok(Term::Tuple(pair))
}

/// `l(A) = [] | {A, l(A)}`, `n(A) = not A`, `p(A) = {A, not A}`, `d(A) = []` and `f = fun(() -> term())`.
fn signed_definitions(alloc: Global) -> Result<List<Def>, NoMemory> {
    let mut list = List::new(alloc);
    add_def(&mut list, 1, list_body(alloc)?)?;
    add_def(&mut list, 1, not(alloc, Term::Var(0))?)?;
    add_def(&mut list, 1, pair_body(alloc)?)?;
    add_def(&mut list, 1, Term::Nil)?;
    let fun = Term::Fun(List::new(alloc), boxed(alloc, Term::Any)?);
    add_def(&mut list, 0, fun)?;
    Ok(list)
}

fn judge(defs: &Defs, term: Term, answers: &mut List<bool>) -> Result<(), NoMemory> {
    answers.push(well_signed(&term, defs))?;
    Ok(())
}

/// Judges `l(A)`, `not A`, `n(A)`, `n(n(A))`, `p([])`, `p(A)` and `d(not A)`.
fn judge_variables(alloc: Global, defs: &Defs, found: &mut List<bool>) -> Result<(), NoMemory> {
    judge(defs, name_of(alloc, 0, Term::Var(0))?, found)?;
    judge(defs, not(alloc, Term::Var(0))?, found)?;
    judge(defs, name_of(alloc, 1, Term::Var(0))?, found)?;
    let negated = name_of(alloc, 1, Term::Var(0))?;
    judge(defs, name_of(alloc, 1, negated)?, found)?;
    judge(defs, name_of(alloc, 2, Term::Nil)?, found)?;
    judge(defs, name_of(alloc, 2, Term::Var(0))?, found)?;
    let unused = not(alloc, Term::Var(0))?;
    judge(defs, name_of(alloc, 3, unused)?, found)
}

/// Judges `f`, `not f`, `n(f)`, `not not f` and `not fun()`.
fn judge_funs(alloc: Global, defs: &Defs, found: &mut List<bool>) -> Result<(), NoMemory> {
    judge(defs, name(alloc, 4), found)?;
    judge(defs, not(alloc, name(alloc, 4))?, found)?;
    judge(defs, name_of(alloc, 1, name(alloc, 4))?, found)?;
    let negated = not(alloc, name(alloc, 4))?;
    judge(defs, not(alloc, negated)?, found)?;
    judge(defs, not(alloc, Term::AnyFun(None))?, found)
}

/// Judges `l()`, a name without a definition, and one in an argument that its definition doesn't use.
fn judge_names(alloc: Global, defs: &Defs, found: &mut List<bool>) -> Result<(), NoMemory> {
    judge(defs, name(alloc, 0), found)?;
    judge(defs, name(alloc, 5), found)?;
    judge(defs, name_of(alloc, 3, name(alloc, 5))?, found)
}

fn judged(alloc: Global) -> Result<List<bool>, DefFault> {
    let defs = simple_defs(alloc, signed_definitions(alloc)?)?;
    let mut found = List::new(alloc);
    judge_variables(alloc, &defs, &mut found)?;
    judge_funs(alloc, &defs, &mut found)?;
    judge_names(alloc, &defs, &mut found)?;
    Ok(found)
}

/// As many types as this.
const WIDE: u32 = 4096;

/// The variables `0` to `count - 1`.
fn variables(alloc: Global, count: u32) -> Result<List<Term>, NoMemory> {
    let mut terms = List::new(alloc);
    for number in 0..count {
        terms.push(Term::Var(number))?;
    }
    Ok(terms)
}

/// `w(A0, ..) = {A0, .., not Z}`, where Z is the last parameter; `v(A0, ..) = w(A0, ..)`; `m(A) = #{1 := A, atom() => A}`;
/// and a definition with as many parameters as there can be, whose body is `m([])`.
fn wide_definitions(alloc: Global) -> Result<List<Def>, NoMemory> {
    let mut list = List::new(alloc);
    let mut parts = variables(alloc, WIDE - 1)?;
    parts.push(not(alloc, Term::Var(WIDE - 1))?)?;
    add_def(&mut list, WIDE, Term::Tuple(parts))?;
    add_def(&mut list, WIDE, Term::Name(0, variables(alloc, WIDE)?))?;
    add_def(&mut list, 1, one_field(alloc)?)?;
    add_def(&mut list, u32::MAX, name_of(alloc, 2, Term::Nil)?)?;
    Ok(list)
}

/// `v([], .., A, .., [])` with the argument at a place.
fn wide_name(alloc: Global, place: u32) -> Result<Term, NoMemory> {
    let mut arguments = List::new(alloc);
    for number in 0..WIDE {
        if number == place {
            arguments.push(Term::Var(0))?;
        } else {
            arguments.push(Term::Nil)?;
        }
    }
    Ok(Term::Name(1, arguments))
}

/// Judges a wide name with a variable in the first, the last but one and the last place, and `m(A)` and
/// `m(not A)`.
fn judged_wide(alloc: Global) -> Result<List<bool>, DefFault> {
    let defs = simple_defs(alloc, wide_definitions(alloc)?)?;
    let mut found = List::new(alloc);
    judge(&defs, wide_name(alloc, 0)?, &mut found)?;
    judge(&defs, wide_name(alloc, WIDE - 2)?, &mut found)?;
    judge(&defs, wide_name(alloc, WIDE - 1)?, &mut found)?;
    judge(&defs, name_of(alloc, 2, Term::Var(0))?, &mut found)?;
    let negated = not(alloc, Term::Var(0))?;
    judge(&defs, name_of(alloc, 2, negated)?, &mut found)?;
    Ok(found)
}

#[test]
fn signs(rt: HostRuntime) -> Result<(), Fail> {
    let found = judged(rt.alloc()).ok().ok_or("refused")?;
    let variables = [true, false, false, true, true, false, true];
    let funs = [true, false, false, true, true];
    let names = [false, false, false];
    assert_eq!(rt; found.len(), 15);
    assert_eq!(rt; &found.as_slice()[..7], variables.as_slice());
    assert_eq!(rt; &found.as_slice()[7..12], funs.as_slice());
    assert_eq!(rt; &found.as_slice()[12..], names.as_slice());
    let found = judged_wide(rt.alloc()).ok().ok_or("refused")?;
    let wide = [true, true, false, true, false];
    assert_eq!(rt; found.as_slice(), wide.as_slice());
    Ok(())
}
