//! Which definitions the bodies name, and an order to look at them.

use crate::graph::{post_order, reversed};
use crate::list::{List, NoMemory};
use crate::open_table::mark_in;
use crate::term::{Def, Field, Term};
use sqlite_items::Boxed;
use std::alloc::Global;

/// For each definition, those that its body names, at any depth.
pub(crate) fn naming_graph(alloc: Global, defs: &[Def]) -> Result<Vec<List<u32>>, NoMemory> {
    let mut graph = Vec::new(alloc);
    for def in defs {
        let mut names = List::new(alloc);
        find_names(&def.body, &mut names)?;
        graph.push(names)?;
    }
    Ok(graph)
}

#[cycle(names)]
fn find_names(term: &Term, names: &mut List<u32>) -> Result<(), NoMemory> {
    match term {
        Term::Any
        | Term::None
        | Term::Ints(_, _)
        | Term::AtomLit(_)
        | Term::AnyAtom
        | Term::Nil
        | Term::AnyTuple
        | Term::AnyFun(_)
        | Term::Var(_) => Ok(()),
        Term::Cons(head, tail) => {
            find_names(head.get(), names)?;
            find_names(tail.get(), names)
        }
        Term::Tuple(parts) | Term::Or(parts) | Term::And(parts) => {
            find_names_in(parts.as_slice(), names)
        }
        Term::Map {
            fields,
            rest_int,
            rest_atom,
        } => {
            find_names_in_fields(fields.as_slice(), names)?;
            find_names_in_rest(rest_int, names)?;
            find_names_in_rest(rest_atom, names)
        }
        Term::Fun(params, given) => {
            find_names_in(params.as_slice(), names)?;
            find_names(given.get(), names)
        }
        Term::Not(negated) => find_names(negated.get(), names),
        Term::Name(number, arguments) => {
            names.push(*number)?;
            find_names_in(arguments.as_slice(), names)
        }
    }
}

#[cycle(names)]
fn find_names_in(terms: &[Term], names: &mut List<u32>) -> Result<(), NoMemory> {
    for term in terms {
        find_names(term, names)?;
    }
    Ok(())
}

#[cycle(names)]
fn find_names_in_fields(fields: &[Field], names: &mut List<u32>) -> Result<(), NoMemory> {
    for field in fields {
        find_names(&field.term, names)?;
    }
    Ok(())
}

#[cycle(names)]
fn find_names_in_rest(rest: &Option<Boxed<Term>>, names: &mut List<u32>) -> Result<(), NoMemory> {
    match rest {
        Some(term) => find_names(term.get(), names),
        None => Ok(()),
    }
}

/// The numbers of definitions whose bodies are still to be looked at, each once.
#[derive(Drop)]
pub(crate) struct Worklist {
    /// For each definition, those that name it.
    users: Vec<List<u32>>,
    waiting: List<u32>,
    is_waiting: List<bool>,
}

impl Worklist {
    /// All definitions, each after those that it names, except on a cycle.
    pub(crate) fn new(alloc: Global, graph: &[List<u32>]) -> Result<Worklist, NoMemory> {
        let users = reversed(alloc, graph)?;
        let mut order = post_order(alloc, graph)?;
        let mut waiting = List::new(alloc);
        let mut is_waiting = List::new(alloc);
        'turning: while let Some(number) = order.pop() {
            mark_in(&mut is_waiting, number as usize)?;
            waiting.push(number)?;
        }
        Ok(Worklist {
            users,
            waiting,
            is_waiting,
        })
    }

    /// The next one to be looked at.
    pub(crate) fn next(&mut self) -> Option<u32> {
        let number = self.waiting.pop()?;
        if (number as usize) < self.is_waiting.len() {
            self.is_waiting.set(number as usize, false);
        }
        Some(number)
    }

    /// Adds those that name a definition, of which something new was found.
    pub(crate) fn add_users(&mut self, number: u32) -> Result<(), NoMemory> {
        if let Some(list) = sqlite_items::at(&self.users, number as usize) {
            for user in list.as_slice() {
                add_waiting(*user, &mut self.waiting, &mut self.is_waiting)?;
            }
        }
        Ok(())
    }
}

fn add_waiting(
    number: u32,
    waiting: &mut List<u32>,
    is_waiting: &mut List<bool>,
) -> Result<(), NoMemory> {
    if is_waiting.get(number as usize) != Some(&true) {
        mark_in(is_waiting, number as usize)?;
        waiting.push(number)?;
    }
    Ok(())
}
