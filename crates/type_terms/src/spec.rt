use crate::list::{List, NoMemory, Text};
use crate::plain::Plain;
use crate::term::Term;
use std::alloc::Global;

/// Why a constraint is owed.
#[derive(Clone, Copy, Debug, PartialEq, Eq)]
pub enum Kind {
    /// A clause is skipped: nothing may reach it.
    Skip,
    /// A pattern's variables have the types that were given for them.
    Variable,
    /// Every value is taken by some clause.
    Uncovered,
    /// A body gives what the spec says.
    Result,
    /// An operand is in its operator's domain.
    Operand,
    /// A value is a proper list.
    List,
    /// A part of a value has the type that was given for it.
    Part,
    /// A call is within the callee's spec.
    Call,
    /// An application is within the fun's type.
    Apply,
    /// A key has the kind that was given for it.
    Key,
    /// A map has the type that was given for it before it is changed.
    Update,
    /// A filter gives a boolean.
    Filter,
}

/// One clause of a spec: parameters and result.
#[derive(Drop)]
pub struct Arrow {
    pub params: List<Term>,
    pub result: Term,
}

/// A function's spec: the intersection of its clauses, over the variables `0` to `vars - 1`.
#[derive(Drop)]
pub struct FunSpec {
    pub name: Text,
    pub arity: u32,
    pub vars: u32,
    pub clauses: List<Arrow>,
}

impl Plain for Kind {
    fn copy(&self, _alloc: Global) -> Result<Kind, NoMemory> {
        Ok(*self)
    }
}

impl Plain for Arrow {
    fn copy(&self, alloc: Global) -> Result<Arrow, NoMemory> {
        let params = self.params.copy(alloc)?;
        let result = self.result.copy(alloc)?;
        Ok(Arrow { params, result })
    }
}

impl Plain for FunSpec {
    fn copy(&self, alloc: Global) -> Result<FunSpec, NoMemory> {
        let name = self.name.copy(alloc)?;
        let clauses = self.clauses.copy(alloc)?;
        Ok(FunSpec {
            name,
            arity: self.arity,
            vars: self.vars,
            clauses,
        })
    }
}
