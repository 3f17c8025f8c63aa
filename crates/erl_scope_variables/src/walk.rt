//! What is in scope at a place of a text, and what was found of the variables up to there.

ghost use Rattle.std.specs.Prelude.{◌≡◌, ◌≤◌, [], ◌∷◌, ◌++◌, length, min, OnOk};
ghost use Rattle.erl_scope_rules.specs.Bindings.{innermost};
ghost use Rattle.erl_scope_rules.specs.Occurrences.{use_at, is_named_among};
ghost use Rattle.erl_scope_rules.specs.ScopeFaults.{stands_among};
ghost use Rattle.erl_scope_rules.specs.Resolution.{resolved_as};
ghost use Rattle.erl_scope_stack.specs.State.{above};
ghost use Rattle.erl_scope_rules.specs.declared.role.Role.TheVariants as roles;
ghost use Rattle.erl_scope_variables.specs.Outcomes.{resolved_at};
ghost use Rattle.erl_scope_variables.specs.Walks as walks;

use erl_scope_rules::{NameFault, Resolved, Role};
use erl_scope_stack::Scope;
use erl_tree::Place;
use std::alloc::Global;
use type_terms::{List, NoMemory, Text};

/// What is in scope, and what was found of the variables so far, in text order.
#[derive(Drop)]
pub(crate) struct Walk {
    pub scope: Scope,
    pub found: List<Resolved>,
}

/// A place in a text that is come back to, by how much is in scope there.
#[derive(Clone, Copy)]
pub(crate) struct Start {
    pub seen: usize,
    pub ended: usize,
    pub aside: usize,
}

fn lesser(left: usize, right: usize) -> usize
    ensures { result ≡ min left right }
{
    if left < right { left } else { right }
}

/// What became of a variable that a pattern meets, by where the binding stands that it sees outside, and by whether its
/// name has ended.
fn resolved_met(place: Place, outer: Option<Place>, has_ended: bool) -> Resolved
    ensures { result ≡ resolved_at roles.Met place outer has_ended }
{
    match outer {
        Some(outer) => Resolved {
            place,
            binding: Some(outer),
            binds: false,
            fault: None,
        },
        None => Resolved {
            place,
            binding: Some(place),
            binds: true,
            fault: if has_ended {
                Some(NameFault::Unsafe)
            } else {
                None
            },
        },
    }
}

/// What became of a variable that an expression uses.
fn resolved_use(place: Place, outer: Option<Place>, has_ended: bool) -> Resolved
    ensures { result ≡ resolved_at roles.Used place outer has_ended }
{
    match outer {
        Some(outer) => Resolved {
            place,
            binding: Some(outer),
            binds: false,
            fault: None,
        },
        None => Resolved {
            place,
            binding: None,
            binds: false,
            fault: if has_ended {
                Some(NameFault::Unsafe)
            } else {
                Some(NameFault::Unbound)
            },
        },
    }
}

/// What became of an occurrence in this role, by where the binding stands that it sees outside, and by whether its
/// name has ended.
fn resolved(role: Role, place: Place, outer: Option<Place>, has_ended: bool) -> Resolved
    ensures { result ≡ resolved_at role place outer has_ended }
{
    match role {
        Role::Used => resolved_use(place, outer, has_ended),
        Role::Met => resolved_met(place, outer, has_ended),
        Role::Renewed => Resolved {
            place,
            binding: Some(place),
            binds: true,
            fault: None,
        },
    }
}

impl Walk {
    /// Nothing is in scope, and nothing was found.
    pub fn new(alloc: Global) -> Walk
        ensures { result ≡ walks.at_first }
    {
        Walk {
            scope: Scope::new(alloc),
            found: List::new(alloc),
        }
    }

    pub fn start(&self) -> Start
        ensures { result ≡ walks.start_of self.now }
    {
        Start {
            seen: self.scope.seen(),
            ended: self.scope.ended(),
            aside: self.scope.aside(),
        }
    }

    /// The same place, or this one where less is in scope than there.
    fn within(&self, start: Start) -> Start
        ensures seen { result.seen ≡ min start.seen (length self.now.scope.sees) }
        ensures ended { result.ended ≡ min start.ended (length self.now.scope.ended) }
        ensures aside { result.aside ≡ min start.aside (length self.now.scope.aside) }
    {
        Start {
            seen: lesser(start.seen, self.scope.seen()),
            ended: lesser(start.ended, self.scope.ended()),
            aside: lesser(start.aside, self.scope.aside()),
        }
    }

    /// The variables since then aren't seen any more.
    pub fn unsee(&mut self, start: Start)
        ensures { self.new ≡ walks.unseen_since start self.old }
    {
        let here = self.start();
        let start = self.within(start);
        self.scope.keep_only(start.seen, here.ended, here.aside);
    }

    /// The head of a comprehension ended, which saw the variables since then.
    pub fn end_head(&mut self, start: Start) -> Result<(), NoMemory>
        ensures { OnOk result (self.new ≡ walks.head_ended_since start self.old) }
    {
        let start = self.within(start);
        self.scope.end_head(start.seen, start.ended)
    }

    /// A body ended that began there.
    pub fn end_body(&mut self, start: Start) -> Result<(), NoMemory>
        ensures { OnOk result (self.new ≡ walks.body_ended_since start self.old) }
    {
        let start = self.within(start);
        self.scope.end_body(start.seen)
    }

    /// One of several parts side by side ended that began there.
    pub fn set_aside(&mut self, start: Start) -> Result<(), NoMemory>
        ensures { OnOk result (self.new ≡ walks.part_aside_since start self.old) }
    {
        let start = self.within(start);
        self.scope.set_aside(start.seen, start.ended)
    }

    /// All of several parts side by side ended, of which the first began there.
    pub fn end_parts(&mut self, start: Start) -> Result<(), NoMemory>
        ensures { OnOk result (self.new ≡ walks.parts_ended_since start self.old) }
    {
        let start = self.within(start);
        self.scope.end_parts(start.aside)
    }

    /// What came into scope since then is forgotten.
    pub fn forget(&mut self, start: Start)
        ensures { self.new ≡ walks.forgotten_since start self.old }
    {
        let start = self.within(start);
        self.scope.keep_only(start.seen, start.ended, start.aside);
    }

    /// Whether a name stands among the variables seen that lie above the first so many.
    pub fn stands_since(&self, name: &Text, seen: usize) -> bool
        ensures { result ≡ is_named_among name.now (above seen self.now.scope.sees) }
    {
        self.scope
            .stands_above(name, lesser(seen, self.scope.seen()))
    }

    /// Notes what becomes of a variable that stands here in this role.
    pub fn resolve(&mut self, name: &Text, place: Place, role: Role) -> Result<(), NoMemory>
        ensures { OnOk result (self.new ≡ record { scope = self.old.scope; found = self.old.found ++ resolved_as (record { name = name.now; place = place; role = role }) (innermost name.now self.old.scope.sees) (stands_among name.now self.old.scope.ended) ∷ [] }) }
    {
        let outer = self.scope.binding(name);
        let has_ended = self.scope.has_ended(name);
        self.found.push(resolved(role, place, outer, has_ended))?;
        Ok(())
    }

    /// A use of a variable.
    pub fn use_variable(&mut self, name: &Text, place: Place) -> Result<(), NoMemory>
        ensures { OnOk result (self.new ≡ walks.after_part (use_at name.now place) self.old) }
    {
        self.resolve(name, place, Role::Used)
    }
}
