//! What is in scope at a place of a text, with look-ups by name.
#![tactic(auto)]

ghost use Rattle.std.specs.Prelude.{◌≡◌, ◌≤◌, length, OnOk};
ghost use Rattle.std.specs.Option.{option_map};
ghost use Rattle.erl_scope_rules.specs.Bindings.{innermost};
ghost use Rattle.erl_scope_rules.specs.Occurrences.{is_named_among};
ghost use Rattle.erl_scope_rules.specs.ScopeFaults.{stands_among};
ghost use Rattle.erl_scope_stack.specs.State.{nothing, above, with_mark, with_body_ended, with_part_aside, with_parts_ended, with_only, with_head_ended};

mod entries;
mod names;
mod segments;
mod steps;

use crate::entries::{NameState, Seen, binding_at, binding_by_role, make_room, reaches, set_top};
use crate::names::NumberedNames;
use erl_scope_rules::Role;
use erl_tree::Place;
use std::alloc::Global;
use std::marker::Model;
use type_terms::{NoMemory, Text};

/// The variables that are seen at a place of a text, the names that ended before it, and those that are
/// set aside. Contracts see it as these three lists, each with the latest first.
///
/// A look-up by name takes one look-up in a hash table, however many variables are seen. A name that was
/// seen once keeps its number.
#[derive(Drop)]
pub struct Scope {
    names: NumberedNames,
    /// What is known of each name, by its number; one more may stand at the end.
    states: Vec<NameState>,
    seen: Vec<Seen>,
    /// The numbers of the names that ended.
    behind: Vec<usize>,
    /// The numbers of the names that are set aside.
    beside: Vec<usize>,
}

impl Model for Scope {
    ghost use Rattle.erl_scope_stack.specs.State.{State};

    ghost Value = { State };

    ghost use Rattle.erl_scope_stack.specs.Stored.{stored};
    ghost use Rattle.erl_scope_stack.specs.Indexed.{AreIndexed};

    ghost view = { λ s. stored s.names s.seen.items s.behind.items s.beside.items };

    ghost invariant = { λ s. AreIndexed s.names s.states.items s.seen.items s.behind.items s.beside.items };
}

impl Scope {
    /// A scope in which nothing is seen.
    pub fn new(alloc: Global) -> Scope
        ensures { result ≡ nothing }
    {
        Scope {
            names: NumberedNames::new(alloc),
            states: Vec::new(alloc),
            seen: Vec::new(alloc),
            behind: Vec::new(alloc),
            beside: Vec::new(alloc),
        }
    }

    /// The number of variables that are seen, to come back to by `end_body`, `set_aside` or `keep_only`.
    pub fn seen(&self) -> usize
        ensures { result ≡ length self.now.sees }
    {
        self.seen.len()
    }

    /// The number of names that ended.
    pub fn ended(&self) -> usize
        ensures { result ≡ length self.now.ended }
    {
        self.behind.len()
    }

    /// The number of names that are set aside.
    pub fn aside(&self) -> usize
        ensures { result ≡ length self.now.aside }
    {
        self.beside.len()
    }

    /// Where the innermost binding of a name stands, among the variables that are seen.
    pub fn binding(&self, name: &Text) -> Option<Place>
        ensures { result ≡ option_map (λ m. m.place) (innermost name.now self.now.sees) }
    {
        match self.names.number(name) {
            None => None,
            Some(number) => binding_at(self.seen.as_slice(), self.states[number].top),
        }
    }

    /// Whether a name is among those that ended.
    pub fn has_ended(&self, name: &Text) -> bool
        ensures { result ≡ stands_among name.now self.now.ended }
    {
        match self.names.number(name) {
            None => false,
            Some(number) => self.states[number].ended > 0,
        }
    }

    /// Whether a name stands among the variables seen that lie above the first so many.
    pub fn stands_above(&self, name: &Text, seen: usize) -> bool
        requires { seen ≤ length self.now.sees }
        ensures { result ≡ is_named_among name.now (above seen self.now.sees) }
    {
        match self.names.number(name) {
            None => false,
            Some(number) => reaches(self.states[number].top, seen),
        }
    }

    /// One more variable is seen.
    ///
    /// # Errors
    ///
    /// `NoMemory` where memory runs out.
    pub fn see(
        &mut self,
        alloc: Global,
        name: &Text,
        place: Place,
        role: Role,
    ) -> Result<(), NoMemory>
        ensures { OnOk result (self.new ≡ with_mark (record { name = name.now; place = place; role = role }) self.old) }
    {
        make_room(&mut self.states, self.names.len())?;
        let number = self.names.add(alloc, name)?;
        let below = self.states[number].top;
        let outer = binding_at(self.seen.as_slice(), below);
        let count = self.seen.len();
        self.seen.push(Seen {
            name: number,
            place,
            role,
            binding: binding_by_role(role, place, outer),
            below,
        })?;
        set_top(self.states.as_mut_slice(), number, Some(count));
        Ok(())
    }

    /// A body ended, before which so many variables were seen: its own aren't seen any more, and have ended.
    ///
    /// # Errors
    ///
    /// `NoMemory` where memory runs out.
    pub fn end_body(&mut self, seen: usize) -> Result<(), NoMemory>
        requires { seen ≤ length self.old.sees }
        ensures { OnOk result (self.new ≡ with_body_ended seen self.old) }
    {
        self.end_all_seen(seen)?;
        self.forget_seen(seen);
        Ok(())
    }

    /// One of several parts side by side ended, before which so many variables were seen and so many names had
    /// ended: what it left is set aside.
    ///
    /// # Errors
    ///
    /// `NoMemory` where memory runs out.
    pub fn set_aside(&mut self, seen: usize, ended: usize) -> Result<(), NoMemory>
        requires seen { seen ≤ length self.old.sees }
        requires ended { ended ≤ length self.old.ended }
        ensures { OnOk result (self.new ≡ with_part_aside seen ended self.old) }
    {
        self.set_all_ended_aside(ended)?;
        self.set_all_seen_aside(seen)?;
        self.forget_ended(ended);
        self.forget_seen(seen);
        Ok(())
    }

    /// All of several parts side by side ended, before which so many names were set aside: what they set aside
    /// has ended.
    ///
    /// # Errors
    ///
    /// `NoMemory` where memory runs out.
    pub fn end_parts(&mut self, aside: usize) -> Result<(), NoMemory>
        requires { aside ≤ length self.old.aside }
        ensures { OnOk result (self.new ≡ with_parts_ended aside self.old) }
    {
        self.end_all_aside(aside)?;
        self.forget_aside(aside);
        Ok(())
    }

    /// The head of a comprehension ended, outside of which so many variables are seen and so many names had ended:
    /// the variables above aren't seen any more, and their names are not among those that ended in the head.
    ///
    /// # Errors
    ///
    /// `NoMemory` where memory runs out.
    pub fn end_head(&mut self, seen: usize, ended: usize) -> Result<(), NoMemory>
        requires seen { seen ≤ length self.old.sees }
        requires ended { ended ≤ length self.old.ended }
        ensures { OnOk result (self.new ≡ with_head_ended seen ended self.old) }
    {
        let aside = self.aside();
        self.set_all_ended_aside(ended)?;
        self.forget_ended(ended);
        self.end_all_unseen(aside, seen)?;
        self.forget_aside(aside);
        self.forget_seen(seen);
        Ok(())
    }

    /// What lies above these counts is forgotten.
    pub fn keep_only(&mut self, seen: usize, ended: usize, aside: usize)
        requires seen { seen ≤ length self.old.sees }
        requires ended { ended ≤ length self.old.ended }
        requires aside { aside ≤ length self.old.aside }
        ensures { self.new ≡ with_only seen ended aside self.old }
    {
        self.forget_seen(seen);
        self.forget_ended(ended);
        self.forget_aside(aside);
    }
}
