ghost use Rattle.std.specs.Prelude.{drop, ◌≡◌, ◌≤◌, ◌<◌, ◌+◌, ◌++◌, length, OnOk};
ghost use Rattle.erl_scope_rules.specs.Occurrences.{names_of, unseen};
ghost use Rattle.erl_scope_stack.specs.State.{above, below};
ghost use Rattle.erl_scope_stack.specs.Between.{between};

use crate::Scope;
use crate::entries::{count_down, count_up, reaches, set_top};
use type_terms::NoMemory;

impl Scope {
    /// The name of a variable that is seen ended too.
    pub(crate) fn end_seen(&mut self, at: usize) -> Result<(), NoMemory>
        requires { at < length self.old.sees }
        ensures { OnOk result (self.new ≡ record { sees = self.old.sees; ended = names_of (between at (at + 1) self.old.sees) ++ self.old.ended; aside = self.old.aside }) }
    {
        let name = self.seen[at].name;
        self.behind.push(name)?;
        count_up(self.states.as_mut_slice(), name);
        Ok(())
    }

    /// The name of a variable that is seen is set aside too.
    pub(crate) fn set_seen_aside(&mut self, at: usize) -> Result<(), NoMemory>
        requires { at < length self.old.sees }
        ensures { OnOk result (self.new ≡ record { sees = self.old.sees; ended = self.old.ended; aside = names_of (between at (at + 1) self.old.sees) ++ self.old.aside }) }
    {
        let name = self.seen[at].name;
        self.beside.push(name)?;
        Ok(())
    }

    /// A name that ended is set aside too.
    pub(crate) fn set_ended_aside(&mut self, at: usize) -> Result<(), NoMemory>
        requires { at < length self.old.ended }
        ensures { OnOk result (self.new ≡ record { sees = self.old.sees; ended = self.old.ended; aside = between at (at + 1) self.old.ended ++ self.old.aside }) }
    {
        let name = self.behind[at];
        self.beside.push(name)?;
        Ok(())
    }

    /// A name that is set aside ended too.
    pub(crate) fn end_aside(&mut self, at: usize) -> Result<(), NoMemory>
        requires { at < length self.old.aside }
        ensures { OnOk result (self.new ≡ record { sees = self.old.sees; ended = between at (at + 1) self.old.aside ++ self.old.ended; aside = self.old.aside }) }
    {
        let name = self.beside[at];
        self.behind.push(name)?;
        count_up(self.states.as_mut_slice(), name);
        Ok(())
    }

    /// A name that is set aside ended too, unless it is among the variables seen above the first so many.
    pub(crate) fn end_unseen(&mut self, at: usize, seen: usize) -> Result<(), NoMemory>
        requires at { at < length self.old.aside }
        requires seen { seen ≤ length self.old.sees }
        ensures { OnOk result (self.new ≡ record { sees = self.old.sees; ended = unseen (above seen self.old.sees) (between at (at + 1) self.old.aside) ++ self.old.ended; aside = self.old.aside }) }
    {
        let name = self.beside[at];
        if reaches(self.states[name].top, seen) {
            return Ok(());
        }
        self.end_aside(at)
    }

    /// The latest variable is forgotten.
    pub(crate) fn pop_seen(&mut self)
        ensures { self.new ≡ record { sees = drop 1 self.old.sees; ended = self.old.ended; aside = self.old.aside } }
    {
        if let Some(entry) = self.seen.pop() {
            set_top(self.states.as_mut_slice(), entry.name, entry.below);
        }
    }

    /// The latest name that ended is forgotten.
    pub(crate) fn pop_ended(&mut self)
        ensures { self.new ≡ record { sees = self.old.sees; ended = drop 1 self.old.ended; aside = self.old.aside } }
    {
        if let Some(name) = self.behind.pop() {
            count_down(self.states.as_mut_slice(), name);
        }
    }

    /// The names set aside above the first so many are forgotten.
    pub(crate) fn forget_aside(&mut self, aside: usize)
        requires { aside ≤ length self.old.aside }
        ensures { self.new ≡ record { sees = self.old.sees; ended = self.old.ended; aside = below aside self.old.aside } }
    {
        self.beside.truncate(aside);
    }
}
