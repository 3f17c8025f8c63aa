ghost use Rattle.std.specs.Prelude.{◌≡◌, ◌≤◌, ◌++◌, length, OnOk};
ghost use Rattle.erl_scope_rules.specs.Occurrences.{names_of, unseen};
ghost use Rattle.erl_scope_stack.specs.State.{above, below};

use crate::Scope;
use type_terms::NoMemory;

impl Scope {
    /// The names of the variables seen above the first so many ended too.
    pub(crate) fn end_all_seen(&mut self, seen: usize) -> Result<(), NoMemory>
        requires { seen ≤ length self.old.sees }
        ensures { OnOk result (self.new ≡ record { sees = self.old.sees; ended = names_of (above seen self.old.sees) ++ self.old.ended; aside = self.old.aside }) }
    {
        for at in seen..self.seen() {
            self.end_seen(at)?;
        }
        Ok(())
    }

    /// The names of the variables seen above the first so many are set aside too.
    pub(crate) fn set_all_seen_aside(&mut self, seen: usize) -> Result<(), NoMemory>
        requires { seen ≤ length self.old.sees }
        ensures { OnOk result (self.new ≡ record { sees = self.old.sees; ended = self.old.ended; aside = names_of (above seen self.old.sees) ++ self.old.aside }) }
    {
        for at in seen..self.seen() {
            self.set_seen_aside(at)?;
        }
        Ok(())
    }

    /// The names that ended above the first so many are set aside too.
    pub(crate) fn set_all_ended_aside(&mut self, ended: usize) -> Result<(), NoMemory>
        requires { ended ≤ length self.old.ended }
        ensures { OnOk result (self.new ≡ record { sees = self.old.sees; ended = self.old.ended; aside = above ended self.old.ended ++ self.old.aside }) }
    {
        for at in ended..self.ended() {
            self.set_ended_aside(at)?;
        }
        Ok(())
    }

    /// The names set aside above the first so many ended too.
    pub(crate) fn end_all_aside(&mut self, aside: usize) -> Result<(), NoMemory>
        requires { aside ≤ length self.old.aside }
        ensures { OnOk result (self.new ≡ record { sees = self.old.sees; ended = above aside self.old.aside ++ self.old.ended; aside = self.old.aside }) }
    {
        for at in aside..self.aside() {
            self.end_aside(at)?;
        }
        Ok(())
    }

    /// The names set aside above the first so many ended too, but for those of the variables seen above these.
    pub(crate) fn end_all_unseen(&mut self, aside: usize, seen: usize) -> Result<(), NoMemory>
        requires aside { aside ≤ length self.old.aside }
        requires seen { seen ≤ length self.old.sees }
        ensures { OnOk result (self.new ≡ record { sees = self.old.sees; ended = unseen (above seen self.old.sees) (above aside self.old.aside) ++ self.old.ended; aside = self.old.aside }) }
    {
        for at in aside..self.aside() {
            self.end_unseen(at, seen)?;
        }
        Ok(())
    }

    /// The variables seen above the first so many are forgotten.
    pub(crate) fn forget_seen(&mut self, seen: usize)
        requires { seen ≤ length self.old.sees }
        ensures { self.new ≡ record { sees = below seen self.old.sees; ended = self.old.ended; aside = self.old.aside } }
    {
        for _at in seen..self.seen() {
            self.pop_seen();
        }
    }

    /// The names that ended above the first so many are forgotten.
    pub(crate) fn forget_ended(&mut self, ended: usize)
        requires { ended ≤ length self.old.ended }
        ensures { self.new ≡ record { sees = self.old.sees; ended = below ended self.old.ended; aside = self.old.aside } }
    {
        for _at in ended..self.ended() {
            self.pop_ended();
        }
    }
}
