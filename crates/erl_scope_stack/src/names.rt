ghost use Rattle.std.specs.Prelude.{◌≡◌, [], length, IfOk};
ghost use Rattle.erl_scope_stack.specs.Named.{IsNumber, HasNumber, IsGrown};

use indexmap::IndexSet;
use std::alloc::Global;
use std::marker::Model;
use type_terms::{NoMemory, Text};

/// Names by numbers, in the order in which they were added. Contracts see the list of the names.
#[derive(Drop)]
pub struct NumberedNames {
    names: IndexSet<Vec<u8>>,
}

impl Model for NumberedNames {
    ghost use Rattle.std.specs.Prelude.{List};
    ghost use Rattle.type_terms.specs.Keys.{Name};

    ghost Value = { List Name };

    ghost use Rattle.erl_scope_stack.specs.Named.{names_in};

    ghost view = { λ t. names_in t.names.keys };
}

impl NumberedNames {
    pub fn new(alloc: Global) -> NumberedNames
        ensures { result ≡ [] }
    {
        NumberedNames {
            names: IndexSet::new(alloc),
        }
    }

    pub fn len(&self) -> usize
        ensures { result ≡ length self.now }
    {
        self.names.len()
    }

    /// The number of a name, if it is there.
    pub fn number(&self, name: &Text) -> Option<usize>
        ensures { IsNumber self.now name.now result }
    {
        self.names.get_index_of(name.as_slice())
    }

    /// Adds a name, unless it is there, and gives its number.
    pub fn add(&mut self, alloc: Global, name: &Text) -> Result<usize, NoMemory>
        ensures number { IfOk result (λ number. HasNumber self.new name.now number) }
        ensures grown { IsGrown name.now self.old self.new }
    {
        let key = Vec::from_slice(alloc, name.as_slice())?;
        let (number, _) = self.names.insert_full(key)?;
        Ok(number)
    }
}
