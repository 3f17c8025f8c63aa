ghost use Rattle.std.specs.Prelude.{◌≡◌, ◌+◌, ◌^◌, ◌<◌, ◌++◌, ◌∷◌, [], None, IfOk, OnOk, OnErr, IsErrOf};
ghost use Rattle.std.specs.Option.{option_copied};
ghost use Rattle.tool_io.specs.Memory.{held_in};
ghost use Rattle.tool_io.specs.Outside.{Loads};

use crate::LoadFault;
use crate::bytes::first;
use std::alloc::Global;
use std::marker::Model;
use type_terms::{Bytes, List, NoMemory, Plain, Text};

/// What files in memory hold. Contracts see it as the list of its pairs.
#[derive(Drop)]
pub struct Held {
    alloc: Global,
    /// Of two pairs with one name the later one counts.
    pairs: List<(Text, Bytes)>,
}

impl Model for Held {
    ghost use Rattle.std.specs.Prelude.{List, ℕ};

    ghost Value = { List (List ℕ × List ℕ) };

    ghost view = { λ it. it.pairs };
}

impl Held {
    pub fn new(alloc: Global, pairs: List<(Text, Bytes)>) -> Held
        ensures { result ≡ pairs }
    {
        Held { alloc, pairs }
    }

    /// What is held under the name, if anything.
    #[tactic(auto, using(crate::proofs::HeldPairs::held_in_more, std::proofs::lemmas::Grind::common_steps))]
    pub fn bytes_of(&self, name: &Text) -> Option<&Bytes>
        ensures { option_copied result ≡ held_in self.now name.now }
    {
        let pairs = self.pairs.as_slice();
        let mut found = None;
        for (held_name, bytes) in pairs {
            if held_name.as_slice() == name.as_slice() {
                found = Some(bytes);
            }
        }
        found
    }

    /// What is held under the name, or its first `limit + 1` bytes where it is longer. `Failed` where
    /// nothing is held.
    pub fn load(&self, alloc: Global, name: &Text, limit: u64) -> Result<Bytes, LoadFault>
        requires { limit + 1 < 2 ^ 64 }
        ensures loaded { IfOk result (Loads (held_in self.now) name.now limit) }
        ensures missing { held_in self.now name.now ≡ None → IsErrOf result LoadFault.Failed }
        ensures failed { IsErrOf result LoadFault.Failed → held_in self.now name.now ≡ None }
    {
        let Some(bytes) = self.bytes_of(name) else {
            return Err(LoadFault::Failed);
        };
        let Ok(loaded) = Bytes::from_slice(alloc, first(bytes.as_slice(), limit + 1)) else {
            return Err(LoadFault::NoMemory);
        };
        Ok(loaded)
    }

    /// Adds a pair.
    pub fn hold(&mut self, name: &Text, bytes: &Bytes) -> Result<(), NoMemory>
        ensures ok { OnOk result (self.new ≡ self.old ++ (name.now, bytes.now) ∷ []) }
        ensures err { OnErr result (self.new ≡ self.old) }
    {
        let name = name.copy(self.alloc)?;
        let bytes = bytes.copy(self.alloc)?;
        self.pairs.push((name, bytes))?;
        Ok(())
    }
}
