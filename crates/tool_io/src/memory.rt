ghost use Rattle.std.specs.Prelude.{◌≡◌, [], Some, true};
ghost use Rattle.std.specs.Option.{option_copied};
ghost use Rattle.tool_io.specs.Memory.{held_in};

use crate::bytes::append;
use crate::held::Held;
use crate::{Files, LoadFault, PutFault, Sink, StoreFault};
use std::alloc::Global;
use type_terms::{Bytes, List, Text};

/// Files in memory, which fail on a missing name alone.
#[derive(Drop)]
pub struct SureFiles {
    held: Held,
    faults: u64,
}

impl SureFiles {
    /// Files that hold these bytes under these names.
    pub fn new(alloc: Global, held: List<(Text, Bytes)>) -> SureFiles
        ensures held { result.held ≡ held }
        ensures faults { result.faults ≡ 0 }
    {
        SureFiles {
            held: Held::new(alloc, held),
            faults: 0,
        }
    }

    /// What is held under the name, if anything.
    pub fn bytes_of(&self, name: &Text) -> Option<&Bytes>
        ensures { option_copied result ≡ held_in self.now.held name.now }
    {
        self.held.bytes_of(name)
    }
}

impl Files for SureFiles {
    ghost held = { λ it. Some (held_in it.held) };

    ghost faults = { λ it. it.faults };

    ghost sure = { λ _. true };

    fn load(&mut self, alloc: Global, name: &Text, limit: u64) -> Result<Bytes, LoadFault> {
        let faults = self.faults;
        let loaded = self.held.load(alloc, name, limit);
        if let Err(LoadFault::Failed) = loaded {
            self.faults = faults.saturating_add(1);
        }
        loaded
    }

    fn store(&mut self, name: &Text, bytes: &Bytes) -> Result<(), StoreFault> {
        let _faults = self.faults;
        Ok(self.held.hold(name, bytes)?)
    }
}

/// A sink in memory, which never fails.
#[derive(Drop)]
pub struct SureSink {
    written: Bytes,
}

impl SureSink {
    /// A sink to which nothing was written.
    pub fn new(alloc: Global) -> SureSink
        ensures { result.written ≡ [] }
    {
        SureSink {
            written: Bytes::new(alloc),
        }
    }

    /// What was written so far.
    pub fn bytes(&self) -> &Bytes
        ensures { result.now ≡ self.now.written }
    {
        &self.written
    }
}

impl Sink for SureSink {
    ghost written = { λ it. Some it.written };

    ghost faults = { λ _. 0 };

    ghost sure = { λ _. true };

    fn put(&mut self, bytes: &Bytes) -> Result<(), PutFault> {
        Ok(append(&mut self.written, bytes.as_slice())?)
    }
}
