ghost use Rattle.std.specs.Prelude.{◌≡◌, ◌+◌, ◌^◌, ◌<◌, ◌≢◌, ◌⊎◌, ◌++◌, ℕ, List, [], take, map, Some, None, false, IsTrue, IsSome, IfOk, IsErrOf, OnOk, OnErr};
ghost use Rattle.std.specs.Option.{option_copied, ForSome};
ghost use Rattle.tool_io.specs.Memory.{held_in, AreDistinct, one_more, is_listed, taken_by};
ghost use Rattle.tool_io.specs.Outside.{KeepsCount, Loads, PutsBeginning};

use crate::bytes::{append, first};
use crate::held::Held;
use crate::{Files, LoadFault, PutFault, Sink, StoreFault};
use std::alloc::Global;
use type_terms::{Bytes, List, Text};

/// Files in memory, whose listed calls fail.
///
/// Loads and stores are numbered together, from 0. A load of a missing name fails too.
#[derive(Drop)]
pub struct MemoryFiles {
    held: Held,
    failing: List<u64>,
    /// The number of the next call.
    next: u64,
    faults: u64,
}

impl MemoryFiles {
    /// Files that hold these bytes under these names, whose calls with these numbers fail.
    pub fn new(alloc: Global, held: List<(Text, Bytes)>, failing: List<u64>) -> MemoryFiles
        requires names { AreDistinct (map (λ pair. pair.0) held) }
        requires numbers { AreDistinct failing }
        ensures held { result.held ≡ held }
        ensures failing { result.failing ≡ failing }
        ensures next { result.next ≡ 0 }
        ensures faults { result.faults ≡ 0 }
    {
        MemoryFiles {
            held: Held::new(alloc, held),
            failing,
            next: 0,
            faults: 0,
        }
    }

    /// What is held under the name, if anything.
    pub fn bytes_of(&self, name: &Text) -> Option<&Bytes>
        ensures { option_copied result ≡ held_in self.now.held name.now }
    {
        self.held.bytes_of(name)
    }

    /// Numbers a call, and says whether it is to fail.
    fn begin(&mut self) -> bool
        ensures listed { result ≡ is_listed self.old.failing self.old.next }
        ensures next { self.new.next ≡ one_more self.old.next }
        ensures held { self.new.held ≡ self.old.held }
        ensures failing { self.new.failing ≡ self.old.failing }
        ensures faults { self.new.faults ≡ self.old.faults }
    {
        let number = self.next;
        self.next = number.saturating_add(1);
        self.failing.as_slice().contains(&number)
    }
}

impl Files for MemoryFiles {
    ghost held = { λ it. Some (held_in it.held) };

    ghost faults = { λ it. it.faults };

    ghost sure = { λ _. false };

    fn load(&mut self, alloc: Global, name: &Text, limit: u64) -> Result<Bytes, LoadFault>
        requires { limit + 1 < 2 ^ 64 }
        ensures loaded { IfOk result (Loads (held_in self.old.held) name.now limit) }
        ensures kept { self.new.held ≡ self.old.held }

        // It fails exactly where the call is listed or the name is missing.
        ensures listed { IsTrue (is_listed self.old.failing self.old.next) → IsErrOf result LoadFault.Failed }
        ensures missing { held_in self.old.held name.now ≡ None → IsErrOf result LoadFault.Failed }
        ensures only { IsErrOf result LoadFault.Failed → IsTrue (is_listed self.old.failing self.old.next) ⊎ (held_in self.old.held name.now ≡ None) }

        // The count rises by one where it has failed, and the call is numbered.
        ensures failed { IsErrOf result LoadFault.Failed → self.new.faults ≡ one_more self.old.faults }
        ensures no_memory { IsErrOf result LoadFault.NoMemory → self.new.faults ≡ self.old.faults }
        ensures ok { OnOk result (self.new.faults ≡ self.old.faults) }
        ensures count { KeepsCount self.old.faults self.new.faults }
        ensures next { self.new.next ≡ one_more self.old.next }
        ensures failing { self.new.failing ≡ self.old.failing }
    {
        let faults = self.faults;
        if self.begin() {
            self.faults = faults.saturating_add(1);
            return Err(LoadFault::Failed);
        }
        let loaded = self.held.load(alloc, name, limit);
        if let Err(LoadFault::Failed) = loaded {
            self.faults = faults.saturating_add(1);
        }
        loaded
    }

    fn store(&mut self, name: &Text, bytes: &Bytes) -> Result<(), StoreFault>
        ensures stored { OnOk result (held_in self.new.held name.now ≡ Some bytes.now) }
        ensures others { (other : List ℕ) → other ≢ name.now → held_in self.new.held other ≡ held_in self.old.held other }

        // It fails exactly where the call is listed.
        ensures listed { IsTrue (is_listed self.old.failing self.old.next) → IsErrOf result StoreFault.Failed }
        ensures only { IsErrOf result StoreFault.Failed → IsTrue (is_listed self.old.failing self.old.next) }

        // The count rises by one where it has failed, and the call is numbered.
        ensures failed { IsErrOf result StoreFault.Failed → self.new.faults ≡ one_more self.old.faults }
        ensures no_memory { IsErrOf result StoreFault.NoMemory → self.new.faults ≡ self.old.faults }
        ensures ok { OnOk result (self.new.faults ≡ self.old.faults) }
        ensures count { KeepsCount self.old.faults self.new.faults }
        ensures next { self.new.next ≡ one_more self.old.next }
        ensures failing { self.new.failing ≡ self.old.failing }
    {
        let faults = self.faults;
        if self.begin() {
            self.faults = faults.saturating_add(1);
            return Err(StoreFault::Failed);
        }
        Ok(self.held.hold(name, bytes)?)
    }
}

/// A sink in memory, whose listed puts fail.
///
/// Puts are numbered from 0. A listed put takes some bytes, and then fails.
#[derive(Drop)]
pub struct MemorySink {
    written: Bytes,
    /// The number of a put, and how many bytes it takes.
    failing: List<(u64, u64)>,
    /// The number of the next put.
    next: u64,
    faults: u64,
}

impl MemorySink {
    /// A sink to which nothing was written, whose puts with these numbers take that many bytes, at most
    /// all, and then fail.
    pub fn new(alloc: Global, failing: List<(u64, u64)>) -> MemorySink
        requires { AreDistinct (map (λ put. put.0) failing) }
        ensures written { result.written ≡ [] }
        ensures failing { result.failing ≡ failing }
        ensures next { result.next ≡ 0 }
        ensures faults { result.faults ≡ 0 }
    {
        MemorySink {
            written: Bytes::new(alloc),
            failing,
            next: 0,
            faults: 0,
        }
    }

    /// What was written so far.
    pub fn bytes(&self) -> &Bytes
        ensures { result.now ≡ self.now.written }
    {
        &self.written
    }

    /// Numbers a put, and says how many bytes it takes if it is to fail.
    fn begin(&mut self) -> Option<u64>
        ensures listed { result ≡ taken_by self.old.failing self.old.next }
        ensures next { self.new.next ≡ one_more self.old.next }
        ensures written { self.new.written ≡ self.old.written }
        ensures failing { self.new.failing ≡ self.old.failing }
        ensures faults { self.new.faults ≡ self.old.faults }
    {
        let number = self.next;
        self.next = number.saturating_add(1);
        let put = self.failing.as_slice().iter().find(|put| put.0 == number)?;
        Some(put.1)
    }
}

impl Sink for MemorySink {
    ghost written = { λ it. Some it.written };

    ghost faults = { λ it. it.faults };

    ghost sure = { λ _. false };

    fn put(&mut self, bytes: &Bytes) -> Result<(), PutFault>
        ensures put { OnOk result (self.new.written ≡ self.old.written ++ bytes.now) }
        ensures beginning { OnErr result (PutsBeginning (Some self.old.written) (Some self.new.written) bytes.now) }

        // It fails only where the put is listed, and then has taken the listed number of bytes. A listed
        // put is never done.
        ensures listed { IsSome (taken_by self.old.failing self.old.next) → OnOk result ⊥ }
        ensures only { IsErrOf result PutFault.Failed → IsSome (taken_by self.old.failing self.old.next) }
        ensures taken { IsErrOf result PutFault.Failed → ForSome (taken_by self.old.failing self.old.next) (λ taken. self.new.written ≡ self.old.written ++ take taken bytes.now) }

        // The count rises by one where it has failed, and the put is numbered.
        ensures failed { IsErrOf result PutFault.Failed → self.new.faults ≡ one_more self.old.faults }
        ensures no_memory { IsErrOf result PutFault.NoMemory → self.new.faults ≡ self.old.faults }
        ensures ok { OnOk result (self.new.faults ≡ self.old.faults) }
        ensures count { KeepsCount self.old.faults self.new.faults }
        ensures next { self.new.next ≡ one_more self.old.next }
        ensures failing { self.new.failing ≡ self.old.failing }
    {
        let faults = self.faults;
        let Some(taken) = self.begin() else {
            return Ok(append(&mut self.written, bytes.as_slice())?);
        };
        if append(&mut self.written, first(bytes.as_slice(), taken)).is_err() {
            return Err(PutFault::NoMemory);
        }
        self.faults = faults.saturating_add(1);
        Err(PutFault::Failed)
    }
}
