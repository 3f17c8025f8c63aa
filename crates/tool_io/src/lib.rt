//! Files and sinks as traits with a written meaning, in memory and over the system.
#![tactic(auto)]

ghost use Rattle.std.specs.Prelude.{◌≡◌, ◌↔◌, ◌+◌, ◌^◌, ◌<◌, ℕ, List, Bool, Option, Some, IsSome, IsTrue, IfOk, OnOk, OnErr, IsErrOf};
ghost use Rattle.std.specs.Option.{ForSome};
ghost use Rattle.tool_io.specs.Outside.{Holdings, IsHeld, Rose, KeepsCount, Loads, KeepsOthers, Puts, PutsBeginning};

mod bytes;
mod failing;
mod held;
mod memory;
mod system;

pub use failing::{MemoryFiles, MemorySink};
pub use memory::{SureFiles, SureSink};
use std::alloc::Global;
pub use system::{StdFiles, StdSink};
use type_terms::{Bytes, NoMemory, Text};

/// Why a load gave nothing.
#[derive(Clone, Copy, Debug, PartialEq, Eq)]
pub enum LoadFault {
    /// Memory ran out. Nothing has changed.
    NoMemory,
    /// The name is missing, or reading failed.
    Failed,
}

/// Why a store failed. Nothing is known then of what is held under the name.
#[derive(Clone, Copy, Debug, PartialEq, Eq)]
pub enum StoreFault {
    NoMemory,
    Failed,
}

/// Why a put failed. A beginning of the bytes was written.
#[derive(Clone, Copy, Debug, PartialEq, Eq)]
pub enum PutFault {
    NoMemory,
    Failed,
}

impl From<NoMemory> for LoadFault {
    ghost use Rattle.tool_io.specs.declared.LoadFault.TheVariants.{NoMemory};

    ghost from_gives = { λ _ fault. fault ≡ NoMemory };

    fn from(_error: NoMemory) -> LoadFault {
        LoadFault::NoMemory
    }
}

impl From<NoMemory> for StoreFault {
    ghost use Rattle.tool_io.specs.declared.StoreFault.TheVariants.{NoMemory};

    ghost from_gives = { λ _ fault. fault ≡ NoMemory };

    fn from(_error: NoMemory) -> StoreFault {
        StoreFault::NoMemory
    }
}

impl From<NoMemory> for PutFault {
    ghost use Rattle.tool_io.specs.declared.PutFault.TheVariants.{NoMemory};

    ghost from_gives = { λ _ fault. fault ≡ NoMemory };

    fn from(_error: NoMemory) -> PutFault {
        PutFault::NoMemory
    }
}

/// Named byte strings, which are loaded and stored as a whole.
pub trait Files {
    /// What is held under each name, where that is told.
    ghost held: { Self → Option Holdings };

    /// How often they have failed. The count never falls, and stays at its greatest value.
    ghost faults: { Self → ℕ };

    /// Whether a load of a name that is held never fails, and no store does.
    ghost sure: { Self → Bool };

    /// What is held under the name, or its first `limit + 1` bytes where it is longer.
    ///
    /// # Errors
    ///
    /// `Failed` where the files have failed in this call: a missing name is a failure. `NoMemory`
    /// where memory runs out.
    fn load(&mut self, alloc: Global, name: &Text, limit: u64) -> Result<Bytes, LoadFault>
        requires { limit + 1 < 2 ^ 64 }
        ensures loaded { ForSome (held self.old) (λ files. IfOk result (Loads files name.now limit)) }
        ensures kept { held self.new ≡ held self.old }
        ensures failed { IsErrOf result LoadFault.Failed → Rose (faults self.old) (faults self.new) }
        ensures no_memory { IsErrOf result LoadFault.NoMemory → faults self.new ≡ faults self.old }
        ensures count { KeepsCount (faults self.old) (faults self.new) }
        ensures steady { IsTrue (sure self.old) → IsHeld (held self.old) name.now → faults self.new ≡ faults self.old }
        ensures same { sure self.new ≡ sure self.old };

    /// Makes the bytes what is held under the name. Whatever it answers, other names keep what they
    /// have.
    ///
    /// # Errors
    ///
    /// `Failed` where the files have failed in this call, `NoMemory` where memory runs out. Nothing is
    /// known then of what is held under the name.
    fn store(&mut self, name: &Text, bytes: &Bytes) -> Result<(), StoreFault>
        ensures stored { ForSome (held self.new) (λ files. OnOk result (files name.now ≡ Some bytes.now)) }
        ensures others { KeepsOthers (held self.old) (held self.new) name.now }
        ensures told { IsSome (held self.new) ↔ IsSome (held self.old) }
        ensures failed { IsErrOf result StoreFault.Failed → Rose (faults self.old) (faults self.new) }
        ensures count { KeepsCount (faults self.old) (faults self.new) }
        ensures steady { IsTrue (sure self.old) → faults self.new ≡ faults self.old }
        ensures same { sure self.new ≡ sure self.old };
}

/// What takes bytes, one text after another.
pub trait Sink {
    /// What was written so far, where that is told.
    ghost written: { Self → Option (List ℕ) };

    /// How often it has failed. The count never falls, and stays at its greatest value.
    ghost faults: { Self → ℕ };

    /// Whether no put fails.
    ghost sure: { Self → Bool };

    /// Appends the bytes.
    ///
    /// # Errors
    ///
    /// `Failed` where the sink has failed in this call, `NoMemory` where memory runs out. A beginning
    /// of the bytes was appended then.
    fn put(&mut self, bytes: &Bytes) -> Result<(), PutFault>
        ensures put { OnOk result (Puts (written self.old) (written self.new) bytes.now) }
        ensures beginning { OnErr result (PutsBeginning (written self.old) (written self.new) bytes.now) }
        ensures told { IsSome (written self.new) ↔ IsSome (written self.old) }
        ensures failed { IsErrOf result PutFault.Failed → Rose (faults self.old) (faults self.new) }
        ensures count { KeepsCount (faults self.old) (faults self.new) }
        ensures steady { IsTrue (sure self.old) → faults self.new ≡ faults self.old }
        ensures same { sure self.new ≡ sure self.old };
}
