//! Files and sinks in memory, which fail at listed calls, and real ones.

ghost use Rattle.std.specs.Prelude.{◌≡◌, ℕ, List, [], ◌∷◌, IfOk};

use std::alloc::Global;
use std::env;
use std::test::Fail;
use tool_io::{
    Files, LoadFault, MemoryFiles, MemorySink, PutFault, Sink, StdFiles, StdSink, StoreFault,
    SureFiles,
};
use type_terms::{Bytes, List, NoMemory, Text};

/// A text under the name `m`.
fn held(alloc: Global, text: &[u8]) -> Result<List<(Text, Bytes)>, NoMemory>
    ensures { IfOk result (λ pairs. (pair : List ℕ × List ℕ) × (pairs ≡ pair ∷ [])) }
{
    let name = Text::from_slice(alloc, b"m")?;
    let bytes = Bytes::from_slice(alloc, text)?;
    one(alloc, (name, bytes))
}

/// A list of one item.
fn one<T: Drop>(alloc: Global, item: T) -> Result<List<T>, NoMemory>
    ensures { IfOk result (λ items. items ≡ item ∷ []) }
{
    let mut items = List::new(alloc);
    items.push(item)?;
    Ok(items)
}

#[test]
fn files_in_memory(rt: HostRuntime) -> Result<(), Fail> {
    let alloc = rt.alloc();
    let name = Text::from_slice(alloc, b"m")?;
    let missing = Text::from_slice(alloc, b"other")?;
    let bytes = Bytes::from_slice(alloc, b"xy")?;
    let mut sure = SureFiles::new(alloc, List::new(alloc));
    assert!(rt; sure.bytes_of(&name).is_none());
    assert!(rt; sure.store(&name, &Bytes::from_slice(alloc, b"z")?).is_ok());
    assert!(rt; sure.store(&name, &bytes).is_ok());
    let held_bytes = sure.bytes_of(&name).ok_or("not held")?;
    assert_eq!(rt; held_bytes.as_slice(), b"xy".as_slice());
    let mut files = MemoryFiles::new(alloc, held(alloc, b"abcdef")?, one(alloc, 1)?);
    let beginning = files.load(alloc, &name, 2).ok().ok_or("not loaded")?;
    assert_eq!(rt; beginning.as_slice(), b"abc".as_slice());
    assert_eq!(rt; files.store(&name, &bytes).err(), Some(StoreFault::Failed));
    assert!(rt; files.store(&name, &bytes).is_ok());
    let stored = files.bytes_of(&name).ok_or("nothing is held")?;
    assert_eq!(rt; stored.as_slice(), b"xy".as_slice());
    assert_eq!(rt;
        files.load(alloc, &missing, 2).err(),
        Some(LoadFault::Failed)
    );
    assert!(rt; files.bytes_of(&missing).is_none());
    Ok(())
}

#[test]
fn sinks_in_memory(rt: HostRuntime) -> Result<(), Fail> {
    let alloc = rt.alloc();
    let mut out = MemorySink::new(alloc, one(alloc, (1, 9))?);
    let bytes = Bytes::from_slice(alloc, b"ab")?;
    for wanted in [None, Some(PutFault::Failed), None] {
        assert_eq!(rt; out.put(&bytes).err(), wanted);
    }
    assert_eq!(rt; out.bytes().as_slice(), b"ababab".as_slice());
    Ok(())
}

#[test]
fn real_files_and_output(rt: HostRuntime) -> Result<(), Fail> {
    let alloc = rt.alloc();
    let mut files = StdFiles::new(rt.clone()?);
    let path = env::temp_dir(&rt)?.join(alloc, "etylizer-test.tmp")?;
    let name = Text::from_slice(alloc, path.as_str().as_bytes())?;
    let bytes = Bytes::from_slice(alloc, b"abcdef")?;
    assert!(rt; files.store(&name, &bytes).is_ok());
    // At most one byte more than the limit is loaded.
    for (limit, wanted) in [(6, b"abcdef".as_slice()), (2, b"abc".as_slice())] {
        let loaded = files.load(alloc, &name, limit).ok().ok_or("not loaded")?;
        assert_eq!(rt; loaded.as_slice(), wanted);
    }
    let missing = Text::from_slice(alloc, b"etylizer-test.none")?;
    assert_eq!(rt;
        files.load(alloc, &missing, 6).err(),
        Some(LoadFault::Failed)
    );
    let mut out = StdSink::new(rt.stdout());
    assert!(rt; out.put(&bytes).is_ok());
    Ok(())
}
