ghost use Rattle.std.specs.Prelude.{◌≡◌, ◌++◌, take, Some, OnOk, OnErr};
ghost use Rattle.tool_io.specs.Outside.{PutsBeginning};

use type_terms::{Bytes, NoMemory};

/// The first bytes, that many or all where there are fewer.
pub fn first(bytes: &[u8], count: u64) -> &[u8]
    ensures { result.now ≡ take count bytes.now }
{
    let count = count as usize;
    if bytes.len() <= count {
        return bytes;
    }
    &bytes[..count]
}

/// Appends the bytes. Where memory runs out a beginning of them was appended.
pub fn append(written: &mut Bytes, bytes: &[u8]) -> Result<(), NoMemory>
    ensures ok { OnOk result (written.new ≡ written.old ++ bytes.now) }
    ensures err { OnErr result (PutsBeginning (Some written.old) (Some written.new) bytes.now) }
{
    for byte in bytes {
        if written.push(*byte).is_err() {
            return Err(NoMemory);
        }
    }
    Ok(())
}
