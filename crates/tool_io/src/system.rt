ghost use Rattle.std.specs.Prelude.{◌+◌, ◌^◌, ◌<◌, ◌≤◌, ◌≡◌, length, None, false, IfOk};

use crate::{Files, LoadFault, PutFault, Sink, StoreFault};
use std::alloc::Global;
use std::io::{Read, Stdout, Write};
use std::{fs, io};
use type_terms::{Bytes, Text};

/// The files of the system. They don't tell what they hold.
#[derive(Drop)]
pub struct StdFiles {
    rt: HostRuntime,
    faults: u64,
}

impl StdFiles {
    /// The files of the system, which have not failed yet.
    pub fn new(rt: HostRuntime) -> StdFiles {
        StdFiles { rt, faults: 0 }
    }
}

/// Standard output. It doesn't tell what was written.
#[derive(Drop)]
pub struct StdSink {
    out: Stdout,
    faults: u64,
}

impl StdSink {
    /// Standard output, which has not failed yet.
    pub fn new(out: Stdout) -> StdSink {
        StdSink { out, faults: 0 }
    }
}

/// How often a read or a write that a signal interrupts is tried again.
const RETRIES: usize = 64;

/// Whether a signal interrupted a read or a write.
fn is_interrupted(error: &io::Error) -> bool {
    error.kind() == io::ErrorKind::Interrupted
}

/// Reads once, and again where a signal interrupts.
fn read_some<R: Read>(from: &mut R, buffer: &mut [u8]) -> io::Result<usize>
    ensures { IfOk result (λ taken. taken ≤ length buffer.old) }
{
    for _ in 0..RETRIES {
        match from.read(buffer) {
            Err(error) if is_interrupted(&error) => {}
            answer => return answer,
        }
    }
    from.read(buffer)
}

/// Writes once, and again where a signal interrupts.
fn write_some<W: Write>(to: &mut W, bytes: &[u8]) -> io::Result<usize>
    ensures { IfOk result (λ taken. taken ≤ length bytes.now) }
{
    for _ in 0..RETRIES {
        match to.write(bytes) {
            Err(error) if is_interrupted(&error) => {}
            answer => return answer,
        }
    }
    to.write(bytes)
}

/// Reads up to `limit + 1` bytes of a file. A read that gives nothing is the file's end.
fn read_file(rt: &HostRuntime, alloc: Global, path: &str, limit: u64) -> io::Result<Bytes>
    requires { limit + 1 < 2 ^ 64 }
{
    let mut file = fs::open(rt, path)?;
    let wanted = limit as usize + 1;
    let mut bytes = Bytes::new(alloc);
    let mut buffer = [0u8; 4096];
    'reading: while bytes.len() < wanted {
        let room = (wanted - bytes.len()).min(4096);
        let taken = read_some(&mut file, &mut buffer[..room])?;
        if taken == 0 {
            break;
        }
        bytes.append(Bytes::from_slice(alloc, &buffer[..taken])?)?;
    }
    Ok(bytes)
}

/// Writes the bytes to a file, which is made where it is missing.
fn write_file(rt: &HostRuntime, path: &str, bytes: &[u8]) -> io::Result<bool> {
    let mut file = fs::create(rt, path)?;
    write_whole(&mut file, bytes)
}

/// Writes all bytes, and says whether they were taken: a write that takes nothing is a fault.
fn write_whole<W: Write>(to: &mut W, bytes: &[u8]) -> io::Result<bool> {
    let mut at = 0;
    'writing: while at < bytes.len() {
        let taken = write_some(to, &bytes[at..])?;
        if taken == 0 {
            return Ok(false);
        }
        at += taken;
    }
    Ok(true)
}

/// Whether an error of the system is want of memory.
fn is_no_memory(error: &io::Error) -> bool {
    error.kind() == io::ErrorKind::OutOfMemory
}

impl Files for StdFiles {
    ghost held = { λ _. None };

    ghost faults = { λ it. it.faults };

    ghost sure = { λ _. false };

    fn load(&mut self, alloc: Global, name: &Text, limit: u64) -> Result<Bytes, LoadFault> {
        let faults = self.faults;
        let read = match str::from_utf8(name.as_slice()) {
            Ok(path) => read_file(&self.rt, alloc, path, limit),
            Err(_) => Err(io::Error::from(io::ErrorKind::InvalidFilename)),
        };
        match read {
            Ok(bytes) => Ok(bytes),
            Err(error) if is_no_memory(&error) => Err(LoadFault::NoMemory),
            Err(_) => {
                self.faults = faults.saturating_add(1);
                Err(LoadFault::Failed)
            }
        }
    }

    fn store(&mut self, name: &Text, bytes: &Bytes) -> Result<(), StoreFault> {
        let faults = self.faults;
        let written = match str::from_utf8(name.as_slice()) {
            Ok(path) => write_file(&self.rt, path, bytes.as_slice()),
            Err(_) => Err(io::Error::from(io::ErrorKind::InvalidFilename)),
        };
        match written {
            Ok(true) => Ok(()),
            Err(error) if is_no_memory(&error) => Err(StoreFault::NoMemory),
            _ => {
                self.faults = faults.saturating_add(1);
                Err(StoreFault::Failed)
            }
        }
    }
}

impl Sink for StdSink {
    ghost written = { λ _. None };

    ghost faults = { λ it. it.faults };

    ghost sure = { λ _. false };

    fn put(&mut self, bytes: &Bytes) -> Result<(), PutFault> {
        let faults = self.faults;
        match write_whole(&mut self.out, bytes.as_slice()) {
            Ok(true) => Ok(()),
            Err(error) if is_no_memory(&error) => Err(PutFault::NoMemory),
            _ => {
                self.faults = faults.saturating_add(1);
                Err(PutFault::Failed)
            }
        }
    }
}
