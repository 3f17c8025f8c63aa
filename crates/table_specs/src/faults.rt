//! Faults with their places.

use erl_tree::Place;
use itoa::Buffer;
use std::alloc::AllocError;
use type_terms::NoMemory;
use typespecs::SpecFault;
use typespecs_rules::Outside;

fn push_number(out: &mut Vec<u8>, number: u32) -> Result<(), AllocError> {
    out.extend_from_slice(Buffer::new().format(number).as_bytes())
}

/// `LINE:COLUMN: WORDS`.
fn push_at(out: &mut Vec<u8>, place: Place, words: &[u8]) -> Result<(), NoMemory> {
    out.extend_from_slice(b"  ")?;
    push_number(out, place.line)?;
    out.extend_from_slice(b":")?;
    push_number(out, place.column)?;
    out.extend_from_slice(b": ")?;
    out.extend_from_slice(words)?;
    out.extend_from_slice(b"\n")?;
    Ok(())
}

fn outside_words(what: Outside) -> &'static [u8] {
    match what {
        Outside::RecordDefault => b"out of profile: record default",
        Outside::MapKey => b"out of profile: map key",
        Outside::UnusableType => b"out of profile: type",
        Outside::NonRegularType => b"out of profile: non-regular type",
        Outside::CyclicBound => b"out of profile: cyclic bound",
    }
}

/// A fault of a module's types, records and specs.
///
/// # Errors
///
/// `NoMemory` where memory runs out, and where the fault says so.
pub(crate) fn push_fault(out: &mut Vec<u8>, fault: SpecFault) -> Result<(), NoMemory> {
    match fault {
        SpecFault::NoMemory => Err(NoMemory),
        SpecFault::NoSuchType(place) => push_at(out, place, b"no such type"),
        SpecFault::Repeated(place) => push_at(out, place, b"repeated"),
        SpecFault::NotContractive(place) => push_at(out, place, b"not contractive"),
        SpecFault::NegatedFun(place) => push_at(out, place, b"negated fun type"),
        SpecFault::OutOfProfile(place, what) => push_at(out, place, outside_words(what)),
        SpecFault::ArityDiffers(place) => push_at(out, place, b"arity differs"),
        SpecFault::BadRange(place) => push_at(out, place, b"empty range"),
    }
}
