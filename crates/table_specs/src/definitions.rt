//! Definitions, records and specs, a line for each.

use crate::terms::{push_number, push_term, push_terms, push_word};
use itoa::Buffer;
use std::alloc::AllocError;
use type_terms::{Arrow, Def, Defs, FunSpec};
use typespecs_rules::{RecordSpec, Specs};

/// `def N PARAMS TERM`.
fn push_definition(out: &mut Vec<u8>, number: u32, definition: &Def) -> Result<(), AllocError> {
    out.extend_from_slice(b"  def")?;
    push_number(out, u64::from(number))?;
    push_number(out, u64::from(definition.params))?;
    push_term(out, &definition.body)?;
    out.extend_from_slice(b"\n")
}

/// The definitions behind those that are given.
fn push_definitions(out: &mut Vec<u8>, defs: &Defs) -> Result<(), AllocError> {
    for number in 2..u32::MAX {
        let Some(definition) = defs.get(number) else {
            break;
        };
        push_definition(out, number, definition)?;
    }
    Ok(())
}

/// `record NAME N: FIELDS`.
fn push_record(out: &mut Vec<u8>, record: &RecordSpec) -> Result<(), AllocError> {
    out.extend_from_slice(b"  record")?;
    push_word(out, record.name.as_slice())?;
    push_number(out, u64::from(record.def))?;
    out.extend_from_slice(b":")?;
    for field in record.fields.as_slice() {
        push_word(out, field.as_slice())?;
    }
    out.extend_from_slice(b"\n")
}

/// `PARAMS TERM.. -> TERM`.
fn push_arrow(out: &mut Vec<u8>, arrow: &Arrow) -> Result<(), AllocError> {
    out.extend_from_slice(b"   ")?;
    push_number(out, arrow.params.len() as u64)?;
    push_terms(out, arrow.params.as_slice())?;
    push_word(out, b"->")?;
    push_term(out, &arrow.result)?;
    out.extend_from_slice(b"\n")
}

/// `spec NAME/ARITY VARS`, and the clauses.
fn push_spec(out: &mut Vec<u8>, spec: &FunSpec) -> Result<(), AllocError> {
    out.extend_from_slice(b"  spec")?;
    push_word(out, spec.name.as_slice())?;
    out.extend_from_slice(b"/")?;
    out.extend_from_slice(Buffer::new().format(spec.arity).as_bytes())?;
    push_number(out, u64::from(spec.vars))?;
    out.extend_from_slice(b"\n")?;
    for arrow in spec.clauses.as_slice() {
        push_arrow(out, arrow)?;
    }
    Ok(())
}

/// All that a module's types, records and specs are.
pub(crate) fn push_specs(out: &mut Vec<u8>, specs: &Specs) -> Result<(), AllocError> {
    push_definitions(out, &specs.defs)?;
    for record in specs.records.as_slice() {
        push_record(out, record)?;
    }
    for spec in specs.functions.as_slice() {
        push_spec(out, spec)?;
    }
    if out.is_empty() {
        out.extend_from_slice(b"  nothing\n")?;
    }
    Ok(())
}
