//! What the types of a row that stand alone are answered.

use crate::answers::{RowFault, module_of, tokens_of};
use crate::faults::push_fault;
use crate::terms::{push_term, push_word};
use erl_parser::parse_type;
use erl_tree::TypeExpr;
use std::alloc::{AllocError, Global};
use type_terms::{List, Text};
use typespecs::read_specs;
use typespecs_rules::Specs;
use typespecs_single::term_of;

/// What stands in front of a type that stands alone, in a line of its own.
const MARK: &str = "? ";

/// The lines of a row that are forms.
fn forms_of(alloc: Global, row: &str) -> Result<String, RowFault> {
    let mut forms = String::new(alloc);
    for line in row.split("\n") {
        if line.strip_prefix(MARK).is_none() {
            forms.push_str(line)?;
            forms.push('\n')?;
        }
    }
    Ok(forms)
}

/// The type of a text.
fn type_of(alloc: Global, text: &str) -> Result<TypeExpr, RowFault> {
    let tokens = tokens_of(alloc, text)?;
    Ok(parse_type(alloc, &tokens)?)
}

/// The term of a type, or its fault.
fn push_type(
    alloc: Global,
    text: &str,
    specs: &Specs,
    names: &mut List<Text>,
    out: &mut Vec<u8>,
) -> Result<(), RowFault> {
    let ty = type_of(alloc, text)?;
    match term_of(alloc, &ty, specs, names) {
        Ok(term) => {
            out.extend_from_slice(b" ")?;
            push_term(out, &term)?;
            out.extend_from_slice(b"\n")?;
        }
        Err(fault) => push_fault(out, fault)?,
    }
    Ok(())
}

/// `names NAME..`.
fn push_names(out: &mut Vec<u8>, names: &[Text]) -> Result<(), AllocError> {
    out.extend_from_slice(b"  names")?;
    for name in names {
        push_word(out, name.as_slice())?;
    }
    out.extend_from_slice(b"\n")
}

/// What the types of a row are that stand alone, read one after the other with the types and records of
/// the row's forms, and the names of their variables; or what is wrong with the forms. Lines that begin
/// with two blanks.
///
/// # Errors
///
/// Why the forms are no module, or a type is none; `NoMemory` where memory runs out.
pub(crate) fn answer_types(alloc: Global, row: &str) -> Result<Vec<u8>, RowFault> {
    let forms = forms_of(alloc, row)?;
    let module = module_of(alloc, &forms)?;
    let mut out = Vec::new(alloc);
    match read_specs(alloc, &module) {
        Err(fault) => push_fault(&mut out, fault)?,
        Ok(specs) => {
            let mut names = List::new(alloc);
            for line in row.split("\n") {
                if let Some(text) = line.strip_prefix(MARK) {
                    push_type(alloc, text, &specs, &mut names, &mut out)?;
                }
            }
            push_names(&mut out, names.as_slice())?;
        }
    }
    Ok(out)
}
